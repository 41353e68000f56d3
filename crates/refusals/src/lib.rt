// Why a call was refused. The numbers are those of 01, "Calls and settings" and "Bench file", of 02 and of include/khandzorul.h. `khandzorul` names 100 and 101
// once more, as C's functions answer them.
#![tactic(auto)]

ghost use Rattle.refusals.specs.Refusals.{gives_number};

// docs/CODES.md says for each what to do.
#[derive(Clone, Copy, Debug, PartialEq, Eq)]
pub enum Refusal {
    // A word is not ten bytes, or a payload no multiple of them.
    Size = 1,
    // No packet was accepted yet.
    NoPacket = 2,
    // The packet has taken as many words as a packet takes.
    Full = 3,
    // A word's records exceed the room of the buffer.
    Room = 4,
    // A field of a packet is out of its range.
    Packet = 5,
    // A file's length and offsets are not those of a bench file.
    File = 6,
    // A file's word counts are not those of its packets together.
    Counts = 7,
    // A field is wider than its bits, or a data word's id is no data id.
    Field = 8,
    // A packet beyond the last count.
    LastPacket = 10,
    // What was handed in is no tracker.
    NoTracker = 100,
    // A setting is out of its range.
    NoSettings = 101,
    // A line of text can't be read.
    Line = 102,
}

impl From<Refusal> for u8 {
    ghost from_gives = { gives_number };

    fn from(refusal: Refusal) -> u8 {
        refusal as u8
    }
}
