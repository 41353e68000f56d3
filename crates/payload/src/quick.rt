// The word call and the payload call in any memory of a tracker, for a link that gives a word each 25 ns: quiet words are passed, and any other word is read,
// checked and stored where it stands.
ghost use Rattle.std.specs.Prelude.{◌≡◌, ◌+◌, ◌-◌, ◌/◌, ◌%◌, ◌≤◌, length};
ghost use Rattle.refusals.specs.Refusals.{code_if};
ghost use Rattle.words.specs.Word.{word_bytes};
ghost use Rattle.records.specs.Records.{record_width};
ghost use Rattle.cdp_running.specs.Told.{told_by};
ghost use Rattle.cdp_running.specs.Tracker.{Good};
ghost use Rattle.cdp_running.specs.Word.{WordPost};
ghost use Rattle.payload.specs.Payload.{PayloadPost};
ghost use Rattle.payload.specs.Quiet.{quiet_told, QuietTo, Passed};

use crate::{PayloadTold, quiet};
use cdp_running::Taken;
use packet::MAX_WORDS;
use payload_fsm::ItsPayloadWord;
use refusals::Refusal;
use stored::FrameTold;
use tracker_memory::{TrackerMemory, call};
use words::Word;

// How far the words from a place on are data words that give no record and that the packet still takes.
fn quiet_to<T: TrackerMemory>(t: &T, bytes: &[u8], at: usize) -> usize
    requires holds { T.holds t.now }
    requires good { Good (T.tracker t.now) }
    requires at_in_bounds { (at ≤ length bytes.now) × ((length bytes.now - at) % word_bytes ≡ 0) }
    ensures { QuietTo (T.tracker t.now) bytes.now at result }
{
    if !t.in_data() {
        return at;
    }
    let left = (MAX_WORDS - t.count()) as usize;
    let end = at + quiet::least(bytes.len() - at, Word::SIZE * left);
    let settings = t.settings();
    let ihw = t.ihw();
    let lanes = quiet::checked_lanes(settings.running, ihw.lanes);
    quiet::have_ids(quiet::quiet_ids(lanes), bytes, at, end)
}

// Takes them. They change the count and "data seen" alone.
fn pass<T: TrackerMemory>(t: &mut T, bytes: &[u8], at: usize) -> usize
    requires holds { T.holds t.old }
    requires good { Good (T.tracker t.old) }
    requires at_in_bounds { (at ≤ length bytes.now) × ((length bytes.now - at) % word_bytes ≡ 0) }
    ensures holds { T.holds t.new }
    ensures passed { Passed (T.tracker t.old) bytes.now at result (T.tracker t.new) }
{
    let to = quiet_to(t, bytes, at);
    if to != at {
        let count = t.count() + (((to - at) / Word::SIZE) as u16);
        t.store_counted(count);
    }
    to
}

// What is told of a data word that gave no record.
fn quiet_told() -> Taken
    ensures { result ≡ quiet_told }
{
    Taken {
        kind: ItsPayloadWord::DataWord,
        guessed: false,
        records: 0,
        frame: FrameTold::Nothing,
        lanes: 0,
    }
}

// One word: its records stand at the front of out, whose rest stays. A refusal leaves both.
pub fn word<T: TrackerMemory>(t: &mut T, bytes: &[u8], out: &mut [u64]) -> Result<Taken, Refusal>
    requires holds { T.holds t.old }
    requires good { Good (T.tracker t.old) }
    ensures holds { T.holds t.new }
    ensures word { WordPost (T.tracker t.old) bytes.now out.old (record { tracker = T.tracker t.new; told = told_by result }) out.new }
{
    if bytes.len() != Word::SIZE {
        return Err(Refusal::Size);
    }
    if pass(t, bytes, 0) != 0 {
        return Ok(quiet_told());
    }
    call::word(t, bytes, out)
}

// What is told where the words up to a place were taken, with so many numbers of records.
fn told(at: usize, used: usize, refusal: Option<Refusal>) -> PayloadTold
    ensures { result ≡ record { words = at / word_bytes; records = used / record_width; refusal = refusal } }
{
    PayloadTold {
        words: (at / Word::SIZE) as u64,
        records: (used / records::RECORD_WIDTH) as u64,
        refusal: refusal,
    }
}

// The words of a payload, up to a refusal. Their records stand at the front of out, whose rest stays.
pub fn payload<T: TrackerMemory>(t: &mut T, bytes: &[u8], out: &mut [u64]) -> PayloadTold
    requires holds { T.holds t.old }
    requires good { Good (T.tracker t.old) }
    ensures holds { T.holds t.new }
    ensures payload { PayloadPost (T.tracker t.old) bytes.now out.old
        (record { tracker = T.tracker t.new; words = result.words; records = result.records; refusal = code_if result.refusal }) out.new }
{
    if bytes.len() % Word::SIZE != 0 {
        return told(0, 0, Some(Refusal::Size));
    }
    if !t.accepted() {
        return told(0, 0, Some(Refusal::NoPacket));
    }
    let mut at: usize = 0;
    let mut used: usize = 0;
    // No `for`: a turn takes a run of quiet words or one word.
    while at < bytes.len() {
        at = pass(t, bytes, at);
        if at < bytes.len() {
            if t.count() >= MAX_WORDS {
                return told(at, used, Some(Refusal::Full));
            }
            match call::step(t, Word::load_at(bytes, at), &mut out[used..]) {
                Ok(n) => {
                    used = used + records::RECORD_WIDTH * (n as usize);
                    at = at + Word::SIZE;
                }
                Err(refusal) => return told(at, used, Some(refusal)),
            }
        }
    }
    told(at, used, None)
}
