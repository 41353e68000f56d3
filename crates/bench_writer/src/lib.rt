// A bench file from packets and words, one after the other, in a lent buffer of 60,000 bytes. Document 01, "Bench file".
// Behind 16 bytes for the header stand the packets, then the words. A packet moves the words on by its 24 bytes; the header is put last.
#![tactic(auto)]

ghost use Rattle.std.specs.Prelude.{◌≡◌, ◌+◌, ◌≤◌, length};
ghost use Rattle.packet.specs.Packet.{packet_from};
ghost use Rattle.bench_file.specs.File.{packet_bytes, most_bytes};
ghost use Rattle.bench_writer.specs.Content.{packet_as};
ghost use Rattle.bench_writer.specs.Draft.{no_draft, GoodDraft, put_at, AddPacketPost, AddWordPost, FinishPost};

use bench_file::{HEADER_BYTES, MOST_BYTES, PACKET_BYTES};
use packet::{MAX_WORDS, Packet, PacketFields};
use refusals::Refusal;
use words::Word;

// How many packets and words a buffer holds, and how many words of them are the last packet's.
#[derive(Clone, Copy, Debug, Default, PartialEq, Eq)]
pub struct Draft {
    pub packets: usize,
    pub words: usize,
    pub last: usize,
}

// Bytes over those at a place.
fn put(out: &mut [u8], at: usize, bytes: &[u8])
    requires { at + length bytes.now ≤ length out.old }
    ensures { out.new ≡ put_at at bytes.now out.old }
{
    out[at..at + bytes.len()].copy_from_slice(bytes);
}

// The 24 bytes of a packet that has no words.
fn put_packet(out: &mut [u8], at: usize, packet: Packet)
    requires packet_bytes_in_bounds { at + packet_bytes ≤ length out.old }
    requires at_le_most_bytes { at ≤ most_bytes }
    ensures { out.new ≡ put_at at (packet_as packet 0) out.old }
{
    put(out, at, &packet.position.to_le_bytes());
    put(out, at + 8, &packet.orbit.to_le_bytes());
    put(out, at + 12, &packet.trigger.to_le_bytes());
    put(out, at + 16, &packet.bc.to_le_bytes());
    put(out, at + 18, &packet.page.to_le_bytes());
    put(out, at + 20, &packet.stop.to_le_bytes());
    put(out, at + 21, &packet.format.to_le_bytes());
    put(out, at + 22, &0u16.to_le_bytes());
}

// Nothing yet.
pub fn start() -> Draft
    ensures { result ≡ no_draft }
{
    Draft::default()
}

// One packet more, or refusal 5 or 6.
pub fn add_packet(buffer: &mut [u8], draft: Draft, fields: PacketFields) -> Result<Draft, Refusal>
    requires { GoodDraft buffer.old draft }
    ensures { AddPacketPost draft (packet_from fields) buffer.old result buffer.new }
{
    let packet = Packet::try_from(fields)?;
    let at = HEADER_BYTES + PACKET_BYTES * draft.packets;
    let end = at + Word::SIZE * draft.words;
    if MOST_BYTES < end + PACKET_BYTES {
        return Err(Refusal::File);
    }
    buffer.copy_within(at..end, at + PACKET_BYTES);
    put_packet(buffer, at, packet);
    Ok(Draft {
        packets: draft.packets + 1,
        last: 0,
        ..draft
    })
}

// One word more, or refusal 2, 3 or 6.
pub fn add_word(buffer: &mut [u8], draft: Draft, word: [u8; 10]) -> Result<Draft, Refusal>
    requires { GoodDraft buffer.old draft }
    ensures { AddWordPost draft word buffer.old result buffer.new }
{
    if draft.packets == 0 {
        return Err(Refusal::NoPacket);
    }
    if draft.last >= MAX_WORDS as usize {
        return Err(Refusal::Full);
    }
    let at = HEADER_BYTES + PACKET_BYTES * draft.packets;
    let end = at + Word::SIZE * draft.words;
    if MOST_BYTES < end + Word::SIZE {
        return Err(Refusal::File);
    }
    let last = draft.last + 1;
    put(buffer, at - 2, &(last as u16).to_le_bytes());
    put(buffer, end, &word);
    Ok(Draft {
        words: draft.words + 1,
        last,
        ..draft
    })
}

// The header, and the length of the file: it stands at the front of the buffer.
pub fn finish(buffer: &mut [u8], draft: Draft) -> usize
    requires { GoodDraft buffer.old draft }
    ensures { FinishPost draft buffer.old result buffer.new }
{
    let at = HEADER_BYTES + PACKET_BYTES * draft.packets;
    put(buffer, 0, &(draft.packets as u32).to_le_bytes());
    put(buffer, 4, &(draft.words as u32).to_le_bytes());
    put(buffer, 8, &(HEADER_BYTES as u32).to_le_bytes());
    put(buffer, 12, &(at as u32).to_le_bytes());
    at + Word::SIZE * draft.words
}
