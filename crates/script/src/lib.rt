// A bench file from lines of text: the text comes in pieces of any length, and what it makes is left in a lent buffer.
// docs/RULES.md, "The text form".
#![tactic(auto)]

ghost use Rattle.std.specs.Prelude.{◌≡◌, ◌≤◌, length};
ghost use Rattle.ascii.specs.Text.{Puts};
ghost use Rattle.bench_file.specs.File.{most_bytes};
ghost use Rattle.bench_writer.specs.Draft.{GoodDraft};
ghost use Rattle.script.specs.Line.{Word, line_of};
ghost use Rattle.script.specs.Taking.{packet_of, TakePost};
ghost use Rattle.script.specs.Outcome.{most_line, refused_text};
ghost use Rattle.script.specs.Feeding.{state_of, begun, GoodReading, next_line, ended, reading_after, held_after};
ghost use Rattle.script.specs.Feeding.{fed_byte, fed, ReadPost, FinishPost};

pub mod line;
mod number;
mod word;

use ascii::NEWLINE;
use bench_writer::Draft;
use line::Kind;
use packet::PacketFields;
use refusals::Refusal;
use writer::WordKind;

// Bytes of a line before its comment: so many are held, and a line of more can't be read.
pub const MOST_LINE: usize = 512;

// How far a text was read: the file so far, the number of the line at hand, from 1, how many bytes of it are held, whether its comment has begun, and the
// refusal that ended it, or 0.
#[derive(Clone, Copy)]
pub struct Reading {
    pub draft: Draft,
    pub line: u64,
    pub used: usize,
    pub comment: bool,
    pub refusal: u8,
}

// What stands at the front of the buffer, and how many bytes that is: the file where the refusal is 0, else the line that says so.
#[derive(Clone, Copy)]
pub struct Answer {
    pub n: usize,
    pub refusal: u8,
}

// Nothing was read yet.
pub fn start() -> Reading
    ensures { result ≡ begun }
{
    Reading {
        draft: bench_writer::start(),
        line: 1,
        used: 0,
        comment: false,
        refusal: 0,
    }
}

// The packet of a line's numbers.
fn packet_fields(n: [u64; 10]) -> PacketFields
    ensures { result ≡ packet_of n }
{
    PacketFields {
        position: n[0],
        orbit: n[1],
        trigger: n[2],
        bc: n[3],
        page: n[4],
        stop: n[5],
        format: n[6],
    }
}

// The word of a line's numbers, added; or refusal 8, then 2, 3 or 6.
fn take_word(
    buffer: &mut [u8],
    draft: Draft,
    kind: WordKind,
    n: [u64; 10],
) -> Result<Draft, Refusal>
    requires { GoodDraft buffer.old draft }
    ensures { TakePost (record { kind = Word kind; n = n }) draft buffer.old result buffer.new }
{
    let mut bytes = [0u8; 10];
    word::write(kind, n, &mut bytes)?;
    bench_writer::add_word(buffer, draft, bytes)
}

// What a line says, without its end and its comment, added to the file; or its refusal.
pub fn take(buffer: &mut [u8], draft: Draft, text: &[u8]) -> Result<Draft, Refusal>
    requires { GoodDraft buffer.old draft }
    ensures { TakePost (line_of text.now) draft buffer.old result buffer.new }
{
    let Some(line) = line::parse(text)? else {
        return Ok(draft);
    };
    match line.kind {
        Kind::Packet => bench_writer::add_packet(buffer, draft, packet_fields(line.n)),
        Kind::Word(word) => take_word(buffer, draft, word, line.n),
    }
}

// The number of the line after one. The last number stays.
fn next_line(line: u64) -> u64
    ensures { result ≡ next_line line }
{
    line.saturating_add(1)
}

// The line that is held ends.
#[tactic(auto, unfolding(crate::specs::Feeding::ended))]
fn end_line(buffer: &mut [u8], held: &[u8], r: Reading) -> Reading
    requires { GoodReading buffer.old held.now r }
    ensures { ReadPost (ended (state_of buffer.old held.now r)) result buffer.new held.now }
{
    if r.refusal != 0 {
        return r;
    }
    match take(buffer, r.draft, &held[..r.used]) {
        Ok(draft) => Reading {
            draft,
            line: next_line(r.line),
            used: 0,
            comment: false,
            refusal: 0,
        },
        Err(refusal) => Reading {
            refusal: u8::from(refusal),
            ..r
        },
    }
}

// A byte of the line is held. Where it has no room the line can't be read, and that is known before its end: a text without lines gets its answer too.
fn hold(held: &mut [u8], r: Reading, byte: u8) -> Reading
    requires { length held.old ≡ most_line }
    ensures value { result ≡ reading_after r }
    ensures held_after { held.new ≡ held_after r byte held.old }
{
    if r.used >= MOST_LINE {
        return Reading {
            refusal: u8::from(Refusal::Line),
            ..r
        };
    }
    held[r.used] = byte;
    Reading {
        used: r.used + 1,
        ..r
    }
}

// One byte of the text.
#[tactic(auto, unfolding(crate::specs::Feeding::fed_byte))]
fn feed_byte(buffer: &mut [u8], held: &mut [u8], r: Reading, byte: u8) -> Reading
    requires { GoodReading buffer.old held.old r }
    ensures { ReadPost (fed_byte (state_of buffer.old held.old r) byte) result buffer.new held.new }
{
    if r.refusal != 0 {
        return r;
    }
    if byte == NEWLINE {
        return end_line(buffer, held, r);
    }
    if r.comment | (byte == b'#') {
        return Reading { comment: true, ..r };
    }
    hold(held, r, byte)
}

// A piece of the text.
pub fn feed(buffer: &mut [u8], held: &mut [u8], from: Reading, piece: &[u8]) -> Reading
    requires { GoodReading buffer.old held.old from }
    ensures { ReadPost (fed (state_of buffer.old held.old from) piece.now) result buffer.new held.new }
{
    let mut r = from;
    for &byte in piece {
        r = feed_byte(buffer, held, r, byte);
    }
    r
}

// "refused N at line L"
fn put_refused(out: &mut [u8], refusal: u8, line: u64) -> usize
    requires { length out.old ≡ most_bytes }
    ensures puts { Puts (refused_text refusal line) out.old result out.new }
    ensures upper_bound { result ≤ most_bytes }
{
    let used = ascii::put_named(out, b"refused ", u64::from(refusal), ascii::SPACE);
    used + ascii::put_named(&mut out[used..], b"at line ", line, NEWLINE)
}

// The text has ended: its answer stands at the front of the buffer.
pub fn finish(buffer: &mut [u8], held: &[u8], r: Reading) -> Answer
    requires { GoodReading buffer.old held.now r }
    ensures { FinishPost (state_of buffer.old held.now r) result buffer.new }
{
    let last = end_line(buffer, held, r);
    let n = if last.refusal != 0 {
        put_refused(buffer, last.refusal, last.line)
    } else {
        bench_writer::finish(buffer, last.draft)
    };
    Answer {
        n,
        refusal: last.refusal,
    }
}
