// Replays recorded calls, and compares each answer with the one that the given Rust gave. tests/make/record.py made the files of data/ and
// says how they are written. The Rust's records have no packet: ours are held to a count that is kept here.
// Document 01, "At the edges": "The rest, and the differential runs, are done by a program."
#![tactic(auto)]

ghost use Rattle.std.specs.Prelude.{◌+◌, ◌*◌, ◌<◌, ◌≤◌, length};
ghost use Rattle.records.specs.Records.{record_width, most_records};
ghost use Rattle.cdp_running.specs.Tracker.{Good};

use cdp_running::{Taken, Tracker};
use packet::{Packet, Rule, Settings};
use std::fs;
use std::io::Read;
use std::rt::Files;
use stored::FrameTold;
use tracker_memory::WordCall;
use words::little_endian::get;

// The most calls of a file.
const MAX_CALLS: u64 = 65536;

// The most numbers that the records of a word have.
const MOST_NUMBERS: usize = records::MOST_RECORDS * records::RECORD_WIDTH;

// What comes next in a file. Whole: as many bytes as were asked for; behind them stand zeros.
#[derive(Clone, Copy)]
struct Part {
    whole: bool,
    bytes: [u8; 22],
}

// The tracker after a call of the file, and what the call was: a start, a packet, a word, one whose answer differs, the last one.
#[derive(Clone, Copy)]
struct Replayed {
    tracker: Tracker,
    start: bool,
    packet: bool,
    word: bool,
    differs: bool,
    last: bool,
}

// What was compared in a file.
#[derive(Clone, Copy)]
struct Tally {
    sequences: u32,
    words: u32,
    differ: u32,
}

fn fill<F: Read>(from: &mut F, bytes: &mut [u8], n: usize) -> usize
    requires { n ≤ length bytes.old }
{
    input::read_all(from, &mut bytes[..n]).unwrap_or_else(|failed| failed.read)
}

fn take<F: Read>(from: &mut F, n: usize) -> Part
    requires { n ≤ 22 }
{
    let mut bytes = [0u8; 22];
    let got = fill(from, &mut bytes, n);
    Part {
        whole: got == n,
        bytes: bytes,
    }
}

fn one(b: bool) -> u32
    ensures { result ≤ 1 }
{
    if b { 1 } else { 0 }
}

fn settings_of(b: &[u8; 22]) -> Settings {
    Settings {
        running: b[0] == 1,
        frames: b[1] == 1,
        period: (b[2] == 1).then_some(get::<2>(b, 3) as u32),
        rule: Rule::One,
    }
}

fn packet_of(b: &[u8; 22]) -> Packet {
    Packet {
        position: get::<8>(b, 0),
        orbit: get::<4>(b, 8) as u32,
        trigger: get::<4>(b, 12) as u32,
        bc: get::<2>(b, 16) as u16,
        page: get::<2>(b, 18) as u16,
        stop: b[20],
        format: b[21],
    }
}

// Are the numbers of a record those that the bytes have, and the last the count of packets?
fn same_numbers(b: &[u8; 22], out: &[u64; MOST_NUMBERS], at: usize, packets: u64) -> bool
    requires { at + record_width ≤ most_records * record_width }
{
    let there = (out[at] == get::<8>(b, 0)) & (out[at + 1] == get::<2>(b, 8));
    let numbers = (out[at + 2] == get::<4>(b, 10)) & (out[at + 3] == get::<4>(b, 14));
    there & (numbers & (out[at + 4] == packets))
}

// Is record i the one that the file has next, behind so many packets?
fn same_record<F: Read>(from: &mut F, out: &[u64; MOST_NUMBERS], i: usize, packets: u64) -> bool
    requires { i < most_records }
{
    let next = take(from, 18);
    let b = next.bytes;
    let same = same_numbers(&b, out, records::RECORD_WIDTH * i, packets);
    next.whole & same
}

fn same_records<F: Read>(from: &mut F, out: &[u64; MOST_NUMBERS], n: u8, packets: u64) -> bool {
    if records::MOST_RECORDS < n as usize {
        return false;
    }
    let mut same = true;
    for i in 0..n as usize {
        let this = same_record(from, out, i, packets);
        same = same & this;
    }
    same
}

// Are these the start and the end that the bytes have?
fn same_ends(b: &[u8; 22], start: u64, end: u64) -> bool {
    (start == get::<8>(b, 0)) & (end == get::<8>(b, 8))
}

// Is a frame, by its number and what the file has next, the one told?
fn same_frame<F: Read>(from: &mut F, told: FrameTold, frame: u8) -> bool {
    let mut closed = Part {
        whole: true,
        bytes: [0; 22],
    };
    if frame == 2 {
        closed = take(from, 16);
    }
    let b = closed.bytes;
    let is = match told {
        FrameTold::Nothing => frame == 0,
        FrameTold::Opened => frame == 1,
        FrameTold::Closed { start, end } => (frame == 2) & same_ends(&b, start, end),
    };
    closed.whole & is
}

// Is the answer to a word the one that the file has next: kind, guessed, frame, number of records, and what hangs on these?
fn same_answer<F: Read>(
    from: &mut F,
    taken: Taken,
    out: &[u64; MOST_NUMBERS],
    packets: u64,
) -> bool {
    let next = take(from, 4);
    let b = next.bytes;
    let frame = taken.frame;
    let as_kind = u8::from(taken.kind) == b[0];
    let as_guess = one(taken.guessed) == b[1] as u32;
    let as_count = taken.records == b[3] as u64;
    let as_frame = same_frame(from, frame, b[2]);
    let as_records = same_records(from, out, b[3], packets);
    next.whole & (as_kind & (as_guess & (as_frame & (as_count & as_records))))
}

// A word, behind so many packets since the start. None is refused: the files hold words that are taken.
fn word<F: Read>(t: Tracker, from: &mut F, packets: u64) -> Replayed
    requires { Good t }
    ensures { Good result.tracker }
{
    let mut bytes = [0u8; 10];
    let got = input::read_all(from, &mut bytes).unwrap_or_else(|failed| failed.read);
    let mut out = [0u64; MOST_NUMBERS];
    match t.word(&bytes[..got], &mut out) {
        Ok((after, taken)) => {
            let same = same_answer(from, taken, &out, packets);
            replayed_word(after, !same)
        }
        Err(_) => {
            let _ = take(from, 4);
            replayed_word(t, true)
        }
    }
}

// What came of a word.
fn replayed_word(t: Tracker, differs: bool) -> Replayed
    requires { Good t }
    ensures { Good result.tracker }
{
    Replayed {
        tracker: t,
        start: false,
        packet: false,
        word: true,
        differs: differs,
        last: false,
    }
}

fn start<F: Read>(from: &mut F) -> Replayed
    ensures { Good result.tracker }
{
    let next = take(from, 5);
    let b = next.bytes;
    let settings = settings_of(&b);
    let t = Tracker::start(settings);
    Replayed {
        tracker: t,
        start: true,
        packet: false,
        word: false,
        differs: !next.whole,
        last: false,
    }
}

fn packet<F: Read>(t: Tracker, from: &mut F) -> Replayed
    requires { Good t }
    ensures { Good result.tracker }
{
    let next = take(from, 22);
    let b = next.bytes;
    let header = packet_of(&b);
    let (after, taken) = match t.packet(header) {
        Ok(after) => (after, true),
        Err(_) => (t, false),
    };
    Replayed {
        tracker: after,
        start: false,
        packet: true,
        word: false,
        differs: !(next.whole & taken),
        last: false,
    }
}

fn reset(t: Tracker) -> Replayed
    requires { Good t }
    ensures { Good result.tracker }
{
    let after = t.reset();
    Replayed {
        tracker: after,
        start: false,
        packet: false,
        word: false,
        differs: false,
        last: false,
    }
}

// The end of the file, or a call that there is none of.
fn end(t: Tracker, broken: bool) -> Replayed
    requires { Good t }
    ensures { Good result.tracker }
{
    Replayed {
        tracker: t,
        start: false,
        packet: false,
        word: false,
        differs: broken,
        last: true,
    }
}

// The next call of the file, by its number, behind so many packets since the start.
fn step<F: Read>(t: Tracker, from: &mut F, packets: u64) -> Replayed
    requires { Good t }
    ensures { Good result.tracker }
{
    let next = take(from, 1);
    let b = next.bytes;
    if !next.whole {
        return end(t, false);
    }
    match b[0] {
        0 => start(from),
        1 => packet(t, from),
        2 => reset(t),
        3 => word(t, from, packets),
        _ => end(t, true),
    }
}

// How many packets there were since the start, behind a call. One that is refused differs, so that all of them were accepted.
fn packets_after(packets: u64, start: bool, packet: bool) -> u64
    requires { packets ≤ 65536 }
    ensures { result ≤ packets + 1 }
{
    if start {
        0
    } else if packet {
        packets + 1
    } else {
        packets
    }
}

// All calls of a file.
fn replay<F: Read>(from: &mut F) -> Tally {
    let mut t = Tracker::start(Settings {
        running: false,
        frames: false,
        period: None,
        rule: Rule::One,
    });
    let mut y = Tally {
        sequences: 0,
        words: 0,
        differ: 0,
    };
    let mut packets: u64 = 0;
    for n in 0..MAX_CALLS {
        let replayed = step(t, from, packets);
        let after = replayed.tracker;
        t = after;
        packets = packets_after(packets, replayed.start, replayed.packet);
        y.sequences = y.sequences + one(replayed.start);
        y.words = y.words + one(replayed.word);
        y.differ = y.differ + one(replayed.differs);
        if replayed.last {
            return y;
        }
    }
    y.differ = y.differ + 1;
    y
}

fn text(rt: &impl Print, bytes: &[u8]) {
    let _ = rt.write_all(bytes);
}

// What was compared, if anything was: a file without a word is no success.
fn show(rt: &impl Print, name: &str, sequences: u64, words: u64, differ: u64) {
    text(rt, name.as_bytes());
    if words == 0 {
        text(rt, b": nothing was compared\n");
        return;
    }
    text(rt, b": ");
    let _ = rt.print(sequences);
    text(rt, b" sequences, ");
    let _ = rt.print(words);
    text(rt, b" words, ");
    let _ = rt.print(differ);
    text(rt, b" differ\n");
}

// A file that can't be opened.
fn missing(rt: &impl Print, name: &str) -> Tally {
    text(rt, name.as_bytes());
    text(rt, b": missing\n");
    Tally {
        sequences: 0,
        words: 0,
        differ: 0,
    }
}

// A file by its name.
fn file(rt: &(impl Print + Files), name: &str) -> Tally {
    let Ok(mut from) = fs::open(rt, name) else {
        return missing(rt, name);
    };
    let y = replay(&mut from);
    show(
        rt,
        name,
        y.sequences as u64,
        y.words as u64,
        y.differ as u64,
    );
    y
}

fn sum(a: u32, b: u32, c: u32, d: u32, e: u32, f: u32, g: u32) -> u64 {
    a as u64 + b as u64 + c as u64 + d as u64 + e as u64 + f as u64 + g as u64
}

// A last line of its own where not every file had a word, so that the sums are not taken for all.
fn show_left_out(rt: &impl Print, files: u64) {
    if 0 < files {
        text(rt, b"files without a word to compare: ");
        let _ = rt.print(files);
        text(rt, b" of 7\n");
    }
}

fn main(rt: HostRuntime) {
    let a = file(&rt, "ids");
    let b = file(&rt, "orbits");
    let c = file(&rt, "damaged");
    let d = file(&rt, "intervals");
    let e = file(&rt, "lanes");
    let f = file(&rt, "cdws");
    let g = file(&rt, "chance");
    show(
        &rt,
        "all",
        sum(
            a.sequences,
            b.sequences,
            c.sequences,
            d.sequences,
            e.sequences,
            f.sequences,
            g.sequences,
        ),
        sum(
            a.words, b.words, c.words, d.words, e.words, f.words, g.words,
        ),
        sum(
            a.differ, b.differ, c.differ, d.differ, e.differ, f.differ, g.differ,
        ),
    );
    show_left_out(
        &rt,
        sum(
            one(a.words == 0),
            one(b.words == 0),
            one(c.words == 0),
            one(d.words == 0),
            one(e.words == 0),
            one(f.words == 0),
            one(g.words == 0),
        ),
    );
}
