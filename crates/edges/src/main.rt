// The edges of document 01 that are no theorems: what benchcheck prints of the files c00, c01 .. of data/, and the calls that no file can make.
// tests/make/edges.py makes the files and, from 01 by hand, what is to be printed; it says what each case is about.
#![tactic(auto)]

ghost use Rattle.cdp_running.specs.Tracker.{Good};

use cdp_running::Tracker;
use packet::{Packet, Rule, Settings};
use records::RECORD_WIDTH;
use report::Report;
use std::fs;
use std::rt::Files;
use tracker_memory::WordCall;

// The most numbers that the records of a word have.
const MOST_NUMBERS: usize = records::MOST_RECORDS * RECORD_WIDTH;

// The numbers of two records.
const TWO_RECORDS: usize = 2 * RECORD_WIDTH;

// The names of the files.
const NAMES: [&str; 69] = [
    "c00", "c01", "c02", "c03", "c04", "c05", "c06", "c07", "c08", "c09", "c10", "c11", "c12",
    "c13", "c14", "c15", "c16", "c17", "c18", "c19", "c20", "c21", "c22", "c23", "c24", "c25",
    "c26", "c27", "c28", "c29", "c30", "c31", "c32", "c33", "c34", "c35", "c36", "c37", "c38",
    "c39", "c40", "c41", "c42", "c43", "c44", "c45", "c46", "c47", "c48", "c49", "c50", "c51",
    "c52", "c53", "c54", "c55", "c56", "c57", "c58", "c59", "c60", "c61", "c62", "c63", "c64",
    "c65", "c66", "c67", "c68",
];

fn text(rt: &impl Print, bytes: &[u8]) {
    let _ = rt.write_all(bytes);
}

fn number(rt: &impl Print, n: u64) {
    let _ = rt.print(n);
}

// The report of a file, a step at a time: a write that fails loses that step's text alone.
fn show(rt: &impl Print, file: &[u8]) {
    let mut out = [0u8; report::MOST_PRINTED];
    let mut report = Report::start(file);
    while !report.finished() {
        let filled = report.step(file, &mut out);
        text(rt, &out[..filled.n]);
        report = filled.next;
    }
}

// A file by its name.
fn show_file(rt: &(impl Print + Files), name: &str) {
    text(rt, name.as_bytes());
    text(rt, b"\n");
    let Ok(mut from) = fs::open(rt, name) else {
        text(rt, b"missing\n");
        return;
    };
    let mut file = [0u8; 60001];
    let n = input::read_all(&mut from, &mut file).unwrap_or_else(|failed| failed.read);
    show(rt, &file[..n]);
}

fn show_files(rt: &(impl Print + Files)) {
    for name in &NAMES {
        show_file(rt, name);
    }
}

// A tracker with running checks on or off, a period found by a rule, and a packet of a page at position 0 with BC 0 of format 2.
fn packet_by_rule(running: bool, period: u32, rule: Rule, page: u16) -> Tracker
    ensures { Good result }
{
    let start = Tracker::start(Settings {
        running,
        frames: true,
        period: Some(period),
        rule,
    });
    match start.packet(Packet {
        position: 0,
        orbit: 0,
        trigger: 0,
        bc: 0,
        page: page,
        stop: 0,
        format: 2,
    }) {
        Ok(taken) => taken,
        Err(_) => start,
    }
}

// The tracker after a word; at a refusal it is as it was.
fn after_word(t: Tracker, word: &[u8], out: &mut [u64]) -> Tracker
    requires { Good t }
    ensures { Good result }
{
    match t.word(word, out) {
        Ok((next, _)) => next,
        Err(_) => t,
    }
}

fn packet_taken(running: bool, period: u32, page: u16) -> Tracker
    ensures { Good result }
{
    packet_by_rule(running, period, Rule::One, page)
}

// "4,096th word accepted, 4,097th refused 3": data words in one packet, up to a refusal.
fn show_full(rt: &impl Print) {
    let mut t = packet_taken(true, 198, 0);
    let mut out = [0u64; MOST_NUMBERS];
    for n in 0..5000 {
        match t.word(b"\0\0\0\0\0\0\0\0\0\x20", &mut out) {
            Ok((next, _)) => t = next,
            Err(refusal) => {
                text(rt, b"words ");
                number(rt, n);
                text(rt, b" refused ");
                number(rt, u64::from(u8::from(refusal)));
                text(rt, b"\n");
                return;
            }
        }
    }
}

// "Counting a word refused with 4": an IHW with a reserved bit, first with no room, then with room for its record, which has five numbers.
fn show_room(rt: &impl Print) {
    let t = packet_taken(true, 198, 0);
    let mut small = [0u64; 4];
    text(rt, b"refused ");
    let after = match t.word(b"\0\0\0\x10\0\0\0\0\0\xE0", &mut small) {
        Ok((next, _)) => {
            number(rt, 0);
            next
        }
        Err(refusal) => {
            number(rt, u64::from(u8::from(refusal)));
            t
        }
    };
    let mut out = [0u64; 5];
    after_word(after, b"\0\0\0\x10\0\0\0\0\0\xE0", &mut out);
    text(rt, b" then ");
    number(rt, out[0]);
    text(rt, b" ");
    number(rt, out[1]);
    text(rt, b" ");
    number(rt, out[2]);
    text(rt, b" ");
    number(rt, out[3]);
    text(rt, b" ");
    number(rt, out[4]);
    text(rt, b"\n");
}

// The found period of a record 45, which stands alone or behind a 440; else a number that is none.
fn found(out: [u64; TWO_RECORDS]) -> u64 {
    if out[1] == 45 {
        out[2]
    } else if out[RECORD_WIDTH + 1] == 45 {
        out[RECORD_WIDTH + 2]
    } else {
        3564
    }
}

// A tracker after an IHW and a TDH with BC 0 and no data: in the three-way state.
fn tdh_taken(period: u32, page: u16) -> Tracker
    ensures { Good result }
{
    let mut out = [0u64; TWO_RECORDS];
    let t = packet_taken(true, period, page);
    let begun = after_word(t, b"\0\0\0\0\0\0\0\0\0\xE0", &mut out);
    after_word(begun, b"\0\x30\0\0\0\0\0\0\0\xE8", &mut out)
}

// "For legal BCs a set period of 3564 always differs": after an IHW and a TDH with BC 0, TDHs at the distances 0, 1 .. 3563.
fn show_period(rt: &impl Print) {
    let mut t = tdh_taken(3564, 0);
    let mut bc: u64 = 0;
    let mut differ: u64 = 0;
    let mut sum: u64 = 0;
    for k in 0..3564 {
        bc = (bc + k) % 3564;
        let mut word = [0, 0x30, 0, 0, 0, 0, 0, 0, 0, 0xE8];
        word[2] = (bc % 256) as u8;
        word[3] = (bc / 256) as u8;
        let mut out = [0u64; TWO_RECORDS];
        t = after_word(t, &word, &mut out);
        let period = found(out);
        if period < 3564 {
            differ = differ + 1;
            sum = sum + period;
        }
    }
    text(rt, b"differ ");
    number(rt, differ);
    text(rt, b" sum ");
    number(rt, sum);
    text(rt, b"\n");
}

// The code of the first record that an IHW gives, or 0.
fn code_at_ihw(t: Tracker) -> u64
    requires { Good t }
{
    let mut out = [0u64; TWO_RECORDS];
    after_word(t, b"\0\0\0\0\0\0\0\0\0\xE0", &mut out);
    out[1]
}

// "1121 in the start state for a page not 0, and 1122 in the three-way state for a page of 0": the start state is reached by a reset too.
fn show_page(rt: &impl Print, page: u16) {
    let three = tdh_taken(198, page);
    text(rt, b"page ");
    number(rt, page as u64);
    text(rt, b" start ");
    number(rt, code_at_ihw(packet_taken(true, 198, page)));
    text(rt, b" three ");
    number(rt, code_at_ihw(three));
    text(rt, b" reset ");
    number(rt, code_at_ihw(three.reset()));
    text(rt, b"\n");
}

// The code of a record, or nothing where none was written.
fn show_code(rt: &impl Print, code: u64) {
    if code != 0 {
        text(rt, b" ");
        number(rt, code);
    }
}

// The codes of a word with an id in DATA_, behind an IHW with lanes 8 and 9.
fn show_codes(rt: &impl Print, running: bool, id: u8) {
    let mut before = [0u64; MOST_NUMBERS];
    let t = packet_taken(running, 198, 0);
    let begun = after_word(t, b"\0\x03\0\0\0\0\0\0\0\xE0", &mut before);
    let ready = after_word(begun, b"\0\x10\0\0\0\0\0\0\0\xE8", &mut before);
    let mut word = [0u8; 10];
    word[9] = id;
    let mut out = [0u64; MOST_NUMBERS];
    after_word(ready, &word, &mut out);
    show_code(rt, out[1]);
    show_code(rt, out[RECORD_WIDTH + 1]);
    show_code(rt, out[2 * RECORD_WIDTH + 1]);
    show_code(rt, out[3 * RECORD_WIDTH + 1]);
    show_code(rt, out[4 * RECORD_WIDTH + 1]);
    show_code(rt, out[5 * RECORD_WIDTH + 1]);
}

// What is said of a lane is said with running checks alone: the codes of an id without them and with them.
fn show_lane(rt: &impl Print, id: u8) {
    text(rt, b"id ");
    number(rt, id as u64);
    text(rt, b" off");
    show_codes(rt, false, id);
    text(rt, b" on");
    show_codes(rt, true, id);
    text(rt, b"\n");
}

// Another packet of the same position: the tracker after it, and 0. A BC above 4095 is refused: the tracker as it was, and the refusal's number.
fn next_packet(t: Tracker, bc: u16) -> (Tracker, u64)
    requires { Good t }
    ensures { Good result.0 }
{
    match t.packet(Packet {
        position: 0,
        orbit: 0,
        trigger: 0,
        bc: bc,
        page: 0,
        stop: 0,
        format: 2,
    }) {
        Ok(next) => (next, 0),
        Err(refusal) => (t, u64::from(u8::from(refusal))),
    }
}

// The packet that the record of an IHW with a reserved bit says.
fn packet_at_ihw(t: Tracker) -> u64
    requires { Good t }
{
    let mut out = [0u64; TWO_RECORDS];
    after_word(t, b"\0\0\0\x10\0\0\0\0\0\xE0", &mut out);
    out[4]
}

// "The count of packets accepted since the start": one that is refused does not count, and a reset keeps the count.
fn show_packets(rt: &impl Print) {
    let first = packet_taken(true, 198, 0);
    let (still, refused) = next_packet(first, 4096);
    let (second, _) = next_packet(still, 0);
    let reset = second.reset();
    let (third, _) = next_packet(reset, 0);
    text(rt, b"packet ");
    number(rt, packet_at_ihw(first));
    text(rt, b" refused ");
    number(rt, refused);
    text(rt, b" still ");
    number(rt, packet_at_ihw(still));
    text(rt, b" next ");
    number(rt, packet_at_ihw(second));
    text(rt, b" reset ");
    number(rt, packet_at_ihw(reset));
    text(rt, b" next ");
    number(rt, packet_at_ihw(third));
    text(rt, b"\n");
}

// A TDH with internal trigger and no data.
fn internal_tdh(orbit: u32, bc: u32) -> [u8; 10] {
    [
        0,
        0x30,
        (bc % 256) as u8,
        (bc / 256 % 256) as u8,
        (orbit % 256) as u8,
        (orbit / 256 % 256) as u8,
        (orbit / 65536 % 256) as u8,
        (orbit / 16777216) as u8,
        0,
        0xE8,
    ]
}

// A rule by its number.
fn rule_of(n: u32) -> Rule {
    if n == 2 { Rule::Two } else { Rule::One }
}

// A record, or nothing where none was written.
fn show_record(rt: &impl Print, code: u64, first: u64, second: u64) {
    if code != 0 {
        text(rt, b" ");
        number(rt, code);
        text(rt, b" ");
        number(rt, first);
        text(rt, b" ");
        number(rt, second);
    }
}

// An orbit and a crossing of it.
fn show_place(rt: &impl Print, orbit: u32, bc: u32) {
    number(rt, orbit as u64);
    text(rt, b" ");
    number(rt, bc as u64);
}

// "Slow scans trigger every third orbit": the records of the second of two internal TDHs.
fn show_records(
    rt: &impl Print,
    rule: u32,
    set: u32,
    orbit: u32,
    bc: u32,
    next_orbit: u32,
    next_bc: u32,
) {
    let mut out = [0u64; MOST_NUMBERS];
    let t = packet_by_rule(true, set, rule_of(rule), 0);
    let begun = after_word(t, b"\0\0\0\0\0\0\0\0\0\xE0", &mut out);
    let earlier = after_word(begun, &internal_tdh(orbit, bc), &mut out);
    let mut told = [0u64; MOST_NUMBERS];
    after_word(earlier, &internal_tdh(next_orbit, next_bc), &mut told);
    show_record(rt, told[1], told[2], told[3]);
    show_record(
        rt,
        told[RECORD_WIDTH + 1],
        told[RECORD_WIDTH + 2],
        told[RECORD_WIDTH + 3],
    );
}

fn show_interval(
    rt: &impl Print,
    rule: u32,
    set: u32,
    orbit: u32,
    bc: u32,
    next_orbit: u32,
    next_bc: u32,
) {
    text(rt, b"rule ");
    number(rt, rule as u64);
    text(rt, b" set ");
    number(rt, set as u64);
    text(rt, b" from ");
    show_place(rt, orbit, bc);
    text(rt, b" to ");
    show_place(rt, next_orbit, next_bc);
    text(rt, b":");
    show_records(rt, rule, set, orbit, bc, next_orbit, next_bc);
    text(rt, b"\n");
}

// By either rule: three orbits on, one orbit on over the turn of the orbit number, and back within the orbit.
fn show_rules(rt: &impl Print) {
    show_interval(rt, 1, 0, 5, 7, 8, 7);
    show_interval(rt, 1, 10692, 5, 7, 8, 7);
    show_interval(rt, 2, 10692, 5, 7, 8, 7);
    show_interval(rt, 2, 0, 5, 7, 8, 7);
    show_interval(rt, 1, 3564, 4294967295, 0, 0, 0);
    show_interval(rt, 2, 3564, 4294967295, 0, 0, 0);
    show_interval(rt, 2, 1, 4294967295, 3563, 0, 0);
    show_interval(rt, 1, 3563, 7, 5, 7, 4);
    show_interval(rt, 2, 3563, 7, 5, 7, 4);
}

// By rule 2: the same orbit, differences about 2^31, and the largest period.
fn show_differences(rt: &impl Print) {
    show_interval(rt, 2, 0, 7, 5, 7, 5);
    show_interval(rt, 2, 3564, 7, 5, 7, 5);
    show_interval(rt, 2, 1, 7, 5, 7, 6);
    show_interval(rt, 2, 198, 0, 0, 1, 198);
    show_interval(rt, 2, 3366, 0, 198, 1, 0);
    show_interval(rt, 2, 0, 0, 0, 2147483647, 0);
    show_interval(rt, 2, 0, 0, 0, 2147483648, 0);
    show_interval(rt, 2, 0, 0, 3563, 2147483648, 0);
    show_interval(rt, 2, 4294967295, 1, 0, 0, 0);
    show_interval(rt, 2, 0, 1, 0, 0, 3563);
    show_interval(rt, 2, 4294967295, 0, 0, 1205097, 1587);
    show_interval(rt, 2, 4294967295, 0, 0, 1205097, 1588);
    show_interval(rt, 1, 4294967295, 0, 0, 1205097, 1587);
}

// By rule 2: "1045 comes before both".
fn show_illegal(rt: &impl Print) {
    show_interval(rt, 2, 198, 0, 3366, 0, 3564);
    show_interval(rt, 2, 198, 0, 3564, 1, 198);
    show_interval(rt, 2, 0, 7, 4095, 7, 4095);
    show_interval(rt, 2, 0, 7, 4095, 7, 0);
    show_interval(rt, 2, 0, 8, 0, 7, 3564);
}

fn main(rt: HostRuntime) {
    show_files(&rt);
    show_full(&rt);
    show_room(&rt);
    show_period(&rt);
    show_page(&rt, 0);
    show_page(&rt, 1);
    show_lane(&rt, 0x21);
    show_lane(&rt, 0x28);
    show_lane(&rt, 0x29);
    show_lane(&rt, 0x47);
    show_packets(&rt);
    show_rules(&rt);
    show_differences(&rt);
    show_illegal(&rt);
}
