// The C boundary: the functions of include/khandzorul.h, here the calls on a tracker; khandzorul_c exports them. The caller owns all memory. None of them asks
// anything of the caller: an array that is no tracker is answered by 100 and left as it was.
#![tactic(auto)]

ghost use Rattle.std.specs.Prelude.{◌≡◌, true, ◌≤◌};
ghost use Rattle.std.specs.Bool.{then_some};
ghost use Rattle.bench_file.specs.File.{check_of};
ghost use Rattle.tracker_array.specs.Array.{is_on};
ghost use Rattle.khandzorul.specs.Calls.{max_period, are_settings, StartOn, PacketOn, ResetOn, WordOn, PayloadOn};

mod answer;
pub mod status;
pub mod write;

use cdp_running::Tracker;
use packet::{PacketFields, Settings};
use tracker_array::rules;

// What was handed in is no tracker.
pub const NO_TRACKER: u64 = 100;

// A setting is out of its range.
pub const NO_SETTINGS: u64 = 101;

// The largest period.
const MAX_PERIOD: u64 = 4_294_967_295;

// khz_word_answer
#[repr(C)]
#[derive(Clone, Copy)]
pub struct WordNumbers {
    pub refusal: u64,
    pub kind: u64,
    pub guessed: u64,
    pub records: u64,
    pub frame: u64,
    pub start: u64,
    pub end: u64,
    pub lanes: u64,
}

// khz_payload_answer
#[repr(C)]
#[derive(Clone, Copy)]
pub struct PayloadNumbers {
    pub refusal: u64,
    pub words: u64,
    pub records: u64,
}

// Whether numbers are settings: flags that are 0 or 1, a period that fits where there is one, and a rule.
fn are_settings(running: u64, frames: u64, periodic: u64, period: u64, rule: u64) -> bool
    ensures { result ≡ are_settings (record { running = running; frames = frames; periodic = periodic; period = period; rule = rule }) }
{
    (running <= 1)
        & ((frames <= 1)
            & ((periodic <= 1)
                & ((!(periodic == 1) | (period <= MAX_PERIOD)) & rules::is_rule(rule))))
}

// The period, where there is one.
fn period_of(periodic: u64, period: u64) -> Option<u32>
    requires { is_on periodic ≡ true → period ≤ max_period }
    ensures { result ≡ then_some (is_on periodic) period }
{
    if periodic == 1 {
        Some(period as u32)
    } else {
        None
    }
}

// Makes a tracker, whatever stood in the array.
pub fn khz_start(
    tracker: &mut [u64],
    running: u64,
    frames: u64,
    periodic: u64,
    period: u64,
    rule: u64,
) -> u64
    ensures { StartOn tracker.old
        (record { running = running; frames = frames; periodic = periodic; period = period; rule = rule }) result tracker.new }
{
    if tracker.len() != tracker_array::SIZE {
        return NO_TRACKER;
    }
    if !are_settings(running, frames, periodic, period, rule) {
        return NO_SETTINGS;
    }
    let settings = Settings {
        running: running == 1,
        frames: frames == 1,
        period: period_of(periodic, period),
        rule: rules::rule_of(rule),
    };
    tracker_array::encode(Tracker::start(settings), tracker);
    0
}

// Begins a packet. Its ranges are asked of the numbers as they come in.
pub fn khz_packet(
    tracker: &mut [u64],
    position: u64,
    orbit: u64,
    trigger: u64,
    bc: u64,
    page: u64,
    stop: u64,
    format: u64,
) -> u64
    ensures { PacketOn tracker.old
        (record { position = position; orbit = orbit; trigger = trigger; bc = bc; page = page; stop = stop; format = format }) result tracker.new }
{
    if !tracker_array::is_tracker(tracker) {
        return NO_TRACKER;
    }
    let fields = PacketFields {
        position,
        orbit,
        trigger,
        bc,
        page,
        stop,
        format,
    };
    answer::code(in_place::packet(tracker, fields))
}

// One word.
pub fn khz_word(tracker: &mut [u64], word: &[u8], records: &mut [u64]) -> WordNumbers
    ensures { WordOn tracker.old word.now records.old result tracker.new records.new }
{
    if !tracker_array::is_tracker(tracker) {
        return answer::refused(NO_TRACKER);
    }
    answer::told(in_place::word(tracker, word, records))
}

// The words of a payload, up to a refusal.
pub fn khz_payload(tracker: &mut [u64], payload: &[u8], records: &mut [u64]) -> PayloadNumbers
    ensures { PayloadOn tracker.old payload.now records.old result tracker.new records.new }
{
    if !tracker_array::is_tracker(tracker) {
        return PayloadNumbers {
            refusal: NO_TRACKER,
            words: 0,
            records: 0,
        };
    }
    let answer = in_place::payload(tracker, payload, records);
    PayloadNumbers {
        refusal: answer::code_if(answer.refusal),
        words: answer.words,
        records: answer.records,
    }
}

// Back to the start state.
pub fn khz_reset(tracker: &mut [u64]) -> u64
    ensures { ResetOn tracker.old result tracker.new }
{
    if !tracker_array::is_tracker(tracker) {
        return NO_TRACKER;
    }
    in_place::reset(tracker);
    0
}

// Whether this is a bench file.
pub fn khz_check_file(file: &[u8]) -> u64
    ensures { result ≡ check_of file.now }
{
    match bench_file::check(file) {
        Ok(()) => 0,
        Err(refusal) => u8::from(refusal) as u64,
    }
}
