// The C boundary as C links it: the exported functions of include/khandzorul.h. Each is the function of the same name in the crate khandzorul, with the same
// clauses. The archive is out/libkhandzorul_c.a; as libkhandzorul.a it is handed out.
#![tactic(auto)]

ghost use Rattle.std.specs.Prelude.{◌≡◌};
ghost use Rattle.bench_file.specs.File.{check_of};
ghost use Rattle.khandzorul.specs.Calls.{StartOn, PacketOn, ResetOn, WordOn, PayloadOn};

mod status;
mod write;

use khandzorul::{PayloadNumbers, WordNumbers};

// Makes a tracker, whatever stood in the array.
#[unsafe(no_mangle)]
pub extern "C" fn khz_start(
    tracker: &mut [u64],
    running: u64,
    frames: u64,
    periodic: u64,
    period: u64,
    rule: u64,
) -> u64
    ensures { StartOn tracker.old
        (record { running = running; frames = frames; periodic = periodic; period = period; rule = rule }) result tracker.new }
{
    khandzorul::khz_start(tracker, running, frames, periodic, period, rule)
}

// Begins a packet. Its ranges are asked of the numbers as they come in.
#[unsafe(no_mangle)]
pub extern "C" fn khz_packet(
    tracker: &mut [u64],
    position: u64,
    orbit: u64,
    trigger: u64,
    bc: u64,
    page: u64,
    stop: u64,
    format: u64,
) -> u64
    ensures { PacketOn tracker.old
        (record { position = position; orbit = orbit; trigger = trigger; bc = bc; page = page; stop = stop; format = format }) result tracker.new }
{
    khandzorul::khz_packet(tracker, position, orbit, trigger, bc, page, stop, format)
}

// One word.
#[unsafe(no_mangle)]
pub extern "C" fn khz_word(tracker: &mut [u64], word: &[u8], records: &mut [u64]) -> WordNumbers
    ensures { WordOn tracker.old word.now records.old result tracker.new records.new }
{
    khandzorul::khz_word(tracker, word, records)
}

// The words of a payload, up to a refusal.
#[unsafe(no_mangle)]
pub extern "C" fn khz_payload(
    tracker: &mut [u64],
    payload: &[u8],
    records: &mut [u64],
) -> PayloadNumbers
    ensures { PayloadOn tracker.old payload.now records.old result tracker.new records.new }
{
    khandzorul::khz_payload(tracker, payload, records)
}

// Back to the start state.
#[unsafe(no_mangle)]
pub extern "C" fn khz_reset(tracker: &mut [u64]) -> u64
    ensures { ResetOn tracker.old result tracker.new }
{
    khandzorul::khz_reset(tracker)
}

// Whether this is a bench file.
#[unsafe(no_mangle)]
pub extern "C" fn khz_check_file(file: &[u8]) -> u64
    ensures { result ≡ check_of file.now }
{
    khandzorul::khz_check_file(file)
}
