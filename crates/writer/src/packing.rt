// The word of each kind from its fields, or none where one of them is too wide. The layouts are those of 01, "Words".
ghost use Rattle.std.specs.Prelude.{◌≡◌, ◌+◌, ◌*◌, ◌/◌, ◌%◌, ◌<◌};
ghost use Rattle.data_ids.specs.DataIds.{is_data_id};
ghost use Rattle.writer.specs.Write.{fitted};
ghost use Rattle.writer.specs.declared.Fields.TheVariants as F;

use words::Word;

pub(crate) fn ihw(active_lanes: u64) -> Option<Word>
    ensures { result ≡ fitted (F.Ihw active_lanes) }
{
    if active_lanes < 0x1000_0000 {
        Some(Word {
            lo: active_lanes,
            hi: 0xE000,
        })
    } else {
        None
    }
}

// Bits 63:0 of a TDH.
fn tdh_low(
    trigger_type: u64,
    internal: u64,
    no_data: u64,
    continuation: u64,
    bc: u64,
    orbit: u64,
) -> u64
    requires { (trigger_type < 0x1000) × ((internal < 2) × ((no_data < 2) × ((continuation < 2) × ((bc < 0x1000) × (orbit < 0x1_0000_0000))))) }
    ensures { result ≡ trigger_type + 0x1000 * internal + 0x2000 * no_data + 0x4000 * continuation + 0x1_0000 * bc + 0x1_0000_0000 * orbit }
{
    trigger_type
        + 0x1000 * internal
        + 0x2000 * no_data
        + 0x4000 * continuation
        + 0x1_0000 * bc
        + 0x1_0000_0000 * orbit
}

pub(crate) fn tdh(
    trigger_type: u64,
    internal: u64,
    no_data: u64,
    continuation: u64,
    bc: u64,
    orbit: u64,
) -> Option<Word>
    ensures { result ≡ fitted (F.Tdh trigger_type internal no_data continuation bc orbit) }
{
    if trigger_type < 0x1000
        && internal < 2
        && no_data < 2
        && continuation < 2
        && bc < 0x1000
        && orbit < 0x1_0000_0000
    {
        Some(Word {
            lo: tdh_low(trigger_type, internal, no_data, continuation, bc, orbit),
            hi: 0xE800,
        })
    } else {
        None
    }
}

// Bits 63:0 and bits 79:64 of a TDT.
fn tdt_low(lanes: u64, idle: u64, start_stop: u64, to_start: u64) -> u64
    requires { (lanes < 0x100_0000_0000_0000) × ((idle < 2) × ((start_stop < 2) × (to_start < 2))) }
    ensures { result ≡ lanes + 0x2000_0000_0000_0000 * idle + 0x4000_0000_0000_0000 * start_stop + 0x8000_0000_0000_0000 * to_start }
{
    lanes
        + 0x2000_0000_0000_0000 * idle
        + 0x4000_0000_0000_0000 * start_stop
        + 0x8000_0000_0000_0000 * to_start
}

fn tdt_high(done: u64, transmission: u64, violation: u64) -> u16
    requires { (done < 2) × ((transmission < 2) × (violation < 2)) }
    ensures { result ≡ done + 2 * transmission + 8 * violation + 0xF000 }
{
    (done + 2 * transmission + 8 * violation + 0xF000) as u16
}

pub(crate) fn tdt(
    lanes: u64,
    to_start: u64,
    start_stop: u64,
    idle: u64,
    violation: u64,
    transmission: u64,
    done: u64,
) -> Option<Word>
    ensures { result ≡ fitted (F.Tdt lanes to_start start_stop idle violation transmission done) }
{
    if lanes < 0x100_0000_0000_0000
        && idle < 2
        && start_stop < 2
        && to_start < 2
        && done < 2
        && transmission < 2
        && violation < 2
    {
        Some(Word {
            lo: tdt_low(lanes, idle, start_stop, to_start),
            hi: tdt_high(done, transmission, violation),
        })
    } else {
        None
    }
}

// Bits 79:64 of a DDW0.
fn ddw0_high(transmission: u64, violation: u64, index: u64) -> u16
    requires { (transmission < 2) × ((violation < 2) × (index < 0x10)) }
    ensures { result ≡ 2 * transmission + 8 * violation + 0x10 * index + 0xE400 }
{
    (2 * transmission + 8 * violation + 0x10 * index + 0xE400) as u16
}

pub(crate) fn ddw0(lanes: u64, violation: u64, transmission: u64, index: u64) -> Option<Word>
    ensures { result ≡ fitted (F.Ddw0 lanes violation transmission index) }
{
    if lanes < 0x100_0000_0000_0000 && transmission < 2 && violation < 2 && index < 0x10 {
        Some(Word {
            lo: lanes,
            hi: ddw0_high(transmission, violation, index),
        })
    } else {
        None
    }
}

// Bits 63:0 and bits 79:64 of a CDW: its index, bits 71:48, lies in both.
fn cdw_low(user: u64, index: u64) -> u64
    requires { user < 0x1_0000_0000_0000 }
    ensures { result ≡ user + 0x1_0000_0000_0000 * (index % 0x1_0000) }
{
    user + 0x1_0000_0000_0000 * (index % 0x1_0000)
}

fn cdw_high(index: u64) -> u16
    requires { index < 0x100_0000 }
    ensures { result ≡ index / 0x1_0000 + 0xF800 }
{
    (index / 0x1_0000 + 0xF800) as u16
}

pub(crate) fn cdw(user: u64, index: u64) -> Option<Word>
    ensures { result ≡ fitted (F.Cdw user index) }
{
    if user < 0x1_0000_0000_0000 && index < 0x100_0000 {
        Some(Word {
            lo: cdw_low(user, index),
            hi: cdw_high(index),
        })
    } else {
        None
    }
}

// Whether a number is one of the data ids, which are bytes.
fn is_data_id(id: u64) -> bool
    ensures { result ≡ is_data_id id }
{
    u8::try_from(id).is_ok_and(|id| data_ids::is_data_word_id(id))
}

// Bits 79:64 of a data word.
fn data_high(id: u64, high: u64) -> u16
    requires { (id < 0x100) × (high < 0x100) }
    ensures { result ≡ high + 0x100 * id }
{
    (high + 0x100 * id) as u16
}

pub(crate) fn data(id: u64, low: u64, high: u64) -> Option<Word>
    ensures { result ≡ fitted (F.Data id low high) }
{
    if high < 0x100 && is_data_id(id) {
        Some(Word {
            lo: low,
            hi: data_high(id, high),
        })
    } else {
        None
    }
}
