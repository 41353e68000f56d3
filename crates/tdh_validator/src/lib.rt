// The records of a TDH, of each of its three kinds. 01, "Records": TDH, interval; the Rust's status_word/tdh.rs.
#![tactic(auto)]

ghost use Rattle.std.specs.Prelude.{◌≡◌, if◌then◌else◌, nat_lt};
ghost use Rattle.records.specs.Records.{padded};
ghost use Rattle.packet.specs.Settings.{counts_orbits};
ghost use Rattle.tdh_validator.specs.Tdh.{detail, orbit_difference, ran_back, long_period, interval_row, interval, tdh_rows, after_packet_done_rows};
ghost use Rattle.tdh_validator.specs.Tdh.{continuation_rows};

use packet::{Packet, Rule, Settings};
use records::{MOST_RECORDS, Row, none, pick, when};
use stored::{InternalTdh, StoredTdh};
use words::tdh::Tdh;
use words::{Word, status_word};

// Crossings of an orbit.
const CROSSINGS: u32 = 3564;

// An orbit difference from here on means that time ran back: 2^31.
const HALF_TURN: u32 = 0x8000_0000;

// 40's detail: 1 for the id alone; else 2 for reserved bits, plus 4 for a type and an internal trigger that are both 0.
pub fn sanity_check(word: Word) -> u64
    ensures { result ≡ detail word }
{
    let tdh = Tdh { word };
    let untriggered = (tdh.trigger_type() == 0) & (tdh.internal_trigger() == 0);
    status_word::sanity_check(tdh, untriggered)
}

// How many orbits on, over the turn from 4,294,967,295 to 0.
fn orbit_difference(previous: u32, current: u32) -> u32
    ensures { result ≡ orbit_difference previous current }
{
    std::num::wrapping_sub_u32(current, previous)
}

// The orbits that count. By rule 1 these are seen in the crossings alone: one, where the end of an orbit lies between them. So one formula serves both rules.
fn orbits_counted(rule: Rule, difference: u32, previous: u16, current: u16) -> u32
    ensures { result ≡ (if counts_orbits rule then difference else (if nat_lt current previous then 1 else 0)) }
{
    if rule.counts_orbits() {
        return difference;
    }
    if current < previous { 1 } else { 0 }
}

fn ran_back(orbits: u32, previous: u16, current: u16) -> bool
    ensures { result ≡ ran_back orbits previous current }
{
    (orbits >= HALF_TURN) | ((orbits == 0) & (current < previous))
}

// Orbits and crossings; 0 where that would be less.
fn long_period(orbits: u32, previous: u16, current: u16) -> u64
    ensures { result ≡ long_period orbits previous current }
{
    let upto = orbits as u64 * CROSSINGS as u64 + current as u64;
    let from = previous as u64;
    if upto < from {
        return 0;
    }
    upto - from
}

// The row of two internal TDHs: 1045 where a crossing is past the last legal one; by rule 2, 1046 where time ran back; else 45 where the found period is not
// the set one.
fn check_period(
    looked: bool,
    rule: Rule,
    difference: u32,
    previous: u16,
    current: u16,
    set: u32,
) -> Row
    ensures { result ≡ interval_row looked rule difference previous current set }
{
    let orbits = orbits_counted(rule, difference, previous, current);
    let past = (previous > Tdh::MAX_BC) | (current > Tdh::MAX_BC);
    let back = ran_back(orbits, previous, current);
    let found = long_period(orbits, previous, current);
    let none = past | back;
    when(
        looked & (none | (found != set as u64)),
        pick(past, 1045, pick(back, 1046, 45)),
        pick(none, previous as u64, found),
        pick(none, current as u64, set as u64),
    )
}

// The interval between this TDH and the last internal one before it.
pub fn check_trigger_interval(settings: Settings, earlier: InternalTdh, word: Word) -> Row
    ensures { result ≡ interval settings earlier word }
{
    let tdh = Tdh { word };
    let internal = tdh.internal_trigger();
    let looked = settings.running
        & (settings.period.is_some() & ((internal == 1) & earlier.present));
    let rule = settings.rule;
    let difference = orbit_difference(earlier.orbit, tdh.trigger_orbit());
    let bc = tdh.trigger_bc();
    let set = settings.period.unwrap_or(0);
    check_period(looked, rule, difference, earlier.bc, bc, set)
}

// Kind TDH: straight after an IHW. It is asked twice, once whether there is any row: inlined there, none of its rows is made.
#[inline]
pub fn check_tdh_no_continuation(
    settings: Settings,
    packet: Packet,
    earlier: InternalTdh,
    word: Word,
) -> [Row; MOST_RECORDS]
    ensures { result ≡ padded (tdh_rows settings packet earlier word) }
{
    let tdh = Tdh { word };
    let fault = sanity_check(word);
    let bc = tdh.trigger_bc();
    let orbit = tdh.trigger_orbit();
    let kind = tdh.trigger_type();
    let internal = tdh.internal_trigger();
    let continuation = tdh.continuation();
    let matched = (packet.page == 0) & ((internal == 1) | (packet.trigger / 16 % 2 == 1));
    let packet_kind = packet.trigger % 4096;
    let interval = check_trigger_interval(settings, earlier, word);
    let mut rows = [none(); MOST_RECORDS];
    rows[0] = when(fault != 0, 40, fault, 0);
    rows[1] = when(settings.running & (continuation != 0), 42, 1, 0);
    rows[2] = when(
        settings.running & (orbit != packet.orbit),
        444,
        orbit as u64,
        packet.orbit as u64,
    );
    rows[3] = when(
        settings.running & (matched & (bc != packet.bc)),
        445,
        bc as u64,
        packet.bc as u64,
    );
    rows[4] = when(
        settings.running & (matched & ((kind as u32) != packet_kind)),
        44,
        kind as u64,
        packet_kind as u64,
    );
    rows[5] = interval;
    rows
}

// Kind TDH after packet done.
pub fn check_after_tdt_packet_done_true(
    settings: Settings,
    previous: StoredTdh,
    earlier: InternalTdh,
    word: Word,
) -> [Row; MOST_RECORDS]
    ensures { result ≡ padded (after_packet_done_rows settings previous earlier word) }
{
    let tdh = Tdh { word };
    let fault = sanity_check(word);
    let bc = tdh.trigger_bc();
    let interval = check_trigger_interval(settings, earlier, word);
    let mut rows = [none(); MOST_RECORDS];
    rows[0] = when(fault != 0, 40, fault, 0);
    rows[1] = when(
        settings.running & (previous.bc > bc),
        440,
        previous.bc as u64,
        bc as u64,
    );
    rows[2] = interval;
    rows
}

// Kind TDH continuation.
pub fn check_continuation(
    settings: Settings,
    previous: StoredTdh,
    word: Word,
) -> [Row; MOST_RECORDS]
    ensures { result ≡ padded (continuation_rows settings previous word) }
{
    let tdh = Tdh { word };
    let fault = sanity_check(word);
    let bc = tdh.trigger_bc();
    let orbit = tdh.trigger_orbit();
    let kind = tdh.trigger_type();
    let continuation = tdh.continuation();
    let mut rows = [none(); MOST_RECORDS];
    rows[0] = when(fault != 0, 40, fault, 0);
    rows[1] = when(settings.running & (continuation != 1), 41, 0, 0);
    rows[2] = when(
        settings.running & (bc != previous.bc),
        441,
        bc as u64,
        previous.bc as u64,
    );
    rows[3] = when(
        settings.running & (orbit != previous.orbit),
        442,
        orbit as u64,
        previous.orbit as u64,
    );
    rows[4] = when(
        settings.running & (kind != previous.trigger),
        443,
        kind as u64,
        previous.trigger as u64,
    );
    rows
}
