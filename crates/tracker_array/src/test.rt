// Whether 48 numbers are a tracker, part by part, on the numbers themselves. Tests end at the first part that fails, which is faster than all of them.
ghost use Rattle.std.specs.Prelude.{◌≡◌, true, ◌&&◌, ◌||◌, ◌+◌, ◌-◌, ◌≤◌, leb, ltb, eqb, length};
ghost use Rattle.packet.specs.Packet.{in_range, max_words};
ghost use Rattle.tracker_array.specs.Array.{size, is_on};
ghost use Rattle.tracker_array.specs.Place as P;
ghost use Rattle.tracker_array.specs.Read.{place, settings_in, packet_in, ihw_in, tdh_in, internal_in, cdw_in, stored_in, frame_in, tracker_in};
ghost use Rattle.tracker_array.specs.Read.{flags_fit, zeros_from, in_form, settings_good, ihw_good, tdh_good, internal_good, cdw_good, frame_good};
ghost use Rattle.tracker_array.specs.Read.{packets_good, stored_good, nothing_missing, is_good};
ghost use Rattle.tracker_array.specs.Good.{InForm};

use crate::{MARK, SIZE, place, rules};
use packet::PacketFields;

// The largest position of a word: 2^62 + 64 + 16 * 4095.
const MOST_POSITION: u64 = 0x4000_0000_0001_0030;

fn flags_fit(a: &[u64]) -> bool
    requires { length a.now ≡ size }
    ensures { result ≡ flags_fit a.now }
{
    (a[place::RUNNING] <= 1)
        & ((a[place::FRAMES] <= 1)
            & ((a[place::PERIODIC] <= 1)
                & ((a[place::ACCEPTED] <= 1)
                    & ((a[place::SEEN] <= 1)
                        & ((a[place::IHW] <= 1)
                            & ((a[place::TDH] <= 1)
                                & ((a[place::INTERNAL] <= 1)
                                    & ((a[place::CDW] <= 1) & (a[place::OPENED] <= 1)))))))))
}

// Whether the numbers from a place on are 0, up to another. It asks all of them, which is faster than ending at the first that is not.
fn zeros(a: &[u64], from: usize, to: usize) -> bool
    requires { (from ≤ to) × (to ≤ length a.now) }
    ensures { result ≡ zeros_from (to - from) from a.now }
{
    let mut all = true;
    let mut i = from;
    while i < to {
        all = all & (a[i] == 0);
        i = i + 1;
    }
    all
}

// The mark, flags, a rule, and nothing where nothing stands.
pub(crate) fn in_form(a: &[u64]) -> bool
    requires { length a.now ≡ size }
    ensures { result ≡ in_form a.now }
{
    (a[place::MARK] == MARK)
        & (flags_fit(a) & (rules::is_rule(a[place::RULE]) & zeros(a, place::UNUSED, SIZE)))
}

// Whether a number fits where its flag is on, and is 0 where it is off, by one comparison.
fn fits(flag: u64, most: u64, n: u64) -> bool
    requires { flag ≤ 1 }
    ensures { result ≡ (ltb n (most + 1) && (is_on flag || eqb n 0)) }
{
    n <= most * flag
}

fn settings(a: &[u64]) -> bool
    requires { InForm a.now }
    ensures { result ≡ settings_good a.now }
{
    fits(a[place::PERIODIC], 0xFFFF_FFFF, a[place::PERIOD])
}

fn packet(a: &[u64]) -> bool
    requires { InForm a.now }
    ensures { result ≡ in_range (packet_in a.now) }
{
    let fields = PacketFields {
        position: a[place::POSITION],
        orbit: a[place::ORBIT],
        trigger: a[place::TRIGGER],
        bc: a[place::BC],
        page: a[place::PAGE],
        stop: a[place::STOP],
        format: a[place::FORMAT],
    };
    fields.is_in_range()
}

fn ihw(a: &[u64]) -> bool
    requires { InForm a.now }
    ensures { result ≡ ihw_good (ihw_in a.now) }
{
    fits(a[place::IHW], 0xFFF_FFFF, a[place::LANES])
}

fn tdh(a: &[u64]) -> bool
    requires { InForm a.now }
    ensures { result ≡ tdh_good (tdh_in a.now) }
{
    let present = a[place::TDH];
    fits(present, 0xFFF, a[place::TDH_TRIGGER])
        & (fits(present, 0xFFF, a[place::TDH_BC]) & fits(present, 0xFFFF_FFFF, a[place::TDH_ORBIT]))
}

fn internal(a: &[u64]) -> bool
    requires { InForm a.now }
    ensures { result ≡ internal_good (internal_in a.now) }
{
    let present = a[place::INTERNAL];
    fits(present, 0xFFF, a[place::INTERNAL_BC])
        & fits(present, 0xFFFF_FFFF, a[place::INTERNAL_ORBIT])
}

fn cdw(a: &[u64]) -> bool
    requires { InForm a.now }
    ensures { result ≡ cdw_good (cdw_in a.now) }
{
    fits(a[place::CDW], 0xFFFF_FFFF_FFFF, a[place::CDW_USER])
}

fn frame(a: &[u64]) -> bool
    requires { InForm a.now }
    ensures { result ≡ frame_good (settings_in a.now).frames (frame_in a.now) }
{
    let opened = a[place::OPENED];
    fits(opened, MOST_POSITION, a[place::START]) & (opened <= a[place::FRAMES])
}

// How many packets were accepted, where one was.
fn packets(a: &[u64]) -> bool
    requires { InForm a.now }
    ensures { result ≡ packets_good true (place a.now P.packets) }
{
    let packets = a[place::PACKETS];
    (0 < packets) & (packets <= (packet::MOST_PACKETS as u64))
}

// What came in: settings, packets, the packet and count.
fn came_good(a: &[u64]) -> bool
    requires { InForm a.now }
    ensures { result ≡ (settings_good a.now && (packets_good true (place a.now P.packets)
        && (in_range (packet_in a.now) && leb (place a.now P.count) max_words))) }
{
    if !settings(a) {
        return false;
    }
    if !packets(a) {
        return false;
    }
    if !packet(a) {
        return false;
    }
    a[place::COUNT] <= (packet::MAX_WORDS as u64)
}

// What is stored.
fn stored_good(a: &[u64]) -> bool
    requires { InForm a.now }
    ensures { result ≡ stored_good (settings_in a.now).frames (stored_in a.now) (frame_in a.now) }
{
    if !ihw(a) {
        return false;
    }
    if !tdh(a) {
        return false;
    }
    if !internal(a) {
        return false;
    }
    if !cdw(a) {
        return false;
    }
    frame(a)
}

// The state is one of the seven: 0 where no IHW is stored, and 0 or 1 where no TDH is.
fn nothing_missing(a: &[u64]) -> bool
    requires { InForm a.now }
    ensures { result ≡ (leb (place a.now P.state) 6 && nothing_missing (tracker_in a.now).at.fsm.state (stored_in a.now)) }
{
    let state = a[place::STATE];
    fits(a[place::IHW], 6, state) & (state <= 1 + 5 * a[place::TDH])
}

// As the start gave it: nothing but the settings.
fn bare(a: &[u64]) -> bool
    requires { InForm a.now }
    ensures { result ≡ (settings_good a.now && zeros_from (P.unused - P.packets) P.packets a.now) }
{
    settings(a) & zeros(a, place::PACKETS, place::UNUSED)
}

// One of the seven states, and the invariant: with a packet, or as the start gave it.
pub(crate) fn is_good(a: &[u64]) -> bool
    requires { InForm a.now }
    ensures { result ≡ (settings_good a.now && (leb (place a.now P.state) 6 && is_good (tracker_in a.now))) }
{
    if a[place::ACCEPTED] != 1 {
        return bare(a);
    }
    if !came_good(a) {
        return false;
    }
    if !stored_good(a) {
        return false;
    }
    nothing_missing(a)
}
