// A tracker written as numbers, each part to its own places.
ghost use Rattle.std.specs.Prelude.{◌≡◌, ◌+◌, ◌-◌, ◌≤◌, [], ◌∷◌, length, replicate};
ghost use Rattle.std.proofs.lemmas.List.Edits.{sets};
ghost use Rattle.tracker_array.specs.Array.{size, mark, flag, settings_numbers, packet_numbers, tdh_numbers, internal_numbers, at_numbers};
ghost use Rattle.tracker_array.specs.Array.{first_numbers, stored_numbers};
ghost use Rattle.tracker_array.specs.Place as P;

use crate::{MARK, SIZE, place};
use cdp_running::At;
use packet::{Packet, Settings};
use stored::{Frame, InternalTdh, Stored, StoredTdh};

fn settings(s: Settings, a: &mut [u64])
    requires { length a.old ≡ size }
    ensures { a.new ≡ sets a.old P.settings (settings_numbers s) }
{
    a[place::RUNNING] = u64::from(s.running);
    a[place::FRAMES] = u64::from(s.frames);
    a[place::PERIODIC] = u64::from(s.period.is_some());
    a[place::PERIOD] = s.period.unwrap_or(0) as u64;
    a[place::RULE] = u64::from(s.rule);
}

fn packet(p: Packet, a: &mut [u64])
    requires { length a.old ≡ size }
    ensures { a.new ≡ sets a.old P.packet (packet_numbers p) }
{
    a[place::POSITION] = p.position;
    a[place::ORBIT] = p.orbit as u64;
    a[place::TRIGGER] = p.trigger as u64;
    a[place::BC] = p.bc as u64;
    a[place::PAGE] = p.page as u64;
    a[place::STOP] = p.stop as u64;
    a[place::FORMAT] = p.format as u64;
}

// Whether something is there, and its number beside it.
fn flag_and_number(there: bool, n: u64, at: usize, a: &mut [u64])
    requires a_len { length a.old ≡ size }
    requires at_bound { at + 2 ≤ size }
    ensures { a.new ≡ sets a.old at (flag there ∷ n ∷ []) }
{
    a[at] = u64::from(there);
    a[at + 1] = n;
}

fn tdh(h: StoredTdh, a: &mut [u64])
    requires { length a.old ≡ size }
    ensures { a.new ≡ sets a.old P.tdh (tdh_numbers h) }
{
    a[place::TDH] = u64::from(h.present);
    a[place::TDH_TRIGGER] = h.trigger as u64;
    a[place::TDH_BC] = h.bc as u64;
    a[place::TDH_ORBIT] = h.orbit as u64;
}

fn internal(h: InternalTdh, a: &mut [u64])
    requires { length a.old ≡ size }
    ensures { a.new ≡ sets a.old P.internal (internal_numbers h) }
{
    a[place::INTERNAL] = u64::from(h.present);
    a[place::INTERNAL_BC] = h.bc as u64;
    a[place::INTERNAL_ORBIT] = h.orbit as u64;
}

fn mark(a: &mut [u64])
    requires { length a.old ≡ size }
    ensures { a.new ≡ sets a.old P.mark (mark ∷ []) }
{
    a[place::MARK] = MARK;
}

fn reached(at: At, a: &mut [u64])
    requires { length a.old ≡ size }
    ensures { a.new ≡ sets a.old P.reached (at_numbers at) }
{
    a[place::STATE] = u64::from(at.fsm.state);
    a[place::COUNT] = at.count as u64;
    a[place::SEEN] = u64::from(at.seen);
}

// 0 at the places that are not used.
pub(crate) fn unused(a: &mut [u64])
    requires { length a.old ≡ size }
    ensures { a.new ≡ sets a.old P.unused (replicate (size - P.unused) 0) }
{
    let mut i = place::UNUSED;
    while i < SIZE {
        a[i] = 0;
        i = i + 1;
    }
}

pub(crate) fn up_to_seen(s: Settings, b: bool, n: u32, p: Packet, at: At, a: &mut [u64])
    requires { length a.old ≡ size }
    ensures { a.new ≡ sets a.old P.mark (first_numbers s b n p at) }
{
    mark(a);
    settings(s, a);
    flag_and_number(b, n as u64, place::ACCEPTED, a);
    packet(p, a);
    reached(at, a);
}

pub(crate) fn stored(s: Stored, frame: Frame, a: &mut [u64])
    requires { length a.old ≡ size }
    ensures { a.new ≡ sets a.old P.stored (stored_numbers s frame) }
{
    flag_and_number(s.ihw.present, s.ihw.lanes as u64, place::IHW, a);
    tdh(s.tdh, a);
    internal(s.internal, a);
    flag_and_number(s.cdw.present, s.cdw.user, place::CDW, a);
    flag_and_number(frame.opened, frame.start, place::OPENED, a);
}
