// A tracker as 48 numbers, for callers who own its memory: which numbers are one, and writing one. tracker_memory reads them part by part.
#![tactic(auto)]

ghost use Rattle.std.specs.Prelude.{◌≡◌};
ghost use Rattle.tracker_array.specs.Array.{written_to};
ghost use Rattle.tracker_array.specs.Read.{is_tracker};

pub mod place;
pub mod rules;
pub mod states;
mod test;
mod write;

use cdp_running::Tracker;

// Numbers in a tracker.
pub const SIZE: usize = 48;

// The first number of every tracker; its last byte is the version of the boundary.
pub const MARK: u64 = 0x4B48_5A05;

// Whether numbers are a tracker.
pub fn is_tracker(a: &[u64]) -> bool
    ensures { result ≡ is_tracker a.now }
{
    if a.len() != SIZE {
        return false;
    }
    if !test::in_form(a) {
        return false;
    }
    test::is_good(a)
}

// A tracker's numbers, whatever stood there. An array of another length stays as it was. The unused numbers are written first: after the others they would
// make one long run of zeros with those of a start, for which the compiler calls memset, and a library without the C library has none.
pub fn encode(t: Tracker, a: &mut [u64])
    ensures { a.new ≡ written_to a.old t }
{
    if a.len() != SIZE {
        return;
    }
    write::unused(a);
    write::up_to_seen(t.settings, t.accepted, t.packets, t.packet, t.at, a);
    write::stored(t.stored, t.frame, a);
}
