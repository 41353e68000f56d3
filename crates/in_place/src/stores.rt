// What an accepted packet stores, on the numbers themselves.
ghost use Rattle.std.specs.Prelude.{◌≡◌};
ghost use Rattle.cdp_running.specs.Tracker.{accept_of};
ghost use Rattle.tracker_array.specs.Array.{encode_of};
ghost use Rattle.tracker_array.specs.Read.{tracker_in};
ghost use Rattle.tracker_array.specs.Good.{GoodArray};

use packet::Packet;
use tracker_array::place;

// The numbers after a packet that is accepted. No other call stores how many were.
pub(crate) fn packet(a: &mut [u64], packet: Packet)
    requires { GoodArray a.old }
    ensures { a.new ≡ encode_of (accept_of (tracker_in a.old) packet) }
{
    a[place::PACKETS] = a[place::PACKETS] + 1;
    a[place::ACCEPTED] = 1;
    a[place::POSITION] = packet.position;
    a[place::ORBIT] = packet.orbit as u64;
    a[place::TRIGGER] = packet.trigger as u64;
    a[place::BC] = packet.bc as u64;
    a[place::PAGE] = packet.page as u64;
    a[place::STOP] = packet.stop as u64;
    a[place::FORMAT] = packet.format as u64;
    a[place::COUNT] = 0;
    a[place::SEEN] = 0;
}
