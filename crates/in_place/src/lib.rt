// The calls on the numbers of a tracker themselves, in place. Each call is proved equal to the same definition as the call on a tracker by value, which
// cdp_running, tracker_memory and payload have; the word call and the payload call are those of any memory.
#![tactic(auto)]

ghost use Rattle.std.specs.Prelude.{◌≡◌};
ghost use Rattle.refusals.specs.Refusals.{code};
ghost use Rattle.packet.specs.Packet.{packet_from};
ghost use Rattle.cdp_running.specs.Told.{told_by};
ghost use Rattle.payload.specs.Answer.{payload_told_by};
ghost use Rattle.tracker_array.specs.Good.{GoodArray};
ghost use Rattle.in_place.specs.Calls.{PacketInPlace, ResetInPlace, WordInPlace, PayloadInPlace};
ghost use Rattle.in_place.specs.Storing.{WordStores, payload_stores};

mod stores;

use cdp_running::Taken;
use packet::{MOST_PACKETS, Packet, PacketFields};
use payload::{PayloadTold, quick};
use payload_fsm::State;
use refusals::Refusal;
use tracker_array::{SIZE, place};

// A packet, by its seven numbers. Refusals 5 and 10 leave everything.
pub fn packet(a: &mut [u64], fields: PacketFields) -> Result<(), Refusal>
    requires { GoodArray a.old }
    ensures { PacketInPlace a.old (packet_from fields) (code result) a.new }
{
    let packet = Packet::try_from(fields)?;
    if a[place::PACKETS] >= (MOST_PACKETS as u64) {
        return Err(Refusal::LastPacket);
    }
    stores::packet(a, packet);
    Ok(())
}

// Back to the start state. All else is kept.
pub fn reset(a: &mut [u64])
    requires { GoodArray a.old }
    ensures { ResetInPlace a.old a.new }
{
    a[place::STATE] = u64::from(State::Ihw);
}

// One word: its records stand at the front of out, whose rest stays. A refusal leaves both.
#[tactic(auto, using(tracker_memory::proofs::Numbers::good_holds))]
pub fn word(a: &mut [u64], bytes: &[u8], out: &mut [u64]) -> Result<Taken, Refusal>
    requires { GoodArray a.old }
    ensures word { WordInPlace a.old bytes.now out.old (told_by result) a.new out.new }
    ensures stores { WordStores a.old bytes.now result a.new }
{
    quick::word(a.as_mut_array::<SIZE>().unwrap(), bytes, out)
}

// The words of a payload, up to a refusal. Their records stand at the front of out, whose rest stays.
#[tactic(auto, using(tracker_memory::proofs::Numbers::good_holds))]
pub fn payload(a: &mut [u64], bytes: &[u8], out: &mut [u64]) -> PayloadTold
    requires { GoodArray a.old }
    ensures payload { PayloadInPlace a.old bytes.now out.old (payload_told_by result) a.new out.new }
    ensures stores { a.new ≡ payload_stores result.words bytes.now a.old }
{
    quick::payload(a.as_mut_array::<SIZE>().unwrap(), bytes, out)
}
