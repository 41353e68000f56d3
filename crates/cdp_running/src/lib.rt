// The tracker and its calls: start, packet, reset. The word call stands above, in the crate tracker_memory, and that for a whole payload in payload.
// Document 01, "Calls and settings" and "Records"; the Rust's cdp_running.rs.
#![tactic(auto)]

ghost use Rattle.std.specs.Prelude.{◌≡◌};
ghost use Rattle.cdp_running.specs.Tracker.{Good, start_of, reset_of, PacketPost};
ghost use Rattle.cdp_running.specs.Told.{packet_answered};
ghost use Rattle.cdp_running.specs.Word.{position_now};

use packet::{MOST_PACKETS, Packet, Settings};
use payload_fsm::{ItsPayloadFsmContinuous, ItsPayloadWord};
use refusals::Refusal;
use stored::{Frame, FrameTold, InternalTdh, Stored, StoredCdw, StoredIhw, StoredTdh};

// Where in the words the tracker is: the state, how many of the packet's words were taken, and whether data was among them.
#[derive(Clone, Copy)]
pub struct At {
    pub fsm: ItsPayloadFsmContinuous,
    pub count: u16,
    pub seen: bool,
}

// All that is kept from one call to the next: among it how many packets were accepted since the start. What is absent is all zeros.
#[derive(Clone, Copy)]
pub struct Tracker {
    pub settings: Settings,
    pub accepted: bool,
    pub packets: u32,
    pub packet: Packet,
    pub at: At,
    pub stored: Stored,
    pub frame: Frame,
}

// What is told of a word that was taken.
#[derive(Clone, Copy)]
pub struct Taken {
    pub kind: ItsPayloadWord,
    pub guessed: bool,
    pub records: u64,
    pub frame: FrameTold,
    pub lanes: u32,
}

impl Tracker {
    // The start: nothing stored, in the start state, with no packet.
    pub fn start(settings: Settings) -> Tracker
        ensures { (result ≡ start_of settings) × Good result }
    {
        Tracker {
            settings,
            accepted: false,
            packets: 0,
            packet: Packet {
                position: 0,
                orbit: 0,
                trigger: 0,
                bc: 0,
                page: 0,
                stop: 0,
                format: 0,
            },
            at: At {
                fsm: ItsPayloadFsmContinuous::new(),
                count: 0,
                seen: false,
            },
            stored: Stored {
                ihw: StoredIhw {
                    present: false,
                    lanes: 0,
                },
                tdh: StoredTdh {
                    present: false,
                    trigger: 0,
                    bc: 0,
                    orbit: 0,
                },
                internal: InternalTdh {
                    present: false,
                    bc: 0,
                    orbit: 0,
                },
                cdw: StoredCdw {
                    present: false,
                    user: 0,
                },
            },
            frame: Frame {
                opened: false,
                start: 0,
            },
        }
    }

    // Where the next word stands.
    pub fn here(self) -> u64
        requires { Good self }
        ensures { result ≡ position_now self }
    {
        packet::position(self.packet, self.at.count)
    }

    // A packet: where its words stand and what they are checked against. Refusals: Packet where a field is out of its range, then LastPacket.
    #[tactic(auto, using(crate::proofs::Calls::packet_5, crate::proofs::Calls::packet_10))]
    pub fn packet(self, packet: Packet) -> Result<Tracker, Refusal>
        requires { Good self }
        ensures { PacketPost self packet (packet_answered self result) }
    {
        if !packet::in_range(packet) {
            return Err(Refusal::Packet);
        }
        if self.packets >= MOST_PACKETS {
            return Err(Refusal::LastPacket);
        }
        let mut t = self;
        t.accepted = true;
        t.packets = self.packets + 1;
        t.packet = packet;
        t.at.count = 0;
        t.at.seen = false;
        Ok(t)
    }

    // Back to the start state. All else is kept.
    pub fn reset(self) -> Tracker
        requires { Good self }
        ensures { (result ≡ reset_of self) × Good result }
    {
        let mut t = self;
        let at = At {
            fsm: self.at.fsm.reset_fsm(),
            count: self.at.count,
            seen: self.at.seen,
        };
        t.at = at;
        t
    }
}
