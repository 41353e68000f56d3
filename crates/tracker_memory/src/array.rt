// The memory that C lends: the 48 numbers themselves.
ghost use Rattle.tracker_array.specs.Read.{tracker_in};
ghost use Rattle.tracker_memory.specs.Holds.{Holds};

use crate::TrackerMemory;
use packet::{Packet, Settings};
use payload_fsm::State;
use stored::{Frame, InternalTdh, StoredCdw, StoredIhw, StoredTdh};
use tracker_array::{SIZE, place, rules, states};

impl TrackerMemory for [u64; SIZE] {
    ghost tracker = { tracker_in };

    ghost holds = { Holds };

    fn accepted(&self) -> bool {
        self[place::ACCEPTED] == 1
    }

    fn settings(&self) -> Settings {
        Settings {
            running: self[place::RUNNING] == 1,
            frames: self[place::FRAMES] == 1,
            period: (self[place::PERIODIC] == 1).then_some(self[place::PERIOD] as u32),
            rule: rules::rule_of(self[place::RULE]),
        }
    }

    fn packet(&self) -> Packet {
        Packet {
            position: self[place::POSITION],
            orbit: self[place::ORBIT] as u32,
            trigger: self[place::TRIGGER] as u32,
            bc: self[place::BC] as u16,
            page: self[place::PAGE] as u16,
            stop: self[place::STOP] as u8,
            format: self[place::FORMAT] as u8,
        }
    }

    fn packets(&self) -> u32 {
        self[place::PACKETS] as u32
    }

    fn state(&self) -> State {
        states::state_of(self[place::STATE])
    }

    fn in_data(&self) -> bool {
        let n = self[place::STATE];
        (n == 2) | (n == 3)
    }

    fn count(&self) -> u16 {
        self[place::COUNT] as u16
    }

    fn seen(&self) -> bool {
        self[place::SEEN] == 1
    }

    fn ihw(&self) -> StoredIhw {
        StoredIhw {
            present: self[place::IHW] == 1,
            lanes: self[place::LANES] as u32,
        }
    }

    fn tdh(&self) -> StoredTdh {
        StoredTdh {
            present: self[place::TDH] == 1,
            trigger: self[place::TDH_TRIGGER] as u16,
            bc: self[place::TDH_BC] as u16,
            orbit: self[place::TDH_ORBIT] as u32,
        }
    }

    fn internal(&self) -> InternalTdh {
        InternalTdh {
            present: self[place::INTERNAL] == 1,
            bc: self[place::INTERNAL_BC] as u16,
            orbit: self[place::INTERNAL_ORBIT] as u32,
        }
    }

    fn cdw(&self) -> StoredCdw {
        StoredCdw {
            present: self[place::CDW] == 1,
            user: self[place::CDW_USER],
        }
    }

    fn frame(&self) -> Frame {
        Frame {
            opened: self[place::OPENED] == 1,
            start: self[place::START],
        }
    }

    fn store_reached(&mut self, state: State, count: u16) {
        self[place::STATE] = u64::from(state);
        self[place::COUNT] = count as u64;
    }

    fn store_counted(&mut self, count: u16) {
        self[place::COUNT] = count as u64;
        self[place::SEEN] = 1;
    }

    fn store_seen(&mut self) {
        self[place::SEEN] = 1;
    }

    fn store_ihw(&mut self, ihw: StoredIhw) {
        self[place::IHW] = u64::from(ihw.present);
        self[place::LANES] = ihw.lanes as u64;
    }

    fn store_tdh(&mut self, tdh: StoredTdh) {
        self[place::TDH] = u64::from(tdh.present);
        self[place::TDH_TRIGGER] = tdh.trigger as u64;
        self[place::TDH_BC] = tdh.bc as u64;
        self[place::TDH_ORBIT] = tdh.orbit as u64;
    }

    fn store_internal(&mut self, internal: InternalTdh) {
        self[place::INTERNAL] = u64::from(internal.present);
        self[place::INTERNAL_BC] = internal.bc as u64;
        self[place::INTERNAL_ORBIT] = internal.orbit as u64;
    }

    fn store_cdw(&mut self, cdw: StoredCdw) {
        self[place::CDW] = u64::from(cdw.present);
        self[place::CDW_USER] = cdw.user;
    }

    fn store_frame(&mut self, frame: Frame) {
        self[place::OPENED] = u64::from(frame.opened);
        self[place::START] = frame.start;
    }
}
