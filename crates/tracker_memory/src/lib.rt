// A tracker's memory: what can be read of it and stored in it, whether it is a struct or numbers that a caller lends, and a word call on either. Document 01,
// "Calls and settings" and "Records"; the Rust's cdp_running.rs.
#![tactic(auto)]

ghost use Rattle.std.specs.Prelude.{◌≡◌};
ghost use Rattle.cdp_running.specs.declared.Tracker.{Tracker};
ghost use Rattle.cdp_running.specs.Told.{word_answered};
ghost use Rattle.cdp_running.specs.Tracker.{Good};
ghost use Rattle.cdp_running.specs.Word.{WordPost};
ghost use Rattle.payload_fsm.specs.Step.{among_data};
ghost use Rattle.tracker_memory.specs.Memory.{with_at, with_counted, with_seen, with_ihw, with_tdh, with_internal, with_cdw, with_frame, Always};

pub mod array;
pub mod call;
mod rows;
pub mod stores;

use cdp_running::{Taken, Tracker};
use packet::{Packet, Settings};
use payload_fsm::State;
use refusals::Refusal;
use stored::{Frame, InternalTdh, StoredCdw, StoredIhw, StoredTdh};

pub trait TrackerMemory {
    ghost tracker: { Self → Tracker };

    ghost holds: { Self → Type 0 };

    fn accepted(&self) -> bool
        requires { holds self.now }
        ensures { result ≡ (tracker self.now).accepted };

    fn settings(&self) -> Settings
        requires { holds self.now }
        ensures { result ≡ (tracker self.now).settings };

    fn packet(&self) -> Packet
        requires { holds self.now }
        ensures { result ≡ (tracker self.now).packet };

    fn packets(&self) -> u32
        requires { holds self.now }
        ensures { result ≡ (tracker self.now).packets };

    fn state(&self) -> State
        requires { holds self.now }
        ensures { result ≡ (tracker self.now).at.fsm.state };

    fn in_data(&self) -> bool
        requires { holds self.now }
        ensures { result ≡ among_data (tracker self.now).at.fsm.state };

    fn count(&self) -> u16
        requires { holds self.now }
        ensures { result ≡ (tracker self.now).at.count };

    fn seen(&self) -> bool
        requires { holds self.now }
        ensures { result ≡ (tracker self.now).at.seen };

    fn ihw(&self) -> StoredIhw
        requires { holds self.now }
        ensures { result ≡ (tracker self.now).stored.ihw };

    fn tdh(&self) -> StoredTdh
        requires { holds self.now }
        ensures { result ≡ (tracker self.now).stored.tdh };

    fn internal(&self) -> InternalTdh
        requires { holds self.now }
        ensures { result ≡ (tracker self.now).stored.internal };

    fn cdw(&self) -> StoredCdw
        requires { holds self.now }
        ensures { result ≡ (tracker self.now).stored.cdw };

    fn frame(&self) -> Frame
        requires { holds self.now }
        ensures { result ≡ (tracker self.now).frame };

    fn store_reached(&mut self, state: State, count: u16)
        requires { holds self.old }
        ensures holds { holds self.new }
        ensures stored { tracker self.new ≡ with_at (tracker self.old) state count };

    fn store_counted(&mut self, count: u16)
        requires { holds self.old }
        ensures holds { holds self.new }
        ensures stored { tracker self.new ≡ with_counted (tracker self.old) count };

    fn store_seen(&mut self)
        requires { holds self.old }
        ensures holds { holds self.new }
        ensures stored { tracker self.new ≡ with_seen (tracker self.old) };

    fn store_ihw(&mut self, ihw: StoredIhw)
        requires { holds self.old }
        ensures holds { holds self.new }
        ensures stored { tracker self.new ≡ with_ihw (tracker self.old) ihw };

    fn store_tdh(&mut self, tdh: StoredTdh)
        requires { holds self.old }
        ensures holds { holds self.new }
        ensures stored { tracker self.new ≡ with_tdh (tracker self.old) tdh };

    fn store_internal(&mut self, internal: InternalTdh)
        requires { holds self.old }
        ensures holds { holds self.new }
        ensures stored { tracker self.new ≡ with_internal (tracker self.old) internal };

    fn store_cdw(&mut self, cdw: StoredCdw)
        requires { holds self.old }
        ensures holds { holds self.new }
        ensures stored { tracker self.new ≡ with_cdw (tracker self.old) cdw };

    fn store_frame(&mut self, frame: Frame)
        requires { holds self.old }
        ensures holds { holds self.new }
        ensures stored { tracker self.new ≡ with_frame (tracker self.old) frame };
}

impl TrackerMemory for Tracker {
    ghost tracker = { λ t. t };

    ghost holds = { Always };

    fn accepted(&self) -> bool {
        self.accepted
    }

    fn settings(&self) -> Settings {
        self.settings
    }

    fn packet(&self) -> Packet {
        self.packet
    }

    fn packets(&self) -> u32 {
        self.packets
    }

    fn state(&self) -> State {
        let fsm = self.at.fsm;
        fsm.state
    }

    fn in_data(&self) -> bool {
        let fsm = self.at.fsm;
        match fsm.state {
            State::Data | State::CData => true,
            _ => false,
        }
    }

    fn count(&self) -> u16 {
        self.at.count
    }

    fn seen(&self) -> bool {
        self.at.seen
    }

    fn ihw(&self) -> StoredIhw {
        self.stored.ihw
    }

    fn tdh(&self) -> StoredTdh {
        self.stored.tdh
    }

    fn internal(&self) -> InternalTdh {
        self.stored.internal
    }

    fn cdw(&self) -> StoredCdw {
        self.stored.cdw
    }

    fn frame(&self) -> Frame {
        self.frame
    }

    fn store_reached(&mut self, state: State, count: u16) {
        self.at.fsm.state = state;
        self.at.count = count;
    }

    fn store_counted(&mut self, count: u16) {
        self.at.count = count;
        self.at.seen = true;
    }

    fn store_seen(&mut self) {
        self.at.seen = true;
    }

    fn store_ihw(&mut self, ihw: StoredIhw) {
        self.stored.ihw = ihw;
    }

    fn store_tdh(&mut self, tdh: StoredTdh) {
        self.stored.tdh = tdh;
    }

    fn store_internal(&mut self, internal: InternalTdh) {
        self.stored.internal = internal;
    }

    fn store_cdw(&mut self, cdw: StoredCdw) {
        self.stored.cdw = cdw;
    }

    fn store_frame(&mut self, frame: Frame) {
        self.frame = frame;
    }
}

// A word call by value: a tracker goes in, and comes out unless the word is refused.
pub trait WordCall {
    ghost before: { Self → Tracker };

    // One word: its records stand at the front of out, whose rest stays, as all of it does at a refusal.
    fn word(self, bytes: &[u8], out: &mut [u64]) -> Result<(Tracker, Taken), Refusal>
        requires { Good (before self) }
        ensures { WordPost (before self) bytes.now out.old (word_answered (before self) result) out.new };
}

impl WordCall for Tracker {
    ghost before = { λ t. t };

    fn word(self, bytes: &[u8], out: &mut [u64]) -> Result<(Tracker, Taken), Refusal> {
        let mut after = self;
        let taken = call::word(&mut after, bytes, out)?;
        Ok((after, taken))
    }
}
