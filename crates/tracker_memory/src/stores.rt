// What a word of each kind stores in a tracker's memory: the parts that it changes, and no others. 01, "Records": what is stored where.
ghost use Rattle.std.specs.Prelude.{◌≡◌, ◌<◌};
ghost use Rattle.packet.specs.Packet.{max_words};
ghost use Rattle.cdp_running.specs.Word.{position_now};
ghost use Rattle.cdp_running.specs.Next.{next_tracker};
ghost use Rattle.tracker_memory.specs.Memory.{ihw_stores, internal_stores, opening_stores, tdh_stores, cdw_stores, data_stores, tdt_stores};

use crate::TrackerMemory;
use payload_fsm::{Advanced, ItsPayloadWord};
use stored::{Frame, InternalTdh, StoredCdw, StoredIhw, StoredTdh};
use words::Word;
use words::cdw::Cdw;
use words::ihw::Ihw;
use words::tdh::Tdh;
use words::tdt::Tdt;

fn ihw<T: TrackerMemory>(t: &mut T, word: Word)
    requires { T.holds t.old }
    ensures holds { T.holds t.new }
    ensures stored { T.tracker t.new ≡ ihw_stores word (T.tracker t.old) }
{
    let ihw = Ihw { word };
    t.store_ihw(StoredIhw {
        present: true,
        lanes: ihw.active_lanes(),
    });
}

fn internal<T: TrackerMemory>(t: &mut T, word: Word)
    requires { T.holds t.old }
    ensures holds { T.holds t.new }
    ensures stored { T.tracker t.new ≡ internal_stores word (T.tracker t.old) }
{
    let tdh = Tdh { word };
    if tdh.internal_trigger() == 1 {
        t.store_internal(InternalTdh {
            present: true,
            bc: tdh.trigger_bc(),
            orbit: tdh.trigger_orbit(),
        });
    }
}

fn opening<T: TrackerMemory>(t: &mut T, word: Word, here: u64)
    requires { T.holds t.old }
    ensures holds { T.holds t.new }
    ensures stored { T.tracker t.new ≡ opening_stores word here (T.tracker t.old) }
{
    let tdh = Tdh { word };
    let settings = t.settings();
    let frame = t.frame();
    let first = tdh.continuation() == 0;
    if settings.frames & (!frame.opened & first) {
        t.store_frame(Frame {
            opened: true,
            start: here,
        });
    }
}

fn tdh<T: TrackerMemory>(t: &mut T, word: Word, here: u64)
    requires { T.holds t.old }
    ensures holds { T.holds t.new }
    ensures stored { T.tracker t.new ≡ tdh_stores word here (T.tracker t.old) }
{
    let tdh = Tdh { word };
    t.store_tdh(StoredTdh {
        present: true,
        trigger: tdh.trigger_type(),
        bc: tdh.trigger_bc(),
        orbit: tdh.trigger_orbit(),
    });
    internal(t, word);
    opening(t, word, here);
}

fn cdw<T: TrackerMemory>(t: &mut T, word: Word)
    requires { T.holds t.old }
    ensures holds { T.holds t.new }
    ensures stored { T.tracker t.new ≡ cdw_stores word (T.tracker t.old) }
{
    let cdw = Cdw { word };
    if stored::next::is_first_cdw(t.seen(), word) {
        t.store_cdw(StoredCdw {
            present: true,
            user: cdw.calibration_user_fields(),
        });
    }
}

fn data<T: TrackerMemory>(t: &mut T, word: Word)
    requires { T.holds t.old }
    ensures holds { T.holds t.new }
    ensures stored { T.tracker t.new ≡ data_stores word (T.tracker t.old) }
{
    cdw(t, word);
    t.store_seen();
}

fn tdt<T: TrackerMemory>(t: &mut T, word: Word)
    requires { T.holds t.old }
    ensures holds { T.holds t.new }
    ensures stored { T.tracker t.new ≡ tdt_stores word (T.tracker t.old) }
{
    let tdt = Tdt { word };
    let settings = t.settings();
    let done = tdt.packet_done();
    if settings.frames & done {
        t.store_frame(Frame {
            opened: false,
            start: 0,
        });
    }
}

// The memory after a word that is taken as `taken` says.
#[tactic(auto, using(crate::proofs::Storing::stores_next))]
pub fn store<T: TrackerMemory>(t: &mut T, taken: Advanced, word: Word, here: u64)
    requires holds { T.holds t.old }
    requires room { (T.tracker t.old).at.count < max_words }
    requires here_value { here ≡ position_now (T.tracker t.old) }
    ensures holds { T.holds t.new }
    ensures stored { T.tracker t.new ≡ next_tracker (T.tracker t.old) taken word }
{
    let fsm = taken.fsm;
    let state = fsm.state;
    let kind = taken.word;
    let count = t.count() + 1;
    t.store_reached(state, count);
    match kind {
        ItsPayloadWord::Ihw | ItsPayloadWord::IhwContinuation => ihw(t, word),
        ItsPayloadWord::Tdh
        | ItsPayloadWord::TdhAfterPacketDone
        | ItsPayloadWord::TdhContinuation => tdh(t, word, here),
        ItsPayloadWord::DataWord | ItsPayloadWord::Cdw => data(t, word),
        ItsPayloadWord::Tdt => tdt(t, word),
        ItsPayloadWord::Ddw0 => {}
    }
}
