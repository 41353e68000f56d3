// What is kept after a word, each part by itself and what is stored together, and what is told of the frame and the lanes. 01, "Records": what is stored
// where. tracker_memory/src/stores.rt stores the same by kind, where it stands.
ghost use Rattle.std.specs.Prelude.{◌≡◌};
ghost use Rattle.stored.specs.Stored.{next_ihw, next_tdh, next_internal, first_cdw, next_cdw, next_stored, opens, closes, next_frame, frame_told, lanes_told};

use crate::{Frame, FrameTold, InternalTdh, Stored, StoredCdw, StoredIhw, StoredTdh};
use payload_fsm::ItsPayloadWord;
use words::Word;
use words::cdw::Cdw;
use words::ihw::Ihw;
use words::status_word::StatusWord;
use words::tdh::Tdh;
use words::tdt::Tdt;

fn ihw(kind: ItsPayloadWord, word: Word, old: StoredIhw) -> StoredIhw
    ensures { result ≡ next_ihw kind word old }
{
    if kind.is_ihw() {
        let ihw = Ihw { word };
        StoredIhw {
            present: true,
            lanes: ihw.active_lanes(),
        }
    } else {
        old
    }
}

fn tdh(kind: ItsPayloadWord, word: Word, old: StoredTdh) -> StoredTdh
    ensures { result ≡ next_tdh kind word old }
{
    if kind.is_tdh() {
        let tdh = Tdh { word };
        StoredTdh {
            present: true,
            trigger: tdh.trigger_type(),
            bc: tdh.trigger_bc(),
            orbit: tdh.trigger_orbit(),
        }
    } else {
        old
    }
}

fn internal(kind: ItsPayloadWord, word: Word, old: InternalTdh) -> InternalTdh
    ensures { result ≡ next_internal kind word old }
{
    let tdh = Tdh { word };
    let is_tdh = kind.is_tdh();
    let internal = tdh.internal_trigger();
    if is_tdh & (internal == 1) {
        InternalTdh {
            present: true,
            bc: tdh.trigger_bc(),
            orbit: tdh.trigger_orbit(),
        }
    } else {
        old
    }
}

// A CDW as the first data of a packet.
pub fn is_first_cdw(seen: bool, word: Word) -> bool
    ensures { result ≡ first_cdw seen word }
{
    let id = word.id();
    !seen & (id == Cdw::ID)
}

fn cdw(kind: ItsPayloadWord, seen: bool, word: Word, old: StoredCdw) -> StoredCdw
    ensures { result ≡ next_cdw kind seen word old }
{
    let is_data = kind.is_data();
    let first = is_first_cdw(seen, word);
    if is_data & first {
        let cdw = Cdw { word };
        StoredCdw {
            present: true,
            user: cdw.calibration_user_fields(),
        }
    } else {
        old
    }
}

// All that is stored.
pub fn stored(kind: ItsPayloadWord, seen: bool, word: Word, old: Stored) -> Stored
    ensures { result ≡ next_stored kind seen word old }
{
    Stored {
        ihw: ihw(kind, word, old.ihw),
        tdh: tdh(kind, word, old.tdh),
        internal: internal(kind, word, old.internal),
        cdw: cdw(kind, seen, word, old.cdw),
    }
}

fn opens(frames: bool, kind: ItsPayloadWord, word: Word, frame: Frame) -> bool
    ensures { result ≡ opens frames kind word frame }
{
    let tdh = Tdh { word };
    let is_tdh = kind.is_tdh();
    let continuation = tdh.continuation();
    is_tdh & (frames & (!frame.opened & (continuation == 0)))
}

fn closes(frames: bool, kind: ItsPayloadWord, word: Word) -> bool
    ensures { result ≡ closes frames kind word }
{
    let tdt = Tdt { word };
    let is_tdt = kind.is_tdt();
    let done = tdt.packet_done();
    is_tdt & (frames & done)
}

pub fn frame(frames: bool, kind: ItsPayloadWord, word: Word, position: u64, old: Frame) -> Frame
    ensures { result ≡ next_frame frames kind word position old }
{
    if opens(frames, kind, word, old) {
        Frame {
            opened: true,
            start: position,
        }
    } else if closes(frames, kind, word) {
        Frame {
            opened: false,
            start: 0,
        }
    } else {
        old
    }
}

pub fn frame_told(
    frames: bool,
    kind: ItsPayloadWord,
    word: Word,
    position: u64,
    old: Frame,
) -> FrameTold
    ensures { result ≡ frame_told frames kind word position old }
{
    let closing = closes(frames, kind, word);
    if opens(frames, kind, word, old) {
        FrameTold::Opened
    } else if closing & old.opened {
        FrameTold::Closed {
            start: old.start,
            end: position,
        }
    } else {
        FrameTold::Nothing
    }
}

pub fn lanes_told(kind: ItsPayloadWord, word: Word) -> u32
    ensures { result ≡ lanes_told kind word }
{
    if kind.is_ihw() {
        let ihw = Ihw { word };
        ihw.read().on
    } else {
        0
    }
}
