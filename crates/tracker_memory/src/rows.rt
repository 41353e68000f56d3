// The records of a word by its kind, from a tracker's memory. Before the rows it is asked whether there is any record, since most words give none.
ghost use Rattle.std.specs.Prelude.{◌≡◌, true};
ghost use Rattle.payload_fsm.specs.Step.{is_three};
ghost use Rattle.records.specs.Records.{padded, silent, WritePost};
ghost use Rattle.cdp_running.specs.Word.{rows_of};

use crate::TrackerMemory;
use payload_fsm::{Advanced, ItsPayloadWord};
use records::{MOST_RECORDS, Row};
use refusals::Refusal;
use words::Word;

// Whether the word comes in the three-way state.
fn in_three<T: TrackerMemory>(t: &T) -> bool
    requires { T.holds t.now }
    ensures { result ≡ is_three (T.tracker t.now).at.fsm.state }
{
    let state = t.state();
    state.is_three()
}

// The rows of a word, by what it was taken as.
fn rows<T: TrackerMemory>(t: &T, taken: Advanced, word: Word) -> [Row; MOST_RECORDS]
    requires { T.holds t.now }
    ensures { result ≡ padded (rows_of (T.tracker t.now) taken word) }
{
    let kind = taken.word;
    match kind {
        ItsPayloadWord::Ihw => {
            validators::ihw::check_at_initial_ihw(t.settings(), t.packet(), in_three(t), word)
        }
        ItsPayloadWord::IhwContinuation => validators::ihw::check_continuation(word),
        ItsPayloadWord::Tdh => tdh_validator::check_tdh_no_continuation(
            t.settings(),
            t.packet(),
            t.internal(),
            word,
        ),
        ItsPayloadWord::TdhAfterPacketDone => tdh_validator::check_after_tdt_packet_done_true(
            t.settings(),
            t.tdh(),
            t.internal(),
            word,
        ),
        ItsPayloadWord::TdhContinuation => {
            tdh_validator::check_continuation(t.settings(), t.tdh(), word)
        }
        ItsPayloadWord::DataWord | ItsPayloadWord::Cdw => {
            let ihw = t.ihw();
            validators::data_words::check(
                t.settings(),
                t.seen(),
                ihw.lanes,
                t.cdw(),
                taken.guessed,
                word,
            )
        }
        ItsPayloadWord::Tdt => {
            let frame = t.frame();
            validators::tdt::check(t.settings(), frame.opened, word)
        }
        ItsPayloadWord::Ddw0 => {
            validators::ddw::check_at_ddw0(t.settings(), t.packet(), taken.guessed, word)
        }
    }
}

// Whether they surely give no record: only their conditions are asked, and no row is made. Data words are not asked: of a payload and a word on C's numbers
// the quiet ones do not come here (`payload::quick`), and most others give one; by value all come, and their rows are made. The choice by kind stands here
// once more so that it is inlined: `silent(rows(..))` costs 66 instructions more a clean word.
#[tactic(auto, using(records::proofs::Given::silent_padded))]
fn is_silent<T: TrackerMemory>(t: &T, taken: Advanced, word: Word) -> bool
    requires { T.holds t.now }
    ensures { result ≡ true → silent (rows_of (T.tracker t.now) taken word) ≡ true }
{
    let kind = taken.word;
    match kind {
        ItsPayloadWord::Ihw => records::silent(validators::ihw::check_at_initial_ihw(
            t.settings(),
            t.packet(),
            in_three(t),
            word,
        )),
        ItsPayloadWord::IhwContinuation => {
            records::silent(validators::ihw::check_continuation(word))
        }
        ItsPayloadWord::Tdh => records::silent(tdh_validator::check_tdh_no_continuation(
            t.settings(),
            t.packet(),
            t.internal(),
            word,
        )),
        ItsPayloadWord::TdhAfterPacketDone => {
            records::silent(tdh_validator::check_after_tdt_packet_done_true(
                t.settings(),
                t.tdh(),
                t.internal(),
                word,
            ))
        }
        ItsPayloadWord::TdhContinuation => {
            records::silent(tdh_validator::check_continuation(t.settings(), t.tdh(), word))
        }
        ItsPayloadWord::DataWord | ItsPayloadWord::Cdw => false,
        ItsPayloadWord::Tdt => {
            let frame = t.frame();
            records::silent(validators::tdt::check(t.settings(), frame.opened, word))
        }
        ItsPayloadWord::Ddw0 => records::silent(validators::ddw::check_at_ddw0(
            t.settings(),
            t.packet(),
            taken.guessed,
            word,
        )),
    }
}

// The records of a word, at the front of a buffer.
pub(crate) fn write<T: TrackerMemory>(
    t: &T,
    taken: Advanced,
    word: Word,
    here: u64,
    out: &mut [u64],
) -> Result<u64, Refusal>
    requires { T.holds t.now }
    ensures { WritePost here (T.tracker t.now).packets (padded (rows_of (T.tracker t.now) taken word)) out.old result out.new }
{
    if is_silent(t, taken, word) {
        return Ok(0);
    }
    let rows = rows(t, taken, word);
    records::write(out, here, t.packets() as u64, rows)
}
