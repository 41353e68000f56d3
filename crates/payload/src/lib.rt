// A payload: its words in order, up to a refusal. Document 01, "Calls and settings": "A payload call does words in order".
// Each word is handed to the word call: the form to be read. The exported call is `quick::payload`, on the numbers of a tracker where they stand.
#![tactic(auto)]

ghost use Rattle.std.specs.Prelude.{◌≤◌, length, take};
ghost use Rattle.words.specs.Word.{word_bytes};
ghost use Rattle.cdp_running.specs.Told.{word_answered};
ghost use Rattle.cdp_running.specs.Tracker.{Good};
ghost use Rattle.cdp_running.specs.Word.{WordPost};
ghost use Rattle.payload.specs.Answer.{payload_answered};
ghost use Rattle.payload.specs.Payload.{PayloadPost};

pub mod quick;
mod quiet;

use cdp_running::{Taken, Tracker};
use refusals::Refusal;
use tracker_memory::WordCall;
use words::Word;

// What a payload call answers: the tracker after the words that were taken, how many these and their records are, and why the next one was refused, if one was.
#[derive(Clone, Copy)]
pub struct PayloadAnswer {
    pub tracker: Tracker,
    pub words: u64,
    pub records: u64,
    pub refusal: Option<Refusal>,
}

// The same of a call on a memory, in which the tracker stays.
#[derive(Clone, Copy)]
pub struct PayloadTold {
    pub words: u64,
    pub records: u64,
    pub refusal: Option<Refusal>,
}

// The word at the front of what is left of a payload.
fn first_word(t: Tracker, rest: &[u8], out: &mut [u64]) -> Result<(Tracker, Taken), Refusal>
    requires good { Good t }
    requires word_bytes_in_bounds { word_bytes ≤ length rest.now }
    ensures { WordPost t (take word_bytes rest.now) out.old (word_answered t result) out.new }
{
    t.word(&rest[..Word::SIZE], out)
}

// A payload. The records of its words stand at the front of out, whose rest stays; at a refusal those of the words before it.
#[tactic(auto, using(crate::proofs::Loop::uneven_is, crate::proofs::Loop::no_packet_is, records::proofs::Given::flat_none))]
pub fn payload(t: Tracker, bytes: &[u8], out: &mut [u64]) -> PayloadAnswer
    requires { Good t }
    ensures { PayloadPost t bytes.now out.old (payload_answered result) out.new }
{
    if bytes.len() % Word::SIZE != 0 {
        return PayloadAnswer {
            tracker: t,
            words: 0,
            records: 0,
            refusal: Some(Refusal::Size),
        };
    }
    if !t.accepted {
        return PayloadAnswer {
            tracker: t,
            words: 0,
            records: 0,
            refusal: Some(Refusal::NoPacket),
        };
    }
    let mut cur = t;
    let mut at: usize = 0;
    let mut used: usize = 0;
    // No `for`: 01 names the form, the rest of the payload from its middle, and of the buffer what is not yet written.
    while at < bytes.len() {
        match first_word(cur, &bytes[at..], &mut out[used..]) {
            Ok((after, taken)) => {
                cur = after;
                at = at + Word::SIZE;
                used = used + records::RECORD_WIDTH * (taken.records as usize);
            }
            Err(refusal) => {
                return PayloadAnswer {
                    tracker: cur,
                    words: (at / Word::SIZE) as u64,
                    records: (used / records::RECORD_WIDTH) as u64,
                    refusal: Some(refusal),
                };
            }
        }
    }
    PayloadAnswer {
        tracker: cur,
        words: (at / Word::SIZE) as u64,
        records: (used / records::RECORD_WIDTH) as u64,
        refusal: None,
    }
}
