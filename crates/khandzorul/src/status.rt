// The readers of lane status that cross to C, for a handheld that uses them alone.
ghost use Rattle.std.specs.Prelude.{◌≡◌};
ghost use Rattle.words.specs.LaneStatus.{lane_status, worst_lane};
ghost use Rattle.khandzorul.specs.Status.{status_of};

use words::Word;

// khz_status_answer
#[repr(C)]
#[derive(Clone, Copy)]
pub struct StatusNumbers {
    pub refusal: u64,
    pub status: u64,
}

// The status of a lane, whatever its number: one above 27 has none.
fn lane_status(word: Word, lane: u64) -> u64
    ensures { result ≡ lane_status lane word }
{
    if lane < 0x100 {
        words::lane_status::ddw0_tdt_lane_status(word, lane as u8) as u64
    } else {
        0
    }
}

// The status of a TDT or DDW0: that of its worst lane.
pub fn khz_worst_lane(word: &[u8]) -> StatusNumbers
    ensures { result ≡ status_of worst_lane word.now }
{
    match Word::from_buf(word) {
        Ok(word) => StatusNumbers {
            refusal: 0,
            status: words::lane_status::ddw0_tdt_worst_lane_status(word) as u64,
        },
        Err(n) => StatusNumbers {
            refusal: u64::from(u8::from(n)),
            status: 0,
        },
    }
}

// The status of one lane of a TDT or DDW0.
pub fn khz_lane_status(word: &[u8], lane: u64) -> StatusNumbers
    ensures { result ≡ status_of (lane_status lane) word.now }
{
    match Word::from_buf(word) {
        Ok(word) => StatusNumbers {
            refusal: 0,
            status: lane_status(word, lane),
        },
        Err(n) => StatusNumbers {
            refusal: u64::from(u8::from(n)),
            status: 0,
        },
    }
}
