// The status of the lanes of a TDT or DDW0, two bits a lane. 01, "Words": "Lane status"; the Rust's words/its/status_words/util.rs.
ghost use Rattle.std.specs.Prelude.{◌≡◌};
ghost use Rattle.words.specs.LaneStatus.{lane_status27to0, lane_status, worst_lane};

use crate::Word;
use crate::lanes::LANES;

// The low bit of each lane's two; bits 63:56 are no lane's.
const LOW_BITS: u64 = 0x55_5555_5555_5555;

// The status of all lanes of a TDT or DDW0 as one number, bits 55:0.
pub fn ddw0_tdt_lane_status_27_0(word: Word) -> u64
    ensures { result ≡ lane_status27to0 word }
{
    word.bits(55, 0)
}

// The status of a lane of a TDT or DDW0: 0 good, 1 warning, 2 error, 3 fatal. A lane above 27 has none: 0. All lanes stand in the lower half, so no number of
// 80 bits is shifted by a lane of the caller's: small controllers have no instruction for that.
#[tactic(auto, using(crate::proofs::Worst::lane))]
pub fn ddw0_tdt_lane_status(word: Word, lane: u8) -> u8
    ensures { result ≡ lane_status lane word }
{
    if lane < LANES {
        ((word.lo >> (2 * lane)) % 4) as u8
    } else {
        0
    }
}

// The status of a TDT or DDW0: that of its worst lane, from the low and the high bits of all lanes at once.
pub fn ddw0_tdt_worst_lane_status(word: Word) -> u8
    ensures { result ≡ worst_lane word }
{
    let low = word.lo & LOW_BITS;
    let high = (word.lo >> 1) & LOW_BITS;
    if (low & high) != 0 {
        3
    } else if high != 0 {
        2
    } else if low != 0 {
        1
    } else {
        0
    }
}
