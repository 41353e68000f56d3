// The readers of lane status.
ghost use Rattle.std.specs.Prelude.{◌≡◌};
ghost use Rattle.words.specs.LaneStatus.{lane_status, worst_lane};
ghost use Rattle.khandzorul.specs.Status.{status_of};

use khandzorul::status::StatusNumbers;

// The status of a TDT or DDW0: that of its worst lane.
#[unsafe(no_mangle)]
pub extern "C" fn khz_worst_lane(word: &[u8]) -> StatusNumbers
    ensures { result ≡ status_of worst_lane word.now }
{
    khandzorul::status::khz_worst_lane(word)
}

// The status of one lane of a TDT or DDW0.
#[unsafe(no_mangle)]
pub extern "C" fn khz_lane_status(word: &[u8], lane: u64) -> StatusNumbers
    ensures { result ≡ status_of (lane_status lane) word.now }
{
    khandzorul::status::khz_lane_status(word, lane)
}
