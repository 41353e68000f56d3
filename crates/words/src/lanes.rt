// Active lanes, and lanes that can't be. 01, "Easy to get wrong": "Lanes above 27 are never active."; 02, ticket 4.
ghost use Rattle.std.specs.Prelude.{◌≡◌};
ghost use Rattle.words.specs.Lanes.{is_lane_active, last_lane, lane_answer, gives_number, is_active, is_missing};

// Lanes of a link: those that a status word tells of and an IHW switches on.
pub const LANES: u8 = 28;

// Whether a lane is switched on. Lanes above 27 never are, whatever the lane's number: no shift goes past the width.
pub fn is_lane_active(lane: u8, active_lanes: u32) -> bool
    ensures { result ≡ is_lane_active lane active_lanes }
{
    lane < LANES && (active_lanes >> lane) % 2 == 1
}

// What is answered to the question whether a lane is active.
#[derive(Clone, Copy, Debug, PartialEq, Eq)]
pub enum LaneAnswer {
    Active = 0,
    NotActive = 1,
    // The lane is above its barrel's last: it has no cable.
    NoSuchLane = 2,
}

// The number of an answer, for those who get no enum.
impl From<LaneAnswer> for u8 {
    ghost from_gives = { gives_number };

    fn from(answer: LaneAnswer) -> u8 {
        answer as u8
    }
}

impl LaneAnswer {
    pub fn is_active(self) -> bool
        ensures { result ≡ is_active self }
    {
        self == LaneAnswer::Active
    }

    pub fn is_missing(self) -> bool
        ensures { result ≡ is_missing self }
    {
        self == LaneAnswer::NoSuchLane
    }
}

// The last lane of the inner barrel, or of the outer.
fn last_lane(inner: bool) -> u8
    ensures { result ≡ last_lane inner }
{
    if inner { 8 } else { 27 }
}

// Whether a lane of an inner or an outer word is active, or there is no such lane. That is asked first, so that no bit of the active lanes makes one.
pub fn lane_answer(inner: bool, lane: u8, active_lanes: u32) -> LaneAnswer
    ensures { result ≡ lane_answer inner lane active_lanes }
{
    if last_lane(inner) < lane {
        LaneAnswer::NoSuchLane
    } else if is_lane_active(lane, active_lanes) {
        LaneAnswer::Active
    } else {
        LaneAnswer::NotActive
    }
}
