// Where each number of a tracker stands. specs/Place.antt has the same names.
pub const MARK: usize = 0;

pub const RUNNING: usize = 1;

pub const FRAMES: usize = 2;

pub const PERIODIC: usize = 3;

pub const PERIOD: usize = 4;

pub const RULE: usize = 5;

pub const ACCEPTED: usize = 6;

pub const PACKETS: usize = 7;

pub const POSITION: usize = 8;

pub const ORBIT: usize = 9;

pub const TRIGGER: usize = 10;

pub const BC: usize = 11;

pub const PAGE: usize = 12;

pub const STOP: usize = 13;

pub const FORMAT: usize = 14;

pub const STATE: usize = 15;

pub const COUNT: usize = 16;

pub const SEEN: usize = 17;

pub const IHW: usize = 18;

pub const LANES: usize = 19;

pub const TDH: usize = 20;

pub const TDH_TRIGGER: usize = 21;

pub const TDH_BC: usize = 22;

pub const TDH_ORBIT: usize = 23;

pub const INTERNAL: usize = 24;

pub const INTERNAL_BC: usize = 25;

pub const INTERNAL_ORBIT: usize = 26;

pub const CDW: usize = 27;

pub const CDW_USER: usize = 28;

pub const OPENED: usize = 29;

pub const START: usize = 30;

// Nothing stands from here on.
pub const UNUSED: usize = 31;
