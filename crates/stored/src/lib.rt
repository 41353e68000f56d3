// What is kept of the words of a link: the last IHW, TDH, internal TDH and CDW, and the open frame. 01, "Records": what is stored where.
// "A presence flag beside fields", as 01 has it: with an Option for each, khz_payload took 42.5 instructions a clean word in place of 40.7.
#![tactic(auto)]

pub mod next;

// Of the IHW stored last, what is read again.
#[derive(Clone, Copy)]
pub struct StoredIhw {
    pub present: bool,
    pub lanes: u32,
}

// Of the TDH stored last, what is read again.
#[derive(Clone, Copy)]
pub struct StoredTdh {
    pub present: bool,
    pub trigger: u16,
    pub bc: u16,
    pub orbit: u32,
}

// Of the last TDH with internal trigger, what is read again.
#[derive(Clone, Copy)]
pub struct InternalTdh {
    pub present: bool,
    pub bc: u16,
    pub orbit: u32,
}

// Of the CDW stored last, what is read again.
#[derive(Clone, Copy)]
pub struct StoredCdw {
    pub present: bool,
    pub user: u64,
}

// What is stored of the words before.
#[derive(Clone, Copy)]
pub struct Stored {
    pub ihw: StoredIhw,
    pub tdh: StoredTdh,
    pub internal: InternalTdh,
    pub cdw: StoredCdw,
}

// Whether a frame is open, and where it started.
#[derive(Clone, Copy)]
pub struct Frame {
    pub opened: bool,
    pub start: u64,
}

// What a word did to the frame.
#[derive(Clone, Copy)]
pub enum FrameTold {
    Nothing,
    Opened,
    Closed { start: u64, end: u64 },
}
