// The TDT: trigger data trailer. 01, "Words"; the Rust's words/its/status_words/tdt.rs.
ghost use Rattle.std.specs.Prelude.{◌≡◌};
ghost use Rattle.words.specs.Tdt.{lane_status15to0, lane_status23to16, lane_status27to24, timeout_to_start, timeout_start_stop, timeout_in_idle};
ghost use Rattle.words.specs.Tdt.{lane_starts_violation, transmission_timeout, packet_done, reserved0, reserved1, reserved2, tdt_id, is_reserved0};

use crate::Word;
use crate::status_word::StatusWord;

#[derive(Clone, Copy)]
pub struct Tdt {
    pub word: Word,
}

impl Tdt {
    pub fn lane_status_15_0(self) -> u32
        ensures { result ≡ lane_status15to0 self.word }
    {
        self.word.bits(31, 0) as u32
    }

    pub fn lane_status_23_16(self) -> u16
        ensures { result ≡ lane_status23to16 self.word }
    {
        self.word.bits(47, 32) as u16
    }

    pub fn lane_status_27_24(self) -> u8
        ensures { result ≡ lane_status27to24 self.word }
    {
        self.word.bits(55, 48) as u8
    }

    pub fn timeout_to_start(self) -> bool
        ensures { result ≡ timeout_to_start self.word }
    {
        self.word.bit(63)
    }

    pub fn timeout_start_stop(self) -> bool
        ensures { result ≡ timeout_start_stop self.word }
    {
        self.word.bit(62)
    }

    pub fn timeout_in_idle(self) -> bool
        ensures { result ≡ timeout_in_idle self.word }
    {
        self.word.bit(61)
    }

    pub fn lane_starts_violation(self) -> bool
        ensures { result ≡ lane_starts_violation self.word }
    {
        self.word.bit(67)
    }

    pub fn transmission_timeout(self) -> bool
        ensures { result ≡ transmission_timeout self.word }
    {
        self.word.bit(65)
    }

    pub fn packet_done(self) -> bool
        ensures { result ≡ packet_done self.word }
    {
        self.word.bit(64)
    }

    pub fn reserved0(self) -> u8
        ensures { result ≡ reserved0 self.word }
    {
        self.word.bits(71, 68) as u8
    }

    // In its place, not shifted down, as in the Rust.
    pub fn reserved1(self) -> u8
        ensures { result ≡ reserved1 self.word }
    {
        (self.word.bits(66, 66) * 4) as u8
    }

    pub fn reserved2(self) -> u8
        ensures { result ≡ reserved2 self.word }
    {
        self.word.bits(60, 56) as u8
    }
}

impl StatusWord for Tdt {
    ghost ID = { tdt_id };

    ghost word = { λ w. w.word };

    ghost clean = { is_reserved0 };

    const ID: u8 = 0xF0;

    fn word(self) -> Word {
        self.word
    }

    fn is_reserved_0(self) -> bool {
        (self.reserved0() == 0) & ((self.reserved1() == 0) & (self.reserved2() == 0))
    }
}
