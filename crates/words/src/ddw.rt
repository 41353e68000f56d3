// The DDW0: diagnostic data word. 01, "Words" (added but for id, lane status, 67 and 65).
ghost use Rattle.std.specs.Prelude.{◌≡◌};
ghost use Rattle.words.specs.Ddw.{ddw0_id, lane_starts_violation, transmission_timeout, index, reserved0, reserved1, reserved2, is_reserved0};

use crate::Word;
use crate::status_word::StatusWord;

#[derive(Clone, Copy)]
pub struct Ddw0 {
    pub word: Word,
}

impl Ddw0 {
    pub fn lane_starts_violation(self) -> bool
        ensures { result ≡ lane_starts_violation self.word }
    {
        self.word.bit(67)
    }

    pub fn transmission_timeout(self) -> bool
        ensures { result ≡ transmission_timeout self.word }
    {
        self.word.bit(65)
    }

    pub fn index(self) -> u8
        ensures { result ≡ index self.word }
    {
        self.word.bits(71, 68) as u8
    }

    pub fn reserved0(self) -> u8
        ensures { result ≡ reserved0 self.word }
    {
        self.word.bits(64, 64) as u8
    }

    pub fn reserved1(self) -> u8
        ensures { result ≡ reserved1 self.word }
    {
        self.word.bits(66, 66) as u8
    }

    pub fn reserved2(self) -> u8
        ensures { result ≡ reserved2 self.word }
    {
        self.word.bits(63, 56) as u8
    }
}

impl StatusWord for Ddw0 {
    ghost ID = { ddw0_id };

    ghost word = { λ w. w.word };

    ghost clean = { is_reserved0 };

    const ID: u8 = 0xE4;

    fn word(self) -> Word {
        self.word
    }

    fn is_reserved_0(self) -> bool {
        (self.reserved0() == 0) & ((self.reserved1() == 0) & (self.reserved2() == 0))
    }
}
