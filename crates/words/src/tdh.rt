// The TDH: trigger data header. 01, "Words"; the Rust's words/its/status_words/tdh.rs.
ghost use Rattle.std.specs.Prelude.{◌≡◌};
ghost use Rattle.words.specs.Tdh.{trigger_type, internal_trigger, no_data, continuation, trigger_bc, trigger_orbit, reserved0, reserved1, reserved2};
ghost use Rattle.words.specs.Tdh.{tdh_id, is_reserved0};

use crate::Word;
use crate::status_word::StatusWord;

#[derive(Clone, Copy)]
pub struct Tdh {
    pub word: Word,
}

impl Tdh {
    // The last legal crossing.
    pub const MAX_BC: u16 = 3563;

    pub fn trigger_type(self) -> u16
        ensures { result ≡ trigger_type self.word }
    {
        self.word.bits(11, 0) as u16
    }

    pub fn internal_trigger(self) -> u16
        ensures { result ≡ internal_trigger self.word }
    {
        self.word.bits(12, 12) as u16
    }

    pub fn no_data(self) -> u16
        ensures { result ≡ no_data self.word }
    {
        self.word.bits(13, 13) as u16
    }

    pub fn continuation(self) -> u16
        ensures { result ≡ continuation self.word }
    {
        self.word.bits(14, 14) as u16
    }

    pub fn trigger_bc(self) -> u16
        ensures { result ≡ trigger_bc self.word }
    {
        self.word.bits(27, 16) as u16
    }

    pub fn trigger_orbit(self) -> u32
        ensures { result ≡ trigger_orbit self.word }
    {
        self.word.bits(63, 32) as u32
    }

    pub fn reserved0(self) -> u16
        ensures { result ≡ reserved0 self.word }
    {
        self.word.bits(71, 64) as u16
    }

    // In its place, not shifted down, as in the Rust.
    pub fn reserved1(self) -> u16
        ensures { result ≡ reserved1 self.word }
    {
        (self.word.bits(31, 28) * 0x1000) as u16
    }

    // In its place, not shifted down, as in the Rust.
    pub fn reserved2(self) -> u16
        ensures { result ≡ reserved2 self.word }
    {
        (self.word.bits(15, 15) * 0x8000) as u16
    }
}

impl StatusWord for Tdh {
    ghost ID = { tdh_id };

    ghost word = { λ w. w.word };

    ghost clean = { is_reserved0 };

    const ID: u8 = 0xE8;

    fn word(self) -> Word {
        self.word
    }

    fn is_reserved_0(self) -> bool {
        (self.reserved0() == 0) & ((self.reserved1() == 0) & (self.reserved2() == 0))
    }
}
