// The CDW: calibration data word. 01, "Words" (added).
ghost use Rattle.std.specs.Prelude.{◌≡◌};
ghost use Rattle.words.specs.Cdw.{cdw_id, user_fields, word_index, is_reserved0};

use crate::Word;
use crate::status_word::StatusWord;

#[derive(Clone, Copy)]
pub struct Cdw {
    pub word: Word,
}

impl Cdw {
    pub fn calibration_user_fields(self) -> u64
        ensures { result ≡ user_fields self.word }
    {
        self.word.bits(47, 0)
    }

    pub fn calibration_word_index(self) -> u32
        ensures { result ≡ word_index self.word }
    {
        self.word.bits(71, 48) as u32
    }
}

impl StatusWord for Cdw {
    ghost ID = { cdw_id };

    ghost word = { λ w. w.word };

    ghost clean = { is_reserved0 };

    const ID: u8 = 0xF8;

    fn word(self) -> Word {
        self.word
    }

    fn is_reserved_0(self) -> bool {
        // It has none.
        true
    }
}
