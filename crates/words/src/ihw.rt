// The IHW: ITS header word. 01, "Words" (added).
ghost use Rattle.std.specs.Prelude.{◌≡◌};
ghost use Rattle.words.specs.Ihw.{active_lanes, ihw_answer, reserved, ihw_id, is_reserved0};

use crate::Word;
use crate::status_word::StatusWord;

#[derive(Clone, Copy)]
pub struct Ihw {
    pub word: Word,
}

// What reading an IHW answers: its active lanes, and how many it switches on.
#[derive(Clone, Copy)]
pub struct IhwAnswer {
    pub active: u32,
    pub on: u32,
}

impl Ihw {
    pub fn active_lanes(self) -> u32
        ensures { result ≡ active_lanes self.word }
    {
        self.word.bits(27, 0) as u32
    }

    pub fn read(self) -> IhwAnswer
        ensures { result ≡ ihw_answer self.word }
    {
        let active = self.active_lanes();
        IhwAnswer {
            active,
            on: active.count_ones(),
        }
    }

    pub fn reserved(self) -> u64
        ensures { result ≡ reserved self.word }
    {
        self.word.bits(71, 28)
    }
}

impl StatusWord for Ihw {
    ghost ID = { ihw_id };

    ghost word = { λ w. w.word };

    ghost clean = { is_reserved0 };

    const ID: u8 = 0xE0;

    fn word(self) -> Word {
        self.word
    }

    fn is_reserved_0(self) -> bool {
        self.reserved() == 0
    }
}
