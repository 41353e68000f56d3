// What the words that control a link's data have in common: an id and reserved bits. The Rust's trait of this name, words/its/status_words.rs.
ghost use Rattle.std.specs.Prelude.{◌≡◌, ℕ, Bool};
ghost use Rattle.words.specs.declared.Word.{Word};
ghost use Rattle.words.specs.StatusWord.{fault};

use crate::Word;

pub trait StatusWord {
    ghost ID: { ℕ };

    ghost word: { Self → Word };

    // Whether all reserved bits of a word are 0.
    ghost clean: { Word → Bool };

    const ID: u8;

    fn word(self) -> Word
        ensures { result ≡ word self };

    fn is_reserved_0(self) -> bool
        ensures { result ≡ clean (word self) };
}

// What is wrong with a status word: 1 where its id is not its kind's; else 2 for reserved bits, and 4 where what its kind is asked besides is wrong.
pub fn sanity_check<W: StatusWord + Copy>(word: W, more: bool) -> u64
    ensures { result ≡ fault W.ID W.clean more (W.word word) }
{
    let known = word.word().id() == W::ID;
    let reserved = if word.is_reserved_0() { 0 } else { 2 };
    if known {
        if more { reserved + 4 } else { reserved }
    } else {
        1
    }
}
