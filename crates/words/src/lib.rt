// A word of ten bytes, loaded once as two numbers, and the words of the ITS payload as readers over it.
// Document 01, "Words"; the Rust's words/its/status_words.rs and the files below it.
#![tactic(auto)]

ghost use Rattle.std.specs.Prelude.{◌≡◌, ◌+◌, ◌-◌, ◌^◌, ◌<◌, ◌≤◌, length, take, drop};
ghost use Rattle.words.specs.Word.{word_bytes, word_of, FromBufPost, id_of, bits, is_set};

use refusals::Refusal;

pub mod cdw;
pub mod ddw;
pub mod ihw;
pub mod lane_status;
pub mod lanes;
pub mod little_endian;
pub mod status_word;
pub mod tdh;
pub mod tdt;

// Bits 63:0 and bits 79:64.
#[derive(Clone, Copy)]
pub struct Word {
    pub lo: u64,
    pub hi: u16,
}

impl Word {
    // Bytes of a word, and the one that holds its id.
    pub const SIZE: usize = 10;

    pub const ID_BYTE: usize = 9;

    // The word that ten bytes are. An array carries its length, so nothing is asked.
    pub fn load(bytes: [u8; Word::SIZE]) -> Word
        ensures { result ≡ word_of bytes }
    {
        let [b0, b1, b2, b3, b4, b5, b6, b7, b8, b9] = bytes;
        Word {
            lo: u64::from_le_bytes([b0, b1, b2, b3, b4, b5, b6, b7]),
            hi: u16::from_le_bytes([b8, b9]),
        }
    }

    // The word whose ten bytes stand at a place.
    pub fn load_at(bytes: &[u8], at: usize) -> Word
        requires { at + word_bytes ≤ length bytes.now }
        ensures { result ≡ word_of (take word_bytes (drop at bytes.now)) }
    {
        Word::load(*bytes[at..at + Word::SIZE].first_chunk().unwrap())
    }

    // The word that a buffer is, or refusal 1 where it is not ten bytes.
    pub fn from_buf(buf: &[u8]) -> Result<Word, Refusal>
        ensures { FromBufPost buf.now result }
    {
        match buf.try_into() {
            Ok(bytes) => Ok(Word::load(bytes)),
            Err(_) => Err(Refusal::Size),
        }
    }

    // The id, byte 9.
    pub fn id(self) -> u8
        ensures { result ≡ id_of self }
    {
        self.bits(79, 72) as u8
    }

    // Bits h:l, as 01 writes them.
    fn bits(self, h: u8, l: u8) -> u64
        requires { (l ≤ h) × ((h - l < 63) × (h < 80)) }
        ensures value { result ≡ bits h l self }
        ensures upper_bound { result < 2 ^ (h + 1 - l) }
    {
        let number = (u128::from(self.hi) << 64) + u128::from(self.lo);
        ((number >> l) % (1 << (h + 1 - l))) as u64
    }

    // Whether a bit is set.
    fn bit(self, n: u8) -> bool
        requires { n < 80 }
        ensures { result ≡ is_set n self }
    {
        self.bits(n, n) == 1
    }
}

impl TryFrom<&[u8]> for Word {
    type Error = Refusal;

    ghost try_from_gives = { λ buf r. FromBufPost buf.now r };

    fn try_from(buf: &[u8]) -> Result<Word, Refusal> {
        Word::from_buf(buf)
    }
}
