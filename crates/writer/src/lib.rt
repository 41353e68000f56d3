// A writer of words: from fields to the ten bytes. 02, ticket 1, for boxes that are tested before a stave is wired.
#![tactic(auto)]

ghost use Rattle.std.specs.Prelude.{◌≡◌, [], ◌∷◌, ◌++◌, length};
ghost use Rattle.writer.specs.Write.{bytes_of, data_bytes, fields_in, fitted, PackPost, Writes, WritesData};
ghost use Rattle.refusals.specs.Refusals.{code};
ghost use Rattle.words.specs.Word.{word_bytes, word_of, value};

use refusals::Refusal;
use words::Word;

mod packing;
mod reading;

// The bytes of a data word before its id.
pub const DATA_BYTES: usize = 9;

// The kinds of word that can be written and read back.
#[derive(Clone, Copy)]
pub enum WordKind {
    Ihw,
    Tdh,
    Tdt,
    Ddw0,
    Cdw,
    Data,
}

// The fields of a word of each kind. Each is a number of 64 bits, flags too, so that one that is too wide is seen and refused.
// An enum can hold no array: the nine bytes of a data word are the numbers low, bits 63:0, and high, bits 71:64.
#[derive(Clone, Copy)]
pub enum Fields {
    Ihw {
        active_lanes: u64,
    },
    Tdh {
        trigger_type: u64,
        internal_trigger: u64,
        no_data: u64,
        continuation: u64,
        trigger_bc: u64,
        trigger_orbit: u64,
    },
    Tdt {
        lane_status: u64,
        timeout_to_start: u64,
        timeout_start_stop: u64,
        timeout_in_idle: u64,
        lane_starts_violation: u64,
        transmission_timeout: u64,
        packet_done: u64,
    },
    Ddw0 {
        lane_status: u64,
        lane_starts_violation: u64,
        transmission_timeout: u64,
        index: u64,
    },
    Cdw {
        user_fields: u64,
        index: u64,
    },
    Data {
        id: u64,
        low: u64,
        high: u64,
    },
}

// The fields of a word, read as one of a kind, whatever its id.
pub fn read(kind: WordKind, word: Word) -> Fields
    ensures { result ≡ fields_in kind word }
{
    match kind {
        WordKind::Ihw => reading::ihw(word),
        WordKind::Tdh => reading::tdh(word),
        WordKind::Tdt => reading::tdt(word),
        WordKind::Ddw0 => reading::ddw0(word),
        WordKind::Cdw => reading::cdw(word),
        WordKind::Data => reading::data(word),
    }
}

// The word that fields are, where each of them fits.
fn word_of(fields: Fields) -> Option<Word>
    ensures { result ≡ fitted fields }
{
    match fields {
        Fields::Ihw { active_lanes } => packing::ihw(active_lanes),
        Fields::Tdh {
            trigger_type,
            internal_trigger,
            no_data,
            continuation,
            trigger_bc,
            trigger_orbit,
        } => packing::tdh(
            trigger_type,
            internal_trigger,
            no_data,
            continuation,
            trigger_bc,
            trigger_orbit,
        ),
        Fields::Tdt {
            lane_status,
            timeout_to_start,
            timeout_start_stop,
            timeout_in_idle,
            lane_starts_violation,
            transmission_timeout,
            packet_done,
        } => packing::tdt(
            lane_status,
            timeout_to_start,
            timeout_start_stop,
            timeout_in_idle,
            lane_starts_violation,
            transmission_timeout,
            packet_done,
        ),
        Fields::Ddw0 {
            lane_status,
            lane_starts_violation,
            transmission_timeout,
            index,
        } => packing::ddw0(
            lane_status,
            lane_starts_violation,
            transmission_timeout,
            index,
        ),
        Fields::Cdw { user_fields, index } => packing::cdw(user_fields, index),
        Fields::Data { id, low, high } => packing::data(id, low, high),
    }
}

// The word that fields are, or refusal 8: a field is wider than its bits, or a data word's id is no data id.
#[tactic(auto, using(crate::proofs::Writing::packs_fitted))]
pub fn pack(fields: Fields) -> Result<Word, Refusal>
    ensures { PackPost fields result }
{
    word_of(fields).ok_or(Refusal::Field)
}

// The ten bytes of a word.
fn store(word: Word, out: &mut [u8])
    requires { length out.old ≡ word_bytes }
    ensures { out.new ≡ bytes_of word_bytes (value word) }
{
    out[..8].copy_from_slice(&word.lo.to_le_bytes());
    out[8..].copy_from_slice(&word.hi.to_le_bytes());
}

// The ten bytes of a word from its fields, into a slice of ten bytes. Refused, with 8 before 1, it leaves the slice as it was.
pub fn write(fields: Fields, out: &mut [u8]) -> Result<(), Refusal>
    ensures { Writes fields out.old (code result) out.new }
{
    let word = pack(fields)?;
    if out.len() != Word::SIZE {
        return Err(Refusal::Size);
    }
    store(word, out);
    Ok(())
}

// The nine bytes of a data word as a word whose id is still 0.
fn nine(bytes: &[u8]) -> Word
    requires { length bytes.now ≡ data_bytes }
    ensures { result ≡ word_of (bytes.now ++ (0 ∷ [])) }
{
    let mut ten = [0; Word::SIZE];
    ten[..DATA_BYTES].copy_from_slice(bytes);
    Word::load(ten)
}

// The same of a data word from its id and its nine bytes; a source of another length is refused with 8.
pub fn write_data(id: u64, bytes: &[u8], out: &mut [u8]) -> Result<(), Refusal>
    ensures { WritesData id bytes.now out.old (code result) out.new }
{
    if bytes.len() != DATA_BYTES {
        return Err(Refusal::Field);
    }
    let word = nine(bytes);
    write(
        Fields::Data {
            id: id,
            low: word.lo,
            high: word.hi as u64,
        },
        out,
    )
}
