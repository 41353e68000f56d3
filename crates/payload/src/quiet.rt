// Runs of quiet words: data words whose id alone tells that they give no record. Nearly all words of a clean page are such. Any other word without a record is
// silent (`records::silent`), which its rows tell.
ghost use Rattle.std.specs.Prelude.{◌≡◌, ◌+◌, ◌-◌, ◌%◌, ◌≤◌, min, length};
ghost use Rattle.words.specs.Word.{word_bytes};
ghost use Rattle.payload.specs.Quiet.{checked_lanes, has_id, QuietIds, HaveIds};

use words::Word;

// All 28 lanes.
const ALL_LANES: u32 = 0xFFF_FFFF;

// The lanes whose data words give no record: without running checks all.
pub(crate) fn checked_lanes(running: bool, lanes: u32) -> u32
    ensures { result ≡ checked_lanes running lanes }
{
    if running { lanes } else { ALL_LANES }
}

// The data ids of these lanes, as bits by the id's remainder by 64. Inner ids are 32 + lane. Outer ids are 64 + lane, and one more for each seven lanes.
pub(crate) fn quiet_ids(lanes: u32) -> u64
    ensures { QuietIds lanes result }
{
    let first = lanes as u64;
    let second = first / 0x80;
    let third = second / 0x80;
    let last = third / 0x80;
    let outer = ((last % 0x80 * 0x100 + third % 0x80) * 0x100 + second % 0x80) * 0x100
        + first % 0x80;
    first % 0x200 * 0x1_0000_0000 + outer
}

fn has_id(ids: u64, id: u8) -> bool
    ensures { result ≡ has_id ids id }
{
    if (id < 32) | (id >= 96) {
        return false;
    }
    (ids >> (id % 64)) % 2 == 1
}

// How far the words from a place on have such ids, at most to `end`.
pub(crate) fn have_ids(ids: u64, bytes: &[u8], at: usize, end: usize) -> usize
    requires { (at ≤ end) × ((end ≤ length bytes.now) × ((end - at) % word_bytes ≡ 0)) }
    ensures { HaveIds ids bytes.now at end result }
{
    let mut i = at;
    while i < end {
        if !has_id(ids, bytes[i + Word::ID_BYTE]) {
            return i;
        }
        i = i + Word::SIZE;
    }
    i
}

pub(crate) fn least(x: usize, y: usize) -> usize
    ensures { result ≡ min x y }
{
    if x < y { x } else { y }
}
