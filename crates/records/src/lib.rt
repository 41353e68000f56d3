// The records of a word: rows, each with a condition, of which those that hold are written into a lent buffer.
// Document 01, "Calls and settings": "A record is four 64-bit numbers: position, code, first, second"; 02, ticket 7: and fifth the count of packets.
#![tactic(auto)]

ghost use Rattle.std.specs.Prelude.{◌≡◌, cond, ◌+◌, ◌≤◌, length};
ghost use Rattle.words.specs.Lists.{over};
ghost use Rattle.records.specs.Records.{record_width, when, none, silent, count, record_at, numbers, WritePost};

use refusals::Refusal;

// Numbers of a record.
pub const RECORD_WIDTH: usize = 5;

// The most records that a word gives.
pub const MOST_RECORDS: usize = 6;

// A record's code and its two numbers, and whether it is given. The position is the word's, and the count of packets the tracker's.
#[derive(Clone, Copy)]
pub struct Row {
    pub on: bool,
    pub code: u64,
    pub first: u64,
    pub second: u64,
}

pub fn when(on: bool, code: u64, first: u64, second: u64) -> Row
    ensures { result ≡ when on code first second }
{
    Row {
        on: on,
        code: code,
        first: first,
        second: second,
    }
}

// A place with no record.
pub fn none() -> Row
    ensures { result ≡ none }
{
    when(false, 0, 0, 0)
}

// One number or the other.
pub fn pick(b: bool, x: u64, y: u64) -> u64
    ensures value { result ≡ cond b x y }
    ensures upper_bound { result ≤ x + y }
{
    if b { x } else { y }
}

// Whether no record is given.
pub fn silent(rows: [Row; MOST_RECORDS]) -> bool
    ensures { result ≡ silent rows }
{
    // By hand: `rows.iter().any(..)` takes 3% more instructions a word of a clean stream (41.8 for 40.6).
    let mut any = false;
    for row in &rows {
        any |= row.on;
    }
    !any
}

// How many records are given.
fn count(rows: [Row; MOST_RECORDS]) -> usize
    ensures { result ≡ count rows }
{
    // By hand: `filter(..).count()`, with that `any`, takes 46% more where each word gives records (479 for 329).
    let mut n = 0;
    for row in &rows {
        if row.on {
            n += 1;
        }
    }
    n
}

// One record at the front of a buffer.
fn put(out: &mut [u64], position: u64, packet: u64, row: Row)
    requires { record_width ≤ length out.old }
    ensures { out.new ≡ over (numbers (record_at position packet row)) out.old }
{
    out[0] = position;
    out[1] = row.code;
    out[2] = row.first;
    out[3] = row.second;
    out[4] = packet;
}

// The records that are given, at the front of a buffer, whose rest stays. Where they exceed its room nothing is written; that is asked by a product, since a
// division by five takes four instructions more.
#[tactic(auto, using(crate::proofs::Given::counted))]
pub fn write(
    out: &mut [u64],
    position: u64,
    packet: u64,
    rows: [Row; MOST_RECORDS],
) -> Result<u64, Refusal>
    ensures { WritePost position packet rows out.old result out.new }
{
    let n = count(rows);
    if out.len() < RECORD_WIDTH * n {
        return Err(Refusal::Room);
    }
    let mut used: usize = 0;
    for row in &rows {
        if row.on {
            put(&mut out[used..], position, packet, *row);
            used += RECORD_WIDTH;
        }
    }
    Ok(n as u64)
}
