// benchwrite: lines of text on standard input, a bench file on standard output, or one line `refused N at line L`. docs/RULES.md, "The text form".
// Its buffers, with the 1,024 bytes of eprintln, are together below 65,536 bytes, whatever the length of the text.
#![tactic(auto)]

ghost use Rattle.std.specs.Prelude.{◌≡◌, ◌≤◌, length, take, IfSome, MatchResult};
ghost use Rattle.bench_file.specs.File.{most_bytes};
ghost use Rattle.script.specs.Outcome.{most_line, IsAnswer};
ghost use Rattle.script.specs.Feeding.{HasRead};

use script::{Answer, Reading};
use std::io::Read;

// Bytes that are read at once.
const PIECE: usize = 512;

// Reads of one text: below 2^63 bytes in all, so that no line's number passes the last one. A text that goes on is not read to its end.
const MOST_READS: u64 = 0x3F_FFFF_FFFF_FFFF;

// Reads to the end of the text or to a line that is refused; refused where a read fails, or the text goes on. How far the text was read is said in each case.
fn read_text<R: Read>(
    from: &mut R,
    buffer: &mut [u8],
    held: &mut [u8],
    piece: &mut [u8],
) -> Result<Reading, Reading>
    requires buffer_len { length buffer.old ≡ most_bytes }
    requires held_len { length held.old ≡ most_line }
    requires piece_len_bound { length piece.old ≤ 512 }
    ensures { MatchResult result (λ r. HasRead buffer.old held.old buffer.new held.new r) (λ r. HasRead buffer.old held.old buffer.new held.new r) }
{
    let mut reading = script::start();
    // No `for`: that the reads are counted, so that the program ends, is a fact that the edit reads_not_counted is refused by.
    let mut reads: u64 = 0;
    while reads < MOST_READS {
        let Ok(n) = from.read(piece) else {
            return Err(reading);
        };
        if n == 0 {
            return Ok(reading);
        }
        reading = script::feed(buffer, held, reading, &piece[..n]);
        if reading.refusal != 0 {
            return Ok(reading);
        }
        reads += 1;
    }
    Err(reading)
}

// The answer of the text that is read; none where it was not read to its end.
fn make<R: Read>(
    from: &mut R,
    buffer: &mut [u8],
    held: &mut [u8],
    piece: &mut [u8],
) -> Option<Answer>
    requires buffer_len { length buffer.old ≡ most_bytes }
    requires held_len { length held.old ≡ most_line }
    requires piece_len_bound { length piece.old ≤ 512 }
    ensures answer { IfSome result (λ a. IsAnswer (take a.n buffer.new)) }
    ensures n_in_bounds { IfSome result (λ a. a.n ≤ length buffer.new) }
{
    let Ok(reading) = read_text(from, buffer, held, piece) else {
        return None;
    };
    Some(script::finish(buffer, held, reading))
}

// Writes the answer. A file is checked before a byte of it is written.
fn run<R: Read>(
    rt: &(impl Print + Eprint),
    from: &mut R,
    buffer: &mut [u8],
    held: &mut [u8],
    piece: &mut [u8],
)
    requires buffer_len { length buffer.old ≡ most_bytes }
    requires held_len { length held.old ≡ most_line }
    requires piece_len_bound { length piece.old ≤ 512 }
{
    let Some(answer) = make(from, buffer, held, piece) else {
        let _ = rt.eprintln("benchwrite: standard input cannot be read");
        return;
    };
    let made = &buffer[..answer.n];
    if answer.refusal == 0 && bench_file::check(made).is_err() {
        let _ = rt.eprintln("benchwrite: what was made is no bench file");
        return;
    }
    let _ = rt.write_all(made);
}

fn main(rt: HostRuntime) {
    let mut buffer = [0u8; bench_file::MOST_BYTES];
    let mut held = [0u8; script::MOST_LINE];
    let mut piece = [0u8; PIECE];
    run(&rt, &mut rt.stdin(), &mut buffer, &mut held, &mut piece);
}
