// Texts in ASCII at the front of a lent buffer: bytes, numbers in decimal, lines. A text that has no room is not begun.
// By hand, not by `write!`: `put`, `put_number`, `put_named` and `put_line` and what they say of a buffer (docs/READING.md) may not change.
#![tactic(auto)]

pub mod printing;

ghost use Rattle.std.specs.Prelude.{◌∷◌, ◌+◌, ◌*◌, ◌≤◌, length};
ghost use Rattle.ascii.specs.Text.{space, decimal, numeral, named, spaced, line, most_number, most_named, most_line, in_room, Puts};

pub const SPACE: u8 = 0x20;

pub const NEWLINE: u8 = 0x0A;

// The most bytes of a number and a byte beside it: 2^64 - 1 has 20 digits.
pub const MOST_NUMBER: usize = 21;

// The bytes of text.
pub fn put(out: &mut [u8], text: &[u8]) -> usize
    ensures puts { Puts (in_room (length text.now) (length out.old) text.now) out.old result out.new }
    ensures upper_bound { result ≤ length text.now }
{
    if out.len() < text.len() {
        return 0;
    }
    copy(out, text)
}

fn copy(out: &mut [u8], text: &[u8]) -> usize
    requires { length text.now ≤ length out.old }
    ensures { Puts text.now out.old result out.new }
{
    out[..text.len()].copy_from_slice(text);
    text.len()
}

// The digits of a number.
fn put_decimal(out: &mut [u8], n: u64) -> usize
    requires { 20 ≤ length out.old }
    ensures puts { Puts (decimal n) out.old result out.new }
    ensures upper_bound { result ≤ 20 }
{
    let mut digits = [0u8; 20];
    let k = io::decimal(n, &mut digits);
    copy(out, &digits[..k])
}

// A number and the byte after it.
pub fn put_number(out: &mut [u8], n: u64, end: u8) -> usize
    ensures puts { Puts (in_room most_number (length out.old) (numeral n end)) out.old result out.new }
    ensures upper_bound { result ≤ most_number }
{
    if out.len() < MOST_NUMBER {
        return 0;
    }
    let used = put_decimal(out, n);
    out[used] = end;
    used + 1
}

// A name, a number and the byte after it.
pub fn put_named(out: &mut [u8], name: &[u8], n: u64, end: u8) -> usize
    ensures puts { Puts (in_room (most_named name.now) (length out.old) (named name.now n end))
        out.old result out.new }
    ensures upper_bound { result ≤ most_named name.now }
{
    if out.len() < MOST_NUMBER {
        return 0;
    }
    if out.len() - MOST_NUMBER < name.len() {
        return 0;
    }
    let used = copy(out, name);
    used + put_number(&mut out[used..], n, end)
}

// A space and the number after it.
fn put_spaced(out: &mut [u8], n: u64) -> usize
    requires { most_number ≤ length out.old }
    ensures puts { Puts (space ∷ decimal n) out.old result out.new }
    ensures upper_bound { result ≤ most_number }
{
    let used = copy(out, b" ");
    used + put_decimal(&mut out[used..], n)
}

// Numbers, each behind a space.
fn put_numbers(out: &mut [u8], numbers: &[u64]) -> usize
    requires { most_number * length numbers.now ≤ length out.old }
    ensures puts { Puts (spaced numbers.now) out.old result out.new }
    ensures upper_bound { result ≤ most_number * length numbers.now }
{
    let mut used: usize = 0;
    for &n in numbers {
        used += put_spaced(&mut out[used..], n);
    }
    used
}

// A line: a name, and each number behind a space.
pub fn put_line(out: &mut [u8], name: &[u8], numbers: &[u64]) -> usize
    ensures { Puts (in_room (most_line name.now numbers.now) (length out.old)
        (line name.now numbers.now)) out.old result out.new }
{
    if out.len() < name.len() + 1 {
        return 0;
    }
    if (out.len() - name.len() - 1) / MOST_NUMBER < numbers.len() {
        return 0;
    }
    let named = copy(out, name);
    let used = named + put_numbers(&mut out[named..], numbers);
    used + copy(&mut out[used..], b"\n")
}
