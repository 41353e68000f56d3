// A number in a text: decimal, or hexadecimal behind 0x.
ghost use Rattle.std.specs.Prelude.{◌≡◌};
ghost use Rattle.script.specs.Numbers.{read_as, is_hexadecimal, number_of, IsBase};

const DECIMAL: u32 = 10;

const HEXADECIMAL: u32 = 16;

// The number of these digits: none where a byte is no digit, or from 2^64 on.
#[tactic(auto, using(crate::proofs::Digits::no_digit_told, crate::proofs::Digits::product_told, crate::proofs::Digits::sum_passed, crate::proofs::Digits::one_more, crate::proofs::Digits::ended))]
fn digits(text: &[u8], base: u32) -> Option<u64>
    requires { IsBase base }
    ensures { result ≡ read_as base 0 text.now }
{
    let mut n: u64 = 0;
    for &byte in text {
        let digit = char::from(byte).to_digit(base)?;
        n = n
            .checked_mul(u64::from(base))?
            .checked_add(u64::from(digit))?;
    }
    Some(n)
}

// Whether a digit stands behind 0x.
fn is_hexadecimal(text: &[u8]) -> bool
    ensures { result ≡ is_hexadecimal text.now }
{
    text.len() > 2 && (text[0] == b'0') & (text[1] == b'x')
}

// The number of a part of a line: none where it is no number, or from 2^64 on.
#[tactic(auto, using(crate::proofs::Digits::hexadecimal, crate::proofs::Digits::empty, crate::proofs::Digits::decimal))]
pub fn number(text: &[u8]) -> Option<u64>
    ensures { result ≡ number_of text.now }
{
    if is_hexadecimal(text) {
        return digits(&text[2..], HEXADECIMAL);
    }
    if text.is_empty() {
        return None;
    }
    digits(text, DECIMAL)
}
