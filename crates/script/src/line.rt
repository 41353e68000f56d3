// A line of a text, without its end and its comment: its parts, the kind that the first of them names, and the numbers behind it.
ghost use Rattle.std.specs.Prelude.{◌≡◌, [], ◌≤◌, not, position, MatchOption};
ghost use Rattle.std.specs.List.{position_or_len};
ghost use Rattle.script.specs.Tokens.{is_blank, tokens, FirstPart};
ghost use Rattle.script.specs.Line.{numbers_of, numbers_if, most_numbers, kind_if, of_kind, kind_of, arity_of, line_if, line_of};

use crate::number::number;
use refusals::Refusal;
use writer::WordKind;

// What a line adds: a packet, or a word of a kind.
#[derive(Clone, Copy)]
pub enum Kind {
    Packet,
    Word(WordKind),
}

// A line's kind and its numbers, with zeros behind them. No line has more than ten: those of a data word.
#[derive(Clone, Copy)]
pub struct Line {
    pub kind: Kind,
    pub n: [u64; 10],
}

// A blank, a tab, or the CR of a line that ends in CR LF.
fn is_blank(byte: u8) -> bool
    ensures { result ≡ is_blank byte }
{
    matches!(byte, b' ' | b'\t' | b'\r')
}

// The place of the first byte that is no blank.
fn begin_of(text: &[u8]) -> Option<usize>
    ensures { result ≡ position (λ b. not (is_blank b)) text.now }
{
    text.iter().position(|&byte| !is_blank(byte))
}

// How many bytes stand before the first blank.
fn end_of(text: &[u8]) -> usize
    ensures { result ≡ position_or_len is_blank text.now }
{
    text.iter().take_while(|&&byte| !is_blank(byte)).count()
}

// The first part of a text, and what follows it; none where all are blanks.
fn first_part(text: &[u8]) -> Option<(&[u8], &[u8])>
    ensures { MatchOption result (tokens text.now ≡ []) (λ p. FirstPart text.now p.0.now p.1.now) }
{
    let begin = begin_of(text)?;
    let text = &text[begin..];
    Some(text.split_at(end_of(text)))
}

// The parts of a text as numbers; none where a part is no number, or there are not so many.
fn read_numbers(text: &[u8], count: usize) -> Option<[u64; 10]>
    requires { count ≤ most_numbers }
    ensures { result ≡ numbers_if count (numbers_of [] (tokens text.now)) }
{
    let mut n = [0u64; 10];
    let mut rest = text;
    for i in 0..count {
        let Some((part, after)) = first_part(rest) else {
            return None;
        };
        n[i] = number(part)?;
        rest = after;
    }
    match first_part(rest) {
        Some(_) => None,
        None => Some(n),
    }
}

// The kind that a line's first part names. Not by `match` on the bytes: tried, and of its goals more than twenty stayed open, one for each arm that fails.
fn kind_of(name: &[u8]) -> Option<Kind>
    ensures { result ≡ kind_if (kind_of name.now) }
{
    if name == b"packet".as_slice() {
        return Some(Kind::Packet);
    }
    if name == b"ihw".as_slice() {
        return Some(Kind::Word(WordKind::Ihw));
    }
    if name == b"tdh".as_slice() {
        return Some(Kind::Word(WordKind::Tdh));
    }
    if name == b"tdt".as_slice() {
        return Some(Kind::Word(WordKind::Tdt));
    }
    if name == b"ddw0".as_slice() {
        return Some(Kind::Word(WordKind::Ddw0));
    }
    if name == b"cdw".as_slice() {
        return Some(Kind::Word(WordKind::Cdw));
    }
    if name == b"data".as_slice() {
        return Some(Kind::Word(WordKind::Data));
    }
    None
}

// How many numbers a line of a kind has.
fn arity(kind: Kind) -> usize
    ensures { result ≡ arity_of (of_kind kind) }
{
    match kind {
        Kind::Packet => 7,
        Kind::Word(WordKind::Ihw) => 1,
        Kind::Word(WordKind::Tdh) => 6,
        Kind::Word(WordKind::Tdt) => 7,
        Kind::Word(WordKind::Ddw0) => 4,
        Kind::Word(WordKind::Cdw) => 2,
        Kind::Word(WordKind::Data) => 10,
    }
}

// What a line says: nothing where it is empty, and refusal 102 where it can't be read.
#[tactic(auto, using(crate::proofs::Parsing::is_empty, crate::proofs::Parsing::no_kind, crate::proofs::Parsing::no_numbers, crate::proofs::Parsing::says_it))]
pub fn parse(text: &[u8]) -> Result<Option<Line>, Refusal>
    ensures { result ≡ line_if (line_of text.now) }
{
    let Some((name, rest)) = first_part(text) else {
        return Ok(None);
    };
    let kind = kind_of(name).ok_or(Refusal::Line)?;
    let n = read_numbers(rest, arity(kind)).ok_or(Refusal::Line)?;
    Ok(Some(Line { kind, n }))
}
