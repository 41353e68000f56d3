// Two bench files compared, place by place, and what is printed of it, step by step into a lent buffer, or all of it to a writer. Document 02, ticket 5.
#![tactic(auto)]

ghost use Rattle.std.specs.Prelude.{◌≡◌, true, ◌+◌, ◌<◌, ◌≤◌, ◌^◌, length, OnOk};
ghost use Rattle.std.specs.Io.KnownBytes.{Appends};
ghost use Rattle.std.proofs.Common.{rules};
ghost use Rattle.refusals.specs.Refusals.{code};
ghost use Rattle.words.specs.Word.{word_bytes};
ghost use Rattle.words.specs.LittleEndian.{number_at};
ghost use Rattle.bench_file.specs.File.{header_bytes, packet_at, count_at, word_place};
ghost use Rattle.bench_file.specs.Reader.{has_packet, has_word};
ghost use Rattle.ascii.specs.Steps.{Prints, StepPost};
ghost use Rattle.comparison.specs.Compare.{refusal_of, common, field_of};
ghost use Rattle.comparison.specs.Text.{text, most_printed};
ghost use Rattle.comparison.specs.Listing.{first_stage, is_done, most_left, start_listing, standing, tell, packets_step, words_step, counts_step, packet_step};
ghost use Rattle.comparison.specs.Listing.{fields_step, bytes_step, step_of, Both, AtCount, AtPacket, AtField, AtByte, Good, printer};

mod text;

use ascii::printing::{self, ByStep, Filled};
use packet::Packet;
use refusals::Refusal;
use std::io::{self, Write};
use words::Word;

// The longest file that is compared.
pub const MOST_BYTES: usize = 28000;

// The most bytes that a step prints: the line of a byte, with five numbers of 20 digits.
pub const MOST_PRINTED: usize = 4 + ascii::MOST_NUMBER * 5 + 1;

// The fields of a packet beside its word count.
const FIELDS: usize = 7;

// Where both files are looked at: the header's counts, a packet's count, a field of a packet, a byte of a word of a packet.
#[derive(Clone, Copy)]
pub enum Where {
    Packets,
    Words,
    Count { packet: u64 },
    Field { packet: u64, field: u64 },
    Byte { packet: u64, word: u64, byte: u64 },
}

// What is compared: the number of the first file and that of the second, at a place of both.
#[derive(Clone, Copy)]
pub struct Place {
    pub at: Where,
    pub first: u64,
    pub second: u64,
}

// Steps: `Listing::step` (docs/READING.md) and the theorems on its steps (docs/TRUST.md) may not change; `print` below is the one function over them.
// What is looked at next: the packet counts, the word counts, a packet's count, whether there is one packet more, a field of it, a byte of its words;
// or how many differences there are, the refusal of a file, or nothing more.
#[derive(Clone, Copy)]
pub enum Stage {
    Packets,
    Words,
    Counts,
    Packet,
    Fields,
    Bytes,
    Last,
    Refused { number: u8, file: u8 },
    Done,
}

// A listing on the way: the packet, the field or byte of it, the words of the packets before it in either file, and the differences so far.
#[derive(Clone, Copy)]
pub struct Listing {
    pub stage: Stage,
    pub packet: usize,
    pub part: usize,
    pub first: usize,
    pub second: usize,
    pub count: u64,
}

// The refusal of a file: 6 where it is too long to be compared, else as for one file.
#[tactic(auto, unfolding(crate::specs::Compare::refusal_of))]
pub fn check(file: &[u8]) -> Result<(), Refusal>
    ensures { code result ≡ refusal_of file.now }
{
    if MOST_BYTES < file.len() {
        return Err(Refusal::File);
    }
    bench_file::check(file)
}

// The first file's refusal comes first.
#[tactic(auto, using(refusals::proofs::Numbers::refused))]
fn first_stage(first: Result<(), Refusal>, second: Result<(), Refusal>) -> Stage
    ensures { result ≡ first_stage (code first) (code second) }
{
    match (first, second) {
        (Err(refusal), _) => Stage::Refused {
            number: u8::from(refusal),
            file: 0,
        },
        (Ok(()), Err(refusal)) => Stage::Refused {
            number: u8::from(refusal),
            file: 1,
        },
        (Ok(()), Ok(())) => Stage::Packets,
    }
}

// How many packets both files have.
#[tactic(auto, using(crate::proofs::Looking::counted_there))]
fn common_packets(a: &[u8], b: &[u8]) -> usize
    requires header_bytes_in_bounds { header_bytes ≤ length a.now }
    requires header_bytes_in_bounds_2 { header_bytes ≤ length b.now }
    ensures { result ≡ common a.now b.now }
{
    bench_file::packet_count(a).min(bench_file::packet_count(b)) as usize
}

// The word count of a packet that the file has.
fn count_at(file: &[u8], packet: usize) -> u64
    requires { has_packet file.now packet ≡ true }
    ensures value { result ≡ count_at file.now packet }
    ensures upper_bound { result < 2 ^ 16 }
{
    let (_, words) = bench_file::packet_at(file, packet).unwrap();
    words as u64
}

// A field of a packet by its place in the layout.
fn field_of(packet: Packet, field: usize) -> u64
    ensures { result ≡ field_of packet field }
{
    match field {
        0 => packet.position,
        1 => packet.orbit as u64,
        2 => packet.trigger as u64,
        3 => packet.bc as u64,
        4 => packet.page as u64,
        5 => packet.stop as u64,
        _ => packet.format as u64,
    }
}

// A field of a packet that the file has.
fn field_at(file: &[u8], packet: usize, field: usize) -> u64
    requires { has_packet file.now packet ≡ true }
    ensures { result ≡ field_of (packet_at file.now packet) field }
{
    let (packet, _) = bench_file::packet_at(file, packet).unwrap();
    field_of(packet, field)
}

// A byte of a word that the file has, the word by its number in the whole file.
#[tactic(auto, using(bench_file::proofs::Finding::word_is, words::proofs::LittleEndian::byte))]
fn byte_at(file: &[u8], word: usize, byte: usize) -> u8
    requires word_value { has_word file.now word ≡ true }
    requires byte_lt_word_bytes { byte < word_bytes }
    ensures { result ≡ number_at file.now (word_place file.now word + byte) 1 }
{
    file[bench_file::word_at(file, word).unwrap() + byte]
}

// A stage at the front of both files.
fn begin(stage: Stage, count: u64) -> Listing
    ensures { result ≡ standing stage 0 0 0 0 count }
{
    Listing {
        stage,
        packet: 0,
        part: 0,
        first: 0,
        second: 0,
        count,
    }
}

// The listing with one difference more.
fn counted(l: Listing) -> Listing
    requires { l.count < 2 ^ 32 }
    ensures { result ≡ record { stage = l.stage; packet = l.packet; part = l.part; first = l.first; second = l.second; count = l.count + 1 } }
{
    Listing {
        count: l.count + 1,
        ..l
    }
}

// A place was looked at: where its numbers differ, its line is printed and counted.
fn told(next: Listing, place: Place, out: &mut [u8]) -> Filled<Listing>
    requires count_bound { next.count < 2 ^ 32 }
    requires most_printed_in_bounds { most_printed ≤ length out.old }
    ensures { Prints (tell next place) out.old result.next result.n out.new }
{
    if place.first == place.second {
        Filled { next: next, n: 0 }
    } else {
        Filled {
            n: text::put_place(out, place),
            next: counted(next),
        }
    }
}

#[tactic(auto, using(crate::proofs::Looking::counted_there, crate::proofs::Looking::header, crate::proofs::Looking::packets_looked))]
fn packets_step(l: Listing, a: &[u8], b: &[u8], out: &mut [u8]) -> Filled<Listing>
    requires both { Both a.now b.now }
    requires count_bound { l.count < 2 ^ 32 }
    requires most_printed_in_bounds { most_printed ≤ length out.old }
    ensures { Prints (packets_step a.now b.now l) out.old result.next result.n out.new }
{
    let place = Place {
        at: Where::Packets,
        first: bench_file::packet_count(a),
        second: bench_file::packet_count(b),
    };
    told(begin(Stage::Words, l.count), place, out)
}

#[tactic(auto, using(crate::proofs::Looking::counted_there, crate::proofs::Looking::header, crate::proofs::Looking::words_looked))]
fn words_step(l: Listing, a: &[u8], b: &[u8], out: &mut [u8]) -> Filled<Listing>
    requires both { Both a.now b.now }
    requires count_bound { l.count < 2 ^ 32 }
    requires most_printed_in_bounds { most_printed ≤ length out.old }
    ensures { Prints (words_step a.now b.now l) out.old result.next result.n out.new }
{
    let place = Place {
        at: Where::Words,
        first: bench_file::word_count(a),
        second: bench_file::word_count(b),
    };
    told(begin(Stage::Counts, l.count), place, out)
}

#[tactic(auto, using(crate::proofs::Looking::header, crate::proofs::Looking::both_have))]
fn counts_step(l: Listing, a: &[u8], b: &[u8], out: &mut [u8]) -> Filled<Listing>
    requires at_count { AtCount a.now b.now l }
    requires count_bound { l.count < 2 ^ 32 }
    requires most_printed_in_bounds { most_printed ≤ length out.old }
    ensures { Prints (counts_step a.now b.now l) out.old result.next result.n out.new }
{
    if l.packet < common_packets(a, b) {
        let place = Place {
            at: Where::Count {
                packet: l.packet as u64,
            },
            first: count_at(a, l.packet),
            second: count_at(b, l.packet),
        };
        told(
            Listing {
                packet: l.packet + 1,
                ..begin(Stage::Counts, l.count)
            },
            place,
            out,
        )
    } else {
        Filled {
            next: begin(Stage::Packet, l.count),
            n: 0,
        }
    }
}

#[tactic(auto, using(crate::proofs::Looking::header))]
fn packet_step(l: Listing, a: &[u8], b: &[u8]) -> Listing
    requires { AtPacket a.now b.now l }
    ensures { result ≡ (packet_step a.now b.now l).next }
{
    if l.packet < common_packets(a, b) {
        Listing {
            stage: Stage::Fields,
            part: 0,
            ..l
        }
    } else {
        begin(Stage::Last, l.count)
    }
}

#[tactic(auto, using(crate::proofs::Looking::both_have))]
fn fields_step(l: Listing, a: &[u8], b: &[u8], out: &mut [u8]) -> Filled<Listing>
    requires at_field { AtField a.now b.now l }
    requires count_bound { l.count < 2 ^ 32 }
    requires most_printed_in_bounds { most_printed ≤ length out.old }
    ensures { Prints (fields_step a.now b.now l) out.old result.next result.n out.new }
{
    if l.part < FIELDS {
        let place = Place {
            at: Where::Field {
                packet: l.packet as u64,
                field: l.part as u64,
            },
            first: field_at(a, l.packet, l.part),
            second: field_at(b, l.packet, l.part),
        };
        told(
            Listing {
                stage: Stage::Fields,
                part: l.part + 1,
                ..l
            },
            place,
            out,
        )
    } else {
        Filled {
            next: Listing {
                stage: Stage::Bytes,
                part: 0,
                ..l
            },
            n: 0,
        }
    }
}

#[tactic(auto, using(crate::proofs::Looking::few, crate::proofs::Looking::both_have, crate::proofs::Looking::both_few, crate::proofs::Looking::both_have_word))]
fn bytes_step(l: Listing, a: &[u8], b: &[u8], out: &mut [u8]) -> Filled<Listing>
    requires at_byte { AtByte a.now b.now l }
    requires count_bound { l.count < 2 ^ 32 }
    requires most_printed_in_bounds { most_printed ≤ length out.old }
    ensures { Prints (bytes_step a.now b.now l) out.old result.next result.n out.new }
{
    let first = count_at(a, l.packet);
    let second = count_at(b, l.packet);
    if l.part < Word::SIZE * first.min(second) as usize {
        let word = l.part / Word::SIZE;
        let byte = l.part % Word::SIZE;
        let place = Place {
            at: Where::Byte {
                packet: l.packet as u64,
                word: word as u64,
                byte: byte as u64,
            },
            first: byte_at(a, l.first + word, byte) as u64,
            second: byte_at(b, l.second + word, byte) as u64,
        };
        told(
            Listing {
                stage: Stage::Bytes,
                part: l.part + 1,
                ..l
            },
            place,
            out,
        )
    } else {
        Filled {
            next: Listing {
                stage: Stage::Packet,
                packet: l.packet + 1,
                part: 0,
                first: l.first + first as usize,
                second: l.second + second as usize,
                ..l
            },
            n: 0,
        }
    }
}

// The step by the stage.
fn stage_step(l: Listing, a: &[u8], b: &[u8], out: &mut [u8]) -> Filled<Listing>
    requires good { Good a.now b.now l }
    requires most_printed_in_bounds { most_printed ≤ length out.old }
    ensures { Prints (step_of a.now b.now l) out.old result.next result.n out.new }
{
    match l.stage {
        Stage::Packets => packets_step(l, a, b, out),
        Stage::Words => words_step(l, a, b, out),
        Stage::Counts => counts_step(l, a, b, out),
        Stage::Packet => Filled {
            next: packet_step(l, a, b),
            n: 0,
        },
        Stage::Fields => fields_step(l, a, b, out),
        Stage::Bytes => bytes_step(l, a, b, out),
        Stage::Last => Filled {
            n: ascii::put_line(out, b"differences", &[l.count]),
            next: begin(Stage::Done, l.count),
        },
        Stage::Refused { number, file } => Filled {
            n: ascii::put_line(out, b"refused", &[number as u64, file as u64]),
            next: begin(Stage::Done, l.count),
        },
        Stage::Done => Filled { next: l, n: 0 },
    }
}

impl Listing {
    // The start: both files are checked before anything is printed.
    pub fn start(a: &[u8], b: &[u8]) -> Listing
        ensures { (result ≡ start_listing a.now b.now) × Good a.now b.now result }
    {
        let first = check(a);
        let second = check(b);
        begin(first_stage(first, second), 0)
    }

    // Whether all is printed.
    pub fn finished(self) -> bool
        ensures { result ≡ is_done self.stage }
    {
        matches!(self.stage, Stage::Done)
    }

    // One step: at most one line, at the front of out, whose rest stays. A buffer of at least MOST_PRINTED bytes brings the listing on.
    pub fn step(self, a: &[u8], b: &[u8], out: &mut [u8]) -> Filled<Listing>
        requires { Good a.now b.now self }
        ensures { StepPost (printer a.now b.now) self out.old result.next result.n out.new }
    {
        if out.len() < MOST_PRINTED {
            return Filled { next: self, n: 0 };
        }
        stage_step(self, a, b, out)
    }
}

// The listing of two files, as it is printed by steps.
#[derive(Drop)]
struct Files<'a> {
    a: &'a [u8],
    b: &'a [u8],
}

impl ByStep for Files<'_> {
    type State = Listing;

    ghost printer = { λ it. printer it.a.now it.b.now };

    ghost left = { λ it. most_left it.a.now it.b.now };

    fn most(&self) -> usize {
        MOST_PRINTED
    }

    fn finished(&self, listing: Listing) -> bool {
        listing.finished()
    }

    fn step(&self, listing: Listing, out: &mut [u8]) -> Filled<Listing> {
        listing.step(self.a, self.b, out)
    }

    ghost most_in_bounds = { λ it. Prim.search rules };
}

// Prints where two files differ, up to a write that fails.
pub fn print<W: Write>(a: &[u8], b: &[u8], to: &mut W) -> io::Result<()>
    ensures { OnOk result (Appends (W.contents to.old) (W.contents to.new) (text a.now b.now)) }
{
    printing::print(&Files { a, b }, Listing::start(a, b), to)
}
