// The bench file: whether bytes are one, and a reader that gives its packets and words in order.
// Document 01, "Bench file", and the refusals 6, 7, 5, 3 of a file.
#![tactic(auto)]

ghost use Rattle.std.specs.Prelude.{◌≡◌, ◌+◌, ◌<◌, ◌≤◌, ◌^◌, length};
ghost use Rattle.refusals.specs.Refusals.{code};
ghost use Rattle.bench_file.specs.File.{header_bytes, packet_bytes, packet_place, packet_of, words_before, misfit, packet_refusal, first_refusal};
ghost use Rattle.bench_file.specs.File.{check_of};
ghost use Rattle.bench_file.specs.Reader.{reader_at, header_number, has_packet, has_word, past_packet, past_word, after_packet, after_word};
ghost use Rattle.bench_file.specs.Reader.{NextPacketPost, NextWordPost, NextPost};

use packet::{MAX_WORDS, Packet};
use refusals::Refusal;
use words::Word;
use words::little_endian::get;

// The longest file.
pub const MOST_BYTES: usize = 60000;

pub const HEADER_BYTES: usize = 16;

pub const PACKET_BYTES: usize = 24;

// A file and a place in it: the next packet, and the next word of the whole file, both from 0.
#[derive(Clone, Copy)]
pub struct FileReader<'a> {
    pub bytes: &'a [u8],
    pub packet: usize,
    pub word: usize,
}

// What comes next: a packet and how many words it has, or a word of ten bytes at a place of the file. At the end nothing does.
#[derive(Clone, Copy)]
pub enum Found {
    Packet { packet: Packet, words: u16 },
    Word { at: usize },
}

// The packet whose 24 bytes stand at a place.
fn load_packet(file: &[u8], at: usize) -> Packet
    requires { at + packet_bytes ≤ length file.now }
    ensures { result ≡ packet_of file.now at }
{
    Packet {
        position: get::<8>(file, at),
        orbit: get::<4>(file, at + 8) as u32,
        trigger: get::<4>(file, at + 12) as u32,
        bc: get::<2>(file, at + 16) as u16,
        page: get::<2>(file, at + 18) as u16,
        stop: get::<1>(file, at + 20) as u8,
        format: get::<1>(file, at + 21) as u8,
    }
}

// Refusal 6: the length and the offsets are not those of a file.
#[tactic(auto, unfolding(crate::specs::File::misfit))]
fn is_misfit(file: &[u8]) -> bool
    ensures { result ≡ misfit file.now }
{
    let length = file.len();
    if length < HEADER_BYTES {
        return true;
    }
    let packets = get::<4>(file, 0) as usize;
    let words = get::<4>(file, 4) as usize;
    let packets_at = get::<4>(file, 8) as usize;
    let words_at = get::<4>(file, 12) as usize;
    MOST_BYTES < length
        || packets_at != HEADER_BYTES
        || words_at != HEADER_BYTES + PACKET_BYTES * packets
        || length != words_at + Word::SIZE * words
}

// The sum of the word counts of the first packets.
#[tactic(auto, using(crate::proofs::Checking::one_more), unfolding(crate::specs::File::words_before))]
fn sum_counts(file: &[u8], packets: usize) -> u64
    requires packets_in_bounds { packet_place packets ≤ length file.now }
    requires packets_bound { packets ≤ 60000 }
    ensures { result ≡ words_before file.now packets }
{
    let mut sum: u64 = 0;
    for packet in 0..packets {
        sum += get::<2>(file, HEADER_BYTES + PACKET_BYTES * packet + 22);
    }
    sum
}

// Refusal 5 before 3 of the packet at a place.
fn check_packet(file: &[u8], at: usize) -> Result<(), Refusal>
    requires { at + packet_bytes ≤ length file.now }
    ensures { code result ≡ packet_refusal file.now at }
{
    if !packet::in_range(load_packet(file, at)) {
        return Err(Refusal::Packet);
    }
    if get::<2>(file, at + 22) > MAX_WORDS as u64 {
        return Err(Refusal::Full);
    }
    Ok(())
}

// The first of these refusals.
fn check_packets(file: &[u8], packets: usize) -> Result<(), Refusal>
    requires { packet_place packets ≤ length file.now }
    ensures { code result ≡ first_refusal file.now packets 0 }
{
    for i in 0..packets {
        check_packet(file, HEADER_BYTES + PACKET_BYTES * i)?;
    }
    Ok(())
}

// The refusal of a file: 6, 7, then for each packet 5, 3.
pub fn check(file: &[u8]) -> Result<(), Refusal>
    ensures { code result ≡ check_of file.now }
{
    if is_misfit(file) {
        return Err(Refusal::File);
    }
    let packets = get::<4>(file, 0) as usize;
    if sum_counts(file, packets) != get::<4>(file, 4) {
        return Err(Refusal::Counts);
    }
    check_packets(file, packets)
}

// A number of the header; in fewer bytes than a header has, 0.
#[tactic(auto, unfolding(crate::specs::Reader::header_number))]
fn header_number(file: &[u8], at: usize) -> u64
    requires { at + 4 ≤ header_bytes }
    ensures value { result ≡ header_number file.now at }
    ensures upper_bound { result < 2 ^ 32 }
{
    if file.len() < HEADER_BYTES {
        return 0;
    }
    get::<4>(file, at)
}

// How many packets the header counts.
pub fn packet_count(file: &[u8]) -> u64
    ensures value { result ≡ header_number file.now 0 }
    ensures upper_bound { result < 2 ^ 32 }
{
    header_number(file, 0)
}

// How many words it counts.
pub fn word_count(file: &[u8]) -> u64
    ensures value { result ≡ header_number file.now 4 }
    ensures upper_bound { result < 2 ^ 32 }
{
    header_number(file, 4)
}

// Whether the header counts a packet and its bytes lie in the file.
#[tactic(auto, unfolding(crate::specs::Reader::header_number))]
fn has_packet(file: &[u8], packet: usize) -> bool
    ensures { result ≡ has_packet file.now packet }
{
    packet < packet_count(file) as usize
        && HEADER_BYTES + PACKET_BYTES * packet + PACKET_BYTES <= file.len()
}

// Whether the header counts a word and its bytes lie in the file.
#[tactic(auto, unfolding(crate::specs::Reader::header_number))]
fn has_word(file: &[u8], word: usize) -> bool
    ensures { result ≡ has_word file.now word }
{
    word < word_count(file) as usize
        && HEADER_BYTES
            + PACKET_BYTES * packet_count(file) as usize
            + Word::SIZE * word
            + Word::SIZE
            <= file.len()
}

// A packet of the file by its number, with its word count.
#[tactic(auto, unfolding(crate::specs::Reader::packet_found))]
pub fn packet_at(file: &[u8], packet: usize) -> Option<(Packet, u16)>
    ensures { NextPacketPost file.now packet result }
{
    if has_packet(file, packet) {
        let at = HEADER_BYTES + PACKET_BYTES * packet;
        Some((load_packet(file, at), get::<2>(file, at + 22) as u16))
    } else {
        None
    }
}

// The place of a word of the file by its number in the whole file.
#[tactic(auto, unfolding(crate::specs::Reader::word_found))]
pub fn word_at(file: &[u8], word: usize) -> Option<usize>
    ensures { NextWordPost file.now word result }
{
    if has_word(file, word) {
        Some(HEADER_BYTES + PACKET_BYTES * get::<4>(file, 0) as usize + Word::SIZE * word)
    } else {
        None
    }
}

// The cursor past a packet; where there is none it stays.
#[tactic(auto, unfolding(crate::specs::Reader::past_packet))]
fn past_packet(file: &[u8], packet: usize) -> usize
    ensures { result ≡ past_packet file.now packet }
{
    if has_packet(file, packet) {
        packet + 1
    } else {
        packet
    }
}

// The cursor past a word; where there is none it stays.
#[tactic(auto, unfolding(crate::specs::Reader::past_word))]
fn past_word(file: &[u8], word: usize) -> usize
    ensures { result ≡ past_word file.now word }
{
    if has_word(file, word) { word + 1 } else { word }
}

// A reader at a place; at the start both cursors are 0.
pub fn reader_at<'a>(bytes: &'a [u8], packet: usize, word: usize) -> FileReader<'a>
    ensures { result ≡ reader_at bytes.entry packet word }
{
    FileReader {
        bytes,
        packet,
        word,
    }
}

// The reader's next packet, with its word count.
pub fn next_packet<'a>(reader: FileReader<'a>) -> Option<(Packet, u16)>
    ensures { NextPacketPost reader.entry.bytes.now reader.entry.packet result }
{
    packet_at(reader.bytes, reader.packet)
}

// The place of the reader's next word.
pub fn next_word<'a>(reader: FileReader<'a>) -> Option<usize>
    ensures { NextWordPost reader.entry.bytes.now reader.entry.word result }
{
    word_at(reader.bytes, reader.word)
}

// The reader past its next packet.
pub fn after_packet<'a>(reader: FileReader<'a>) -> FileReader<'a>
    ensures { result ≡ after_packet reader.entry }
{
    FileReader {
        bytes: reader.bytes,
        packet: past_packet(reader.bytes, reader.packet),
        word: reader.word,
    }
}

// The reader past its next word.
pub fn after_word<'a>(reader: FileReader<'a>) -> FileReader<'a>
    ensures { result ≡ after_word reader.entry }
{
    FileReader {
        bytes: reader.bytes,
        packet: reader.packet,
        word: past_word(reader.bytes, reader.word),
    }
}

// From a plain place to a reader and its next packet.
fn packet_from(bytes: &[u8], packet: usize, word: usize) -> Option<(Packet, u16)>
    ensures { NextPacketPost bytes.now packet result }
{
    next_packet(reader_at(bytes, packet, word))
}

// From a plain place to a reader and its next word.
fn word_from(bytes: &[u8], packet: usize, word: usize) -> Option<usize>
    ensures { NextWordPost bytes.now word result }
{
    next_word(reader_at(bytes, packet, word))
}

// For a caller that holds the file itself and the place as numbers: what its reader gives next. A word while words of the packet at hand are left, then
// the next packet, then the end.
pub fn next(file: &[u8], packet: usize, word: usize, left: usize) -> Option<Found>
    ensures { NextPost file.now packet word left result }
{
    if left == 0 {
        let (packet, words) = packet_from(file, packet, word)?;
        Some(Found::Packet { packet, words })
    } else {
        let at = word_from(file, packet, word)?;
        Some(Found::Word { at })
    }
}

// The packet cursor of such a caller's reader past its next packet.
pub fn packet_after(bytes: &[u8], packet: usize, word: usize) -> usize
    ensures { result ≡ past_packet bytes.now packet }
{
    after_packet(reader_at(bytes, packet, word)).packet
}

// The word cursor of such a caller's reader past its next word.
pub fn word_after(bytes: &[u8], packet: usize, word: usize) -> usize
    ensures { result ≡ past_word bytes.now word }
{
    after_word(reader_at(bytes, packet, word)).word
}
