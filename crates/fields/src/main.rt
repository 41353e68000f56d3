// Prints what each word on standard input is taken as, and its fields: ten bytes a word, from the start state on. A line says what of the
// input is not shown. A bench file is not shown at all: its header and packets are no words.
#![tactic(auto)]

ghost use Rattle.std.specs.Prelude.{◌<◌, ◌^◌, IfSome};

use payload_fsm::{Advanced, ItsPayloadFsmContinuous, ItsPayloadWord};
use words::Word;
use words::cdw::Cdw;
use words::ddw::Ddw0;
use words::ihw::Ihw;
use words::lanes::lane_answer;
use words::little_endian::get;
use words::status_word::StatusWord;
use words::tdh::Tdh;
use words::tdt::Tdt;

// The bytes of the most words that are shown: a packet's 4,096.
const MOST_BYTES: usize = 40960;

fn text(rt: &impl Print, bytes: &[u8]) {
    let _ = rt.write_all(bytes);
}

fn field(rt: &impl Print, name: &[u8], n: u64) {
    text(rt, b" ");
    text(rt, name);
    text(rt, b" ");
    let _ = rt.print(n);
}

fn show_ihw(rt: &impl Print, name: &[u8], word: Word) {
    let ihw = Ihw { word };
    let lanes = ihw.read();
    text(rt, name);
    field(rt, b"active_lanes", lanes.active as u64);
    field(rt, b"lanes_on", lanes.on as u64);
}

fn show_tdh(rt: &impl Print, name: &[u8], word: Word) {
    let tdh = Tdh { word };
    text(rt, name);
    field(rt, b"trigger_type", tdh.trigger_type() as u64);
    field(rt, b"internal_trigger", tdh.internal_trigger() as u64);
    field(rt, b"no_data", tdh.no_data() as u64);
    field(rt, b"continuation", tdh.continuation() as u64);
    field(rt, b"trigger_bc", tdh.trigger_bc() as u64);
    field(rt, b"trigger_orbit", tdh.trigger_orbit() as u64);
}

fn show_tdt(rt: &impl Print, word: Word) {
    let tdt = Tdt { word };
    text(rt, b" TDT");
    field(rt, b"packet_done", tdt.packet_done() as u64);
    field(
        rt,
        b"worst_lane_status",
        words::lane_status::ddw0_tdt_worst_lane_status(word) as u64,
    );
}

fn show_ddw0(rt: &impl Print, word: Word) {
    let ddw0 = Ddw0 { word };
    text(rt, b" DDW0");
    field(rt, b"index", ddw0.index() as u64);
    field(
        rt,
        b"worst_lane_status",
        words::lane_status::ddw0_tdt_worst_lane_status(word) as u64,
    );
}

fn show_cdw(rt: &impl Print, word: Word) {
    let cdw = Cdw { word };
    text(rt, b" CDW");
    field(
        rt,
        b"calibration_user_fields",
        cdw.calibration_user_fields(),
    );
    field(
        rt,
        b"calibration_word_index",
        cdw.calibration_word_index() as u64,
    );
}

// The lane that an id names, and where there is no such lane, a word on it. That does not go by the active lanes, so none are given.
fn show_lane(rt: &impl Print, inner: bool, lane: u8) {
    field(rt, b"lane", lane as u64);
    let answer = lane_answer(inner, lane, 0);
    if answer.is_missing() {
        text(rt, b", no such lane");
    }
}

fn show_data_word(rt: &impl Print, word: Word) {
    let id = word.id();
    text(rt, b" data word");
    if id / 32 == 1 {
        show_lane(rt, true, data_ids::ib_data_word_id_to_lane(id));
    }
    if id / 32 == 2 {
        show_lane(rt, false, data_ids::ob_data_word_id_to_lane(id));
    }
}

// A digit of base 16.
fn digit(n: u8) -> u8
    requires { n < 16 }
{
    if n < 10 { 48 + n } else { 55 + n }
}

// An id as docs/CODES.md writes it.
fn hex(rt: &impl Print, id: u8) {
    let digits = [digit(id / 16), digit(id % 16)];
    text(rt, b"0x");
    text(rt, &digits);
}

fn show_other_id(rt: &impl Print, id: u8, own: u8) {
    if id != own {
        text(rt, b", by its place: its id is ");
        hex(rt, id);
        text(rt, b", not ");
        hex(rt, own);
    }
}

// An IHW and a TDH can be taken as such by their place, whatever the id.
fn show_place(rt: &impl Print, kind: ItsPayloadWord, id: u8) {
    if kind.is_ihw() {
        show_other_id(rt, id, Ihw::ID);
    }
    if kind.is_tdh() {
        show_other_id(rt, id, Tdh::ID);
    }
}

fn show_fields(rt: &impl Print, kind: ItsPayloadWord, word: Word) {
    match kind {
        ItsPayloadWord::Ihw => show_ihw(rt, b" IHW", word),
        ItsPayloadWord::IhwContinuation => show_ihw(rt, b" IHW continuation", word),
        ItsPayloadWord::Tdh => show_tdh(rt, b" TDH", word),
        ItsPayloadWord::TdhAfterPacketDone => show_tdh(rt, b" TDH after packet done", word),
        ItsPayloadWord::TdhContinuation => show_tdh(rt, b" TDH continuation", word),
        ItsPayloadWord::DataWord => show_data_word(rt, word),
        ItsPayloadWord::Cdw => show_cdw(rt, word),
        ItsPayloadWord::Tdt => show_tdt(rt, word),
        ItsPayloadWord::Ddw0 => show_ddw0(rt, word),
    }
}

// One word's line.
fn show(rt: &impl Print, a: Advanced, word: Word) {
    let kind = a.word;
    text(rt, b"id");
    text(rt, b" ");
    let _ = rt.print(word.id() as u64);
    show_fields(rt, kind, word);
    show_place(rt, kind, word.id());
    if a.guessed {
        text(rt, b", a guess");
    }
    text(rt, b"\n");
}

// All whole words.
fn show_words(rt: &impl Print, bytes: &[u8]) {
    let mut fsm = ItsPayloadFsmContinuous::new();
    for bytes in bytes.chunks_exact(Word::SIZE) {
        let word = Word::load_at(bytes, 0);
        let a = fsm.advance(word);
        show(rt, a, word);
        fsm = a.fsm;
    }
}

// What is not shown of so many bytes.
fn show_rest(rt: &impl Print, got: usize) {
    if got == 0 {
        text(rt, b"no words\n");
    }
    if MOST_BYTES < got {
        text(rt, b"what follows these 4096 words is not shown\n");
    } else if got % Word::SIZE != 0 {
        text(rt, b"bytes left over at the end: ");
        let _ = rt.print((got % Word::SIZE) as u64);
        text(rt, b"\n");
    }
}

// Where the words begin, if the input begins with the header of a bench file.
// 01, "Bench file": "packet offset 16, word offset 16 + 24 times packets".
fn words_of_file(bytes: &[u8]) -> Option<u64>
    ensures { IfSome result (λ place. place < 2 ^ 32) }
{
    if bytes.len() < 16 {
        return None;
    }
    let packets = get::<4>(bytes, 0);
    let packets_at = get::<4>(bytes, 8);
    let words_at = get::<4>(bytes, 12);
    if packets_at == 16 && words_at == 16 + 24 * packets {
        Some(words_at)
    } else {
        None
    }
}

// A bench file, whose words begin at a place.
fn show_file(rt: &impl Print, place: u64)
    requires { place < 2 ^ 32 }
{
    text(
        rt,
        b"this begins like a bench file, which ./check takes; for its words alone: tail -c +",
    );
    let _ = rt.print(place + 1);
    text(rt, b" FILE | ./run fields\n");
}

fn show_input(rt: &impl Print, bytes: &[u8]) {
    if let Some(place) = words_of_file(bytes) {
        show_file(rt, place);
        return;
    }
    show_words(rt, bytes);
    show_rest(rt, bytes.len());
}

fn main(rt: HostRuntime) {
    // One byte more than is shown, so that more is seen to be more.
    let mut bytes = [0u8; 40961];
    let got = input::read_all(&mut rt.stdin(), &mut bytes).unwrap_or_else(|failed| failed.read);
    show_input(&rt, &bytes[..got]);
}
