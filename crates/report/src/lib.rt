// What benchcheck prints of a bench file, step by step into a lent buffer, or all of it to a writer. Document 01, "Bench file".
#![tactic(auto)]

ghost use Rattle.std.specs.Prelude.{◌≡◌, ◌≤◌, Some, length, OnOk};
ghost use Rattle.std.specs.Io.KnownBytes.{Appends};
ghost use Rattle.std.proofs.Common.{rules};
ghost use Rattle.refusals.specs.Refusals.{code};
ghost use Rattle.cdp_running.specs.Told.{packet_answered, told_by};
ghost use Rattle.cdp_running.specs.Answer.{numbers_of};
ghost use Rattle.cdp_running.specs.Tracker.{Good};
ghost use Rattle.bench_file.specs.Reader.{next_found};
ghost use Rattle.bench_file.specs.declared.Found.TheVariants as F;
ghost use Rattle.report.specs.Text.{most_printed};
ghost use Rattle.ascii.specs.Steps.{Prints, StepPost};
ghost use Rattle.report.specs.Report.{start_report, first_stage, at_stage, item_step, step_of, is_done, GoodWord, GoodReading, GoodReport, printer};
ghost use Rattle.report.specs.Report.{steps_left};
ghost use Rattle.report.specs.File.{text};

mod text;

use ascii::printing::{self, ByStep, Filled};
use bench_file::Found;
use cdp_running::{Taken, Tracker};
use packet::{Packet, Rule, Settings};
use payload::quick;
use refusals::Refusal;
use std::io::{self, Write};
use words::Word;

// The most bytes that a step prints: the lines of a word's records, of numbers with 20 digits.
pub const MOST_PRINTED: usize = records::MOST_RECORDS * records::RECORD_WIDTH * 21;

// The period that is set.
pub const PERIOD: u32 = 198;

// Steps: `Report::step` (docs/READING.md) and the theorems on its steps (docs/TRUST.md) may not change; `print` below is the one function over them.
// What is printed next: the heading, the lines of a packet or word or the number of all records, the refusal, or nothing more.
#[derive(Clone, Copy)]
pub enum Stage {
    Heading,
    Items,
    Refused(u8),
    Done,
}

// A report on the way: the tracker, the place of the reader in the file and the words that are left of the packet at hand, and the records so far.
#[derive(Clone, Copy)]
pub struct Report {
    pub stage: Stage,
    pub tracker: Tracker,
    pub packet: usize,
    pub word: usize,
    pub left: usize,
    pub count: u64,
}

#[tactic(auto, using(refusals::proofs::Numbers::refused))]
fn first_stage(checked: Result<(), Refusal>) -> Stage
    ensures { result ≡ first_stage (code checked) }
{
    match checked {
        Ok(()) => Stage::Heading,
        Err(refusal) => Stage::Refused(u8::from(refusal)),
    }
}

// The same report at another stage.
fn at_stage(r: Report, stage: Stage) -> Report
    ensures { result ≡ at_stage stage r }
{
    Report { stage, ..r }
}

// The tracker after a packet; at a refusal it is as it was.
fn after_packet(t: Tracker, answer: Result<Tracker, Refusal>) -> Tracker
    ensures { result ≡ (packet_answered t answer).tracker }
{
    match answer {
        Ok(next) => next,
        Err(_) => t,
    }
}

// How many records a word gave; none at a refusal.
fn records_given(answer: Result<Taken, Refusal>) -> u64
    ensures { result ≡ (numbers_of (told_by answer)).records }
{
    match answer {
        Ok(taken) => taken.records,
        Err(_) => 0,
    }
}

// A packet: nothing is printed, and its words come next.
fn packet_step(r: Report, file: &[u8], packet: Packet, words: u16) -> Report
    requires { Good r.tracker }
    ensures { result ≡ (item_step file.now r (Some (F.Packet packet words))).next }
{
    Report {
        stage: Stage::Items,
        tracker: after_packet(r.tracker, r.tracker.packet(packet)),
        packet: bench_file::packet_after(file, r.packet, r.word),
        left: words as usize,
        ..r
    }
}

// The word at a place of the file: the lines of its records. (No word of a file that was not refused is refused: proofs/Refused.antt, `never_refused`.)
fn word_step(r: Report, file: &[u8], at: usize, out: &mut [u8]) -> Filled<Report>
    requires good { Good r.tracker }
    requires good_word { GoodWord file.now r at }
    requires most_printed_in_bounds { most_printed ≤ length out.old }
    ensures { Prints (item_step file.now r (Some (F.Word at))) out.old result.next result.n out.new }
{
    let mut numbers = [0u64; records::MOST_RECORDS * records::RECORD_WIDTH];
    let mut tracker = r.tracker;
    let answer = quick::word(&mut tracker, &file[at..at + Word::SIZE], &mut numbers);
    let given = records_given(answer);
    Filled {
        n: text::put_lines(out, &numbers[..records::RECORD_WIDTH * given as usize]),
        next: Report {
            stage: Stage::Items,
            tracker,
            word: bench_file::word_after(file, r.packet, r.word),
            left: r.left - 1,
            count: r.count + given,
            ..r
        },
    }
}

// What comes next in the file: a packet, a word, or the number of all records.
fn item_step(r: Report, file: &[u8], out: &mut [u8]) -> Filled<Report>
    requires good { Good r.tracker }
    requires good_reading { GoodReading file.now r }
    requires most_printed_in_bounds { most_printed ≤ length out.old }
    ensures { Prints (item_step file.now r (next_found file.now r.packet r.word r.left))
        out.old result.next result.n out.new }
{
    match bench_file::next(file, r.packet, r.word, r.left) {
        Some(Found::Packet { packet, words }) => Filled {
            next: packet_step(r, file, packet, words),
            n: 0,
        },
        Some(Found::Word { at }) => word_step(r, file, at, out),
        None => Filled {
            n: ascii::put_named(out, b"records ", r.count, ascii::NEWLINE),
            next: at_stage(r, Stage::Done),
        },
    }
}

// The step by the stage.
fn stage_step(r: Report, file: &[u8], out: &mut [u8]) -> Filled<Report>
    requires good_report { GoodReport file.now r }
    requires most_printed_in_bounds { most_printed ≤ length out.old }
    ensures { Prints (step_of file.now r) out.old result.next result.n out.new }
{
    match r.stage {
        Stage::Heading => Filled {
            n: ascii::put(out, b"packet pos code first second\n"),
            next: at_stage(r, Stage::Items),
        },
        Stage::Items => item_step(r, file, out),
        Stage::Refused(number) => Filled {
            n: ascii::put_named(out, b"refused ", number as u64, ascii::NEWLINE),
            next: at_stage(r, Stage::Done),
        },
        Stage::Done => Filled { next: r, n: 0 },
    }
}

impl Report {
    // The start: the whole file is checked before anything is printed.
    pub fn start(file: &[u8]) -> Report
        ensures { (result ≡ start_report file.now) × GoodReport file.now result }
    {
        let checked = bench_file::check(file);
        Report {
            stage: first_stage(checked),
            tracker: Tracker::start(Settings {
                running: true,
                frames: true,
                period: Some(PERIOD),
                rule: Rule::One,
            }),
            packet: 0,
            word: 0,
            left: 0,
            count: 0,
        }
    }

    // Whether all is printed.
    pub fn finished(self) -> bool
        ensures { result ≡ is_done self.stage }
    {
        matches!(self.stage, Stage::Done)
    }

    // One step: its text at the front of out, whose rest stays. A buffer of at least MOST_PRINTED bytes brings the report on.
    pub fn step(self, file: &[u8], out: &mut [u8]) -> Filled<Report>
        requires { GoodReport file.now self }
        ensures { StepPost (printer file.now) self out.old result.next result.n out.new }
    {
        if out.len() < MOST_PRINTED {
            return Filled { next: self, n: 0 };
        }
        stage_step(self, file, out)
    }
}

// The report of a file, as it is printed by steps.
#[derive(Drop)]
struct FileReport<'a> {
    file: &'a [u8],
}

impl ByStep for FileReport<'_> {
    type State = Report;

    ghost printer = { λ it. printer it.file.now };

    ghost left = { λ it. steps_left it.file.now };

    fn most(&self) -> usize {
        MOST_PRINTED
    }

    fn finished(&self, report: Report) -> bool {
        report.finished()
    }

    fn step(&self, report: Report, out: &mut [u8]) -> Filled<Report> {
        report.step(self.file, out)
    }

    ghost most_in_bounds = { λ it. Prim.search rules };
}

// Prints the report of a file, up to a write that fails.
pub fn print<W: Write>(file: &[u8], to: &mut W) -> io::Result<()>
    ensures { OnOk result (Appends (W.contents to.old) (W.contents to.new) (text file.now)) }
{
    printing::print(&FileReport { file }, Report::start(file), to)
}
