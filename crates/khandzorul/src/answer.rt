// Answers as the structs that cross to C.
ghost use Rattle.std.specs.Prelude.{◌≡◌};
ghost use Rattle.refusals.specs.Refusals.{code, code_if};
ghost use Rattle.cdp_running.specs.Told as T;
ghost use Rattle.cdp_running.specs.Told.{told_by};
ghost use Rattle.cdp_running.specs.Answer.{frame_number, frame_start, frame_end};
ghost use Rattle.khandzorul.specs.Answer.{told_numbers};

use crate::WordNumbers;
use cdp_running::Taken;
use refusals::Refusal;
use stored::FrameTold;

// The number of a call that may be refused: 0 where it is not.
pub(crate) fn code(answer: Result<(), Refusal>) -> u64
    ensures { result ≡ code answer }
{
    match answer {
        Ok(()) => 0,
        Err(refusal) => u64::from(u8::from(refusal)),
    }
}

// The same where the refusal stands beside what was done before it.
pub(crate) fn code_if(refusal: Option<Refusal>) -> u64
    ensures { result ≡ code_if refusal }
{
    match refusal {
        None => 0,
        Some(refusal) => u64::from(u8::from(refusal)),
    }
}

fn frame_number(frame: FrameTold) -> u64
    ensures { result ≡ frame_number frame }
{
    match frame {
        FrameTold::Nothing => 0,
        FrameTold::Opened => 1,
        FrameTold::Closed { start: _, end: _ } => 2,
    }
}

fn frame_start(frame: FrameTold) -> u64
    ensures { result ≡ frame_start frame }
{
    match frame {
        FrameTold::Closed { start, end: _ } => start,
        _ => 0,
    }
}

fn frame_end(frame: FrameTold) -> u64
    ensures { result ≡ frame_end frame }
{
    match frame {
        FrameTold::Closed { start: _, end } => end,
        _ => 0,
    }
}

// A refusal's number, and zeros.
pub(crate) fn refused(n: u64) -> WordNumbers
    ensures { result ≡ told_numbers (T.Refused n) }
{
    WordNumbers {
        refusal: n,
        kind: 0,
        guessed: 0,
        records: 0,
        frame: 0,
        start: 0,
        end: 0,
        lanes: 0,
    }
}

pub(crate) fn told(told: Result<Taken, Refusal>) -> WordNumbers
    ensures { result ≡ told_numbers (told_by told) }
{
    match told {
        Ok(taken) => WordNumbers {
            refusal: 0,
            kind: u64::from(u8::from(taken.kind)),
            guessed: u64::from(taken.guessed),
            records: taken.records,
            frame: frame_number(taken.frame),
            start: frame_start(taken.frame),
            end: frame_end(taken.frame),
            lanes: u64::from(taken.lanes),
        },
        Err(refusal) => refused(u64::from(u8::from(refusal))),
    }
}
