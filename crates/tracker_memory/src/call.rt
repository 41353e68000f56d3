// One word in any memory of a tracker: what it is taken as, where it stands, its records, what it stores, and what is told of it.
ghost use Rattle.std.specs.Prelude.{◌≡◌, ◌<◌};
ghost use Rattle.packet.specs.Packet.{max_words};
ghost use Rattle.cdp_running.specs.Told.{told_by};
ghost use Rattle.cdp_running.specs.Tracker.{Good};
ghost use Rattle.cdp_running.specs.Word.{taken_as, position_now, WordPost};
ghost use Rattle.tracker_memory.specs.Memory.{told_as, StepPost};

use crate::{TrackerMemory, rows, stores};
use cdp_running::Taken;
use packet::MAX_WORDS;
use payload_fsm::{Advanced, ItsPayloadFsmContinuous};
use refusals::Refusal;
use words::Word;

// Where the next word stands.
pub fn position<T: TrackerMemory>(t: &T) -> u64
    requires holds { T.holds t.now }
    requires good { Good (T.tracker t.now) }
    ensures { result ≡ position_now (T.tracker t.now) }
{
    packet::position(t.packet(), t.count())
}

// What a word is taken as.
pub fn taken_as<T: TrackerMemory>(t: &T, word: Word) -> Advanced
    requires { T.holds t.now }
    ensures { result ≡ taken_as (T.tracker t.now) word }
{
    let fsm = ItsPayloadFsmContinuous { state: t.state() };
    fsm.advance(word)
}

// One word that the packet still takes. Where there is no room for its records all stays.
pub fn step<T: TrackerMemory>(t: &mut T, word: Word, out: &mut [u64]) -> Result<u64, Refusal>
    requires holds { T.holds t.old }
    requires good { Good (T.tracker t.old) }
    requires room { (T.tracker t.old).at.count < max_words }
    ensures holds { T.holds t.new }
    ensures step { StepPost (T.tracker t.old) word out.old result (T.tracker t.new) out.new }
{
    let taken = taken_as(t, word);
    let here = position(t);
    let written = rows::write(t, taken, word, here, out);
    let records = written?;
    stores::store(t, taken, word, here);
    Ok(records)
}

// What will be told of a word, but for its records: here none.
fn told<T: TrackerMemory>(t: &T, word: Word) -> Taken
    requires holds { T.holds t.now }
    requires good { Good (T.tracker t.now) }
    ensures { result ≡ told_as (T.tracker t.now) word 0 }
{
    let taken = taken_as(t, word);
    let kind = taken.word;
    let settings = t.settings();
    Taken {
        kind: kind,
        guessed: taken.guessed,
        records: 0,
        frame: stored::next::frame_told(settings.frames, kind, word, position(t), t.frame()),
        lanes: stored::next::lanes_told(kind, word),
    }
}

// One word: its records stand at the front of out, whose rest stays. A refusal leaves both.
pub fn word<T: TrackerMemory>(t: &mut T, bytes: &[u8], out: &mut [u64]) -> Result<Taken, Refusal>
    requires holds { T.holds t.old }
    requires good { Good (T.tracker t.old) }
    ensures holds { T.holds t.new }
    ensures word { WordPost (T.tracker t.old) bytes.now out.old (record { tracker = T.tracker t.new; told = told_by result }) out.new }
{
    let word = Word::from_buf(bytes)?;
    if !t.accepted() {
        return Err(Refusal::NoPacket);
    }
    if t.count() >= MAX_WORDS {
        return Err(Refusal::Full);
    }
    let mut taken = told(t, word);
    taken.records = step(t, word, out)?;
    Ok(taken)
}
