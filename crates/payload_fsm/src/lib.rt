// The state machine of an ITS payload in continuous mode: what a word is taken as, and the next state.
// Document 01, "The tracker"; the Rust's its_payload_fsm_cont.rs.
#![tactic(auto)]

ghost use Rattle.std.specs.Prelude.{◌≡◌};
ghost use Rattle.payload_fsm.specs.Kinds.{gives_kind_number, is_ihw, is_tdh, is_data, is_tdt};
ghost use Rattle.payload_fsm.specs.States.{gives_state_number, gives_state};
ghost use Rattle.payload_fsm.specs.Step.{start, is_three, taken, guess, after_tdh, in_data, in_three, advance_of};

use words::Word;
use words::cdw::Cdw;
use words::ddw::Ddw0;
use words::ihw::Ihw;
use words::status_word::StatusWord;
use words::tdh::Tdh;
use words::tdt::Tdt;

// The states that are reached, each with the Rust's name, and the number by which a tracker's memory has it.
#[derive(Clone, Copy, Debug, PartialEq, Eq)]
pub enum State {
    // IHW_, where a machine starts
    Ihw = 0,
    // TDH_
    Tdh = 1,
    // DATA_
    Data = 2,
    // c_DATA_
    CData = 3,
    // DDW0_or_TDH_or_IHW_, the three-way state
    Three = 4,
    // c_IHW_
    CIhw = 5,
    // c_TDH_
    CTdh = 6,
}

// A number that is no state's: above 6.
#[derive(Clone, Copy, Debug, PartialEq, Eq)]
pub struct UnknownState(pub u64);

impl State {
    // The three-way state.
    pub fn is_three(self) -> bool
        ensures { result ≡ is_three self }
    {
        matches!(self, State::Three)
    }
}

impl From<State> for u64 {
    ghost from_gives = { gives_state_number };

    fn from(state: State) -> u64 {
        state as u64
    }
}

impl TryFrom<u64> for State {
    type Error = UnknownState;

    ghost try_from_gives = { gives_state };

    fn try_from(n: u64) -> Result<State, UnknownState> {
        match n {
            0 => Ok(State::Ihw),
            1 => Ok(State::Tdh),
            2 => Ok(State::Data),
            3 => Ok(State::CData),
            4 => Ok(State::Three),
            5 => Ok(State::CIhw),
            6 => Ok(State::CTdh),
            _ => Err(UnknownState(n)),
        }
    }
}

// What a word is taken as, with a number for those who get no enum; 0 is none, for a refused word.
#[derive(Clone, Copy, Debug, PartialEq, Eq)]
pub enum ItsPayloadWord {
    Ihw = 1,
    IhwContinuation = 2,
    Tdh = 3,
    TdhAfterPacketDone = 4,
    TdhContinuation = 5,
    DataWord = 6,
    Cdw = 7,
    Tdt = 8,
    Ddw0 = 9,
}

impl From<ItsPayloadWord> for u8 {
    ghost from_gives = { gives_kind_number };

    fn from(word: ItsPayloadWord) -> u8 {
        word as u8
    }
}

impl ItsPayloadWord {
    // An IHW, continuation too.
    pub fn is_ihw(self) -> bool
        ensures { result ≡ is_ihw self }
    {
        matches!(self, ItsPayloadWord::Ihw | ItsPayloadWord::IhwContinuation)
    }

    // A TDH of any of its three kinds.
    pub fn is_tdh(self) -> bool
        ensures { result ≡ is_tdh self }
    {
        matches!(
            self,
            ItsPayloadWord::Tdh
                | ItsPayloadWord::TdhAfterPacketDone
                | ItsPayloadWord::TdhContinuation
        )
    }

    // A data word or CDW.
    pub fn is_data(self) -> bool
        ensures { result ≡ is_data self }
    {
        matches!(self, ItsPayloadWord::DataWord | ItsPayloadWord::Cdw)
    }

    // A TDT.
    pub fn is_tdt(self) -> bool
        ensures { result ≡ is_tdt self }
    {
        matches!(self, ItsPayloadWord::Tdt)
    }
}

#[derive(Clone, Copy, Debug, PartialEq, Eq)]
pub struct ItsPayloadFsmContinuous {
    pub state: State,
}

// What a word was taken as, whether that was a guess, and the machine after it.
#[derive(Clone, Copy, Debug, PartialEq, Eq)]
pub struct Advanced {
    pub word: ItsPayloadWord,
    pub guessed: bool,
    pub fsm: ItsPayloadFsmContinuous,
}

// Where a TDH leads: to its data, or with no data straight to the three-way state.
fn after_tdh(word: Word) -> State
    ensures { result ≡ after_tdh word }
{
    let tdh = Tdh { word };
    if tdh.no_data() == 0 {
        State::Data
    } else {
        State::Three
    }
}

fn taken(word: ItsPayloadWord, next: State) -> Advanced
    ensures { result ≡ taken word next }
{
    Advanced {
        word,
        guessed: false,
        fsm: ItsPayloadFsmContinuous { state: next },
    }
}

fn guess(word: ItsPayloadWord, next: State) -> Advanced
    ensures { result ≡ guess word next }
{
    Advanced {
        word,
        guessed: true,
        fsm: ItsPayloadFsmContinuous { state: next },
    }
}

// A word among data: in DATA_ and c_DATA_.
fn in_data(state: State, word: Word) -> Advanced
    ensures { result ≡ in_data state word }
{
    let id = word.id();
    if id == Tdt::ID {
        let tdt = Tdt { word };
        if tdt.packet_done() {
            return taken(ItsPayloadWord::Tdt, State::Three);
        }
        return taken(ItsPayloadWord::Tdt, State::CIhw);
    }
    if id == Cdw::ID {
        return taken(ItsPayloadWord::Cdw, state);
    }
    if data_ids::is_data_word_id(id) {
        return taken(ItsPayloadWord::DataWord, state);
    }
    guess(ItsPayloadWord::DataWord, state)
}

// A word in the three-way state.
fn in_three(word: Word) -> Advanced
    ensures { result ≡ in_three word }
{
    let id = word.id();
    if id == Tdh::ID {
        let next = after_tdh(word);
        return taken(ItsPayloadWord::TdhAfterPacketDone, next);
    }
    if id == Ddw0::ID {
        return taken(ItsPayloadWord::Ddw0, State::Ihw);
    }
    if id == Ihw::ID {
        return taken(ItsPayloadWord::Ihw, State::Tdh);
    }
    guess(ItsPayloadWord::Ddw0, State::Ihw)
}

impl ItsPayloadFsmContinuous {
    // A machine in the start state.
    pub fn new() -> ItsPayloadFsmContinuous
        ensures { result ≡ start }
    {
        ItsPayloadFsmContinuous { state: State::Ihw }
    }

    // The machine after a reset: the start state, whatever it was.
    pub fn reset_fsm(self) -> ItsPayloadFsmContinuous
        ensures { result ≡ start }
    {
        ItsPayloadFsmContinuous::new()
    }

    // One word.
    pub fn advance(self, word: Word) -> Advanced
        ensures { result ≡ advance_of self.state word }
    {
        let state = self.state;
        let next = after_tdh(word);
        match state {
            State::Ihw => taken(ItsPayloadWord::Ihw, State::Tdh),
            State::Tdh => taken(ItsPayloadWord::Tdh, next),
            State::Data | State::CData => in_data(state, word),
            State::Three => in_three(word),
            State::CIhw => taken(ItsPayloadWord::IhwContinuation, State::CTdh),
            State::CTdh => taken(ItsPayloadWord::TdhContinuation, State::CData),
        }
    }
}
