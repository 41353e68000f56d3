// The seven states, by their numbers.
ghost use Rattle.std.specs.Prelude.{◌≡◌};
ghost use Rattle.tracker_array.specs.Read.{state_of};

use payload_fsm::State;

// The state of a number; numbers above 6 are no state's and count as the last.
pub fn state_of(n: u64) -> State
    ensures { result ≡ state_of n }
{
    State::try_from(n).unwrap_or(State::CTdh)
}
