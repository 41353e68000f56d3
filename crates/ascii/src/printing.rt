// What is printed step by step: a step puts a text at the front of a lent buffer, and tells where the next one goes on.
ghost use Rattle.std.specs.Prelude.{◌≡◌, ◌≤◌, ℕ, OnOk};
ghost use Rattle.ascii.specs.Steps.{Printer, StepPost, FewerLeft, AllPrinted, gathered};

use std::io::{Result, Write};

// Bytes that are gathered before they are written.
pub const GATHERED: usize = 1000;

// The state after a text, and how many bytes of a buffer the text has.
#[derive(Clone, Copy)]
pub struct Filled<S> {
    pub next: S,
    pub n: usize,
}

// Something that is printed by steps.
pub trait ByStep {
    type State: Copy;

    ghost printer: { Self → Printer Self.State };

    // How many steps are left at most.
    ghost left: { Self → Self.State → ℕ };

    // The most bytes that a step prints.
    fn most(&self) -> usize
        ensures { result ≡ (printer self.now).most };

    // Whether all is printed.
    fn finished(&self, state: Self::State) -> bool
        ensures { result ≡ (printer self.now).is_done state };

    fn step(&self, state: Self::State, out: &mut [u8]) -> Filled<Self::State>
        requires { (printer self.now).Good state }
        ensures { StepPost (printer self.now) state out.old result.next result.n out.new };

    // What is gathered has room for a step.
    ghost most_in_bounds: { (x : Self) → (printer x).most ≤ gathered };
}

// Prints all that is left of it, up to a write that fails. Texts are gathered, and written where one more might find no room.
pub fn print<T: ByStep, W: Write>(it: &T, from: T::State, to: &mut W) -> Result<()>
    requires good { (T.printer it.now).Good from }
    requires ends { FewerLeft (T.printer it.now) (T.left it.now) }
    ensures { OnOk result (AllPrinted (T.printer it.now) from (W.contents to.old) (W.contents to.new)) }
{
    let mut gathered = [0u8; GATHERED];
    let mut state = from;
    let mut used: usize = 0;
    while !it.finished(state) {
        if GATHERED - used < it.most() {
            to.write_all(&gathered[..used])?;
            used = 0;
        }
        let filled = it.step(state, &mut gathered[used..]);
        used += filled.n;
        state = filled.next;
    }
    to.write_all(&gathered[..used])
}
