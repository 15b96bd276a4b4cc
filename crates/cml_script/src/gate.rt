ghost use Rattle.std.specs.Prelude.{◌≡◌, Bool, true};

use std::marker::Brand;

/// A gate says at each step of a script's threads whether to go on, so that a test can order the steps. Threads are counted
/// from 0 in the order in which they are declared, and so are each thread's steps.
pub trait Gate {
    /// Whether it always lets through.
    ghost opens: { Self → Bool };

    /// Called before a step. If it returns false, the thread stops.
    fn before(&self, thread: usize, step: usize) -> bool
        ensures { opens self.now ≡ true → result ≡ true };

    /// Called once the step is answered. It is not called for a step that fails.
    fn after(&self, thread: usize, step: usize);
}

/// The gate of the program, at which no thread stops.
#[derive(Clone, Copy, Debug, PartialEq, Eq)]
pub struct OpenGate;

impl Gate for OpenGate {
    ghost opens = { λ _. true };

    fn before(&self, _thread: usize, _step: usize) -> bool {
        true
    }

    fn after(&self, _thread: usize, _step: usize) {}
}

/// Whether the gate of a run always lets through. It is a fact of a type, since only the type of what another thread returns
/// is known.
pub(crate) trait Passage {
    ghost opens: { Bool };
}

impl Passage for Brand {
    ghost opens = { true };
}
