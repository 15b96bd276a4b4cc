//! How a program ends.
ghost use Rattle.std.specs.Prelude.{◌≡◌, ℕ, Bool};

use std::fmt::Display;

/// How a program ends. Its `Display` is the line for standard error.
pub trait Ending: Display + Drop {
    ghost status: { Self → ℕ };

    ghost is_shown: { Self → Bool };

    /// Returns the ending of a program that runs out of memory.
    fn no_memory() -> Self
        ensures { status result ≡ 5 };

    /// Returns the ending of a program that cannot write to standard output.
    fn write_fault() -> Self
        ensures { status result ≡ 4 };

    /// Returns the exit status.
    fn status(&self) -> u8
        ensures { result ≡ status self.now };

    /// Says whether the line goes to standard error. It does not if standard output says it already.
    fn is_shown(&self) -> bool
        ensures { result ≡ is_shown self.now };
}
