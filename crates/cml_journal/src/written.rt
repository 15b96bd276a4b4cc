//! Messages as words of a line.
ghost use Rattle.std.specs.Prelude.{◌≡◌, ◌++◌, ◌+◌, ◌^◌, ◌<◌, ℕ, Bool, List, Option, IfOk, OnOk, string_bytes};
ghost use Rattle.cml_journal.specs.Written.{IsWritten};

use cml_grammar::number_of;
use std::alloc::{AllocError, Global};

/// A type of messages that a journal's line can have as words.
pub trait Written: Drop + Sized {
    /// The version of journals with such messages.
    const VERSION: u64;

    ghost VERSION: { ℕ };

    /// The bytes of a message's word.
    ghost text: { Self → List ℕ };

    /// Whether a message has a word.
    ghost fits: { Self → Bool };

    /// The message that a word is, if it is one.
    ghost meaning: { List ℕ → Option Self };

    /// Adds a message's word to a line.
    fn write(&self, line: &mut String) -> Result<(), AllocError>
        ensures { OnOk result (string_bytes line.new ≡ string_bytes line.old ++ text self.now) };

    /// Reads a word as a message, or returns `None` if it is none.
    fn read(alloc: Global, word: &str) -> Result<Option<Self>, AllocError>
        ensures { IfOk result (λ message. message ≡ meaning word.now) };

    /// A written message is read again, and has no other word.
    ghost written: { IsWritten text fits meaning };

    /// The version of sealed journals is a number too.
    ghost small: { VERSION + 2 < 2 ^ 64 };
}

/// A number is its decimal digits, without zeros in front.
impl Written for u64 {
    ghost use Rattle.std.specs.Fmt.{decimal};
    ghost use Rattle.cml_journal.specs.Numbers.{is_small, number_of};
    ghost use Rattle.cml_journal.specs.NumberLaws.{numbers_are_written, sealed_3_is_small};

    const VERSION: u64 = 1;

    ghost VERSION = { 1 };

    ghost text = { decimal };

    ghost fits = { is_small };

    ghost meaning = { number_of };

    ghost written = { numbers_are_written };

    ghost small = { sealed_3_is_small };

    fn write(&self, line: &mut String) -> Result<(), AllocError> {
        let number = *self;
        write!(line, "{number}")
    }

    fn read(_alloc: Global, word: &str) -> Result<Option<u64>, AllocError> {
        Ok(number_of(word))
    }
}
