//! How messages are spelled on a line.
ghost use Rattle.std.specs.Prelude.{◌≡◌, ◌++◌, ℕ, List, OnOk, string_bytes};

use crate::bytes::write_message;
use crate::written::Written;
use cml_board::Text;
use std::alloc::AllocError;

/// How the messages of a journal are written as words of its lines.
pub trait Spelling<M> {
    /// The version of journals with such words.
    ghost version: { Self → ℕ };

    /// The bytes of a message's word.
    ghost word: { Self → M → List ℕ };

    fn version(&self) -> u64
        ensures { result ≡ version self.now };

    /// Adds a message's word to a line.
    fn spell(&self, message: &M, line: &mut String) -> Result<(), AllocError>
        ensures { OnOk result (string_bytes line.new ≡ string_bytes line.old ++ word self.now message.now) };
}

/// Each message has its own word.
#[derive(Clone, Copy)]
pub(crate) struct OwnWords;

impl<M: Written> Spelling<M> for OwnWords {
    ghost version = { λ _. M.VERSION };

    ghost word = { λ _. M.text };

    fn version(&self) -> u64 {
        M::VERSION
    }

    fn spell(&self, message: &M, line: &mut String) -> Result<(), AllocError> {
        message.write(line)
    }
}

/// The messages of a script of this version. In version 1 they are numbers, which are written as in the script. In version 2
/// they are written as bytes.
#[derive(Clone, Copy)]
pub struct ScriptWords {
    pub version: u64,
}

impl Spelling<Text> for ScriptWords {
    ghost use Rattle.cml_journal.specs.Words.{script_word};

    ghost version = { λ words. words.version };

    ghost word = { λ words. script_word words.version };

    fn version(&self) -> u64 {
        self.version
    }

    fn spell(&self, message: &Text, line: &mut String) -> Result<(), AllocError> {
        if self.version == 2 {
            write_message(line, message.as_bytes())
        } else {
            line.push_str(message.as_str())
        }
    }
}
