//! A sum, and its word.
ghost use Rattle.std.specs.Prelude.{◌≡◌, ◌++◌, ◌<◌, All, OnOk, string_bytes};
ghost use Rattle.std.specs.Str.{bytes_eq};
ghost use Rattle.cml_journal.specs.{sum_word, sum_in};

use hex::FromHex;
use std::alloc::AllocError;
use std::fmt;

/// The SHA-256 of a text.
#[derive(Clone, Copy, Debug, PartialEq, Eq)]
pub struct Sum(pub [u8; 32]);

impl Sum {
    /// The sum's 64 hex digits, with small letters.
    pub fn digits(&self) -> [u8; 64]
        ensures same { result ≡ sum_word self.now }
        ensures ascii { All (λ digit. digit < 128) result }
    {
        let mut digits = [0; 64];
        match hex::encode_to_slice(&self.0[..], &mut digits) {
            Ok(()) => digits,
            Err(_) => unreachable!(),
        }
    }

    /// Whether this word is the sum's digits.
    pub fn has_word(&self, word: &str) -> bool
        ensures { result ≡ bytes_eq word.now (sum_word self.now) }
    {
        word.as_bytes() == &self.digits()[..]
    }

    /// The sum that a word is, if it is 64 hex digits with small letters.
    pub fn of_word(word: &str) -> Option<Sum>
        ensures { result ≡ sum_in word.now }
    {
        let sum = Sum(<[u8; 32] as FromHex>::from_hex(word).ok()?);
        sum.has_word(word).then_some(sum)
    }

    /// Adds the sum's digits to a text.
    pub fn write(&self, text: &mut String) -> Result<(), AllocError>
        ensures { OnOk result (string_bytes text.new ≡ string_bytes text.old ++ sum_word self.now) }
    {
        for digit in self.digits() {
            text.push(digit as char)?;
        }
        Ok(())
    }
}

impl fmt::Display for Sum {
    fn fmt<W: fmt::Write>(&self, f: &mut fmt::Formatter<W>) -> fmt::Result {
        for digit in self.digits() {
            f.write_char(digit as char)?;
        }
        Ok(())
    }
}
