//! A text: one word, short enough for a line.
ghost use Rattle.std.specs.Prelude.{◌≡◌, true, false, IfOk};
ghost use Rattle.std.specs.Fmt.{decimal};
ghost use Rattle.cml_calls.specs.{is_text_byte, is_text};

use crate::bytes::Bytes;
use itoa::Buffer;
use std::alloc::{AllocError, Global};
use std::error::Error;
use std::fmt;
use std::marker::Model;
use thiserror::Error;

/// The most bytes that a text may have.
const MAX_BYTES: usize = 64;

/// A word of 1 to 64 bytes from 0x21 to 0x7E. Contracts see it as the list of its bytes.
///
/// They lie in memory that all clones share.
#[derive(Drop)]
pub struct Text {
    bytes: Bytes,
}

impl Model for Text {
    ghost use Rattle.std.specs.Prelude.{◌≡◌, ℕ, List, true};
    ghost use Rattle.cml_calls.specs.Text.{is_text};

    ghost Value = { List ℕ };

    ghost view = { λ text. text.bytes };

    ghost invariant = { λ text. is_text text.bytes ≡ true };
}

/// The error for bytes that are no text: there are none or more than 64, or one is outside 0x21 to 0x7E.
#[derive(Clone, Copy, Debug, PartialEq, Eq, Error)]
#[error("a text has 1 to 64 bytes, and neither spaces nor what isn't printed")]
pub struct BadText;

fn is_text_byte(byte: u8) -> bool
    ensures { result ≡ is_text_byte byte }
{
    matches!(byte, b'!'..=b'~')
}

/// Says whether these bytes are a text.
pub fn is_text(bytes: &[u8]) -> bool
    ensures { result ≡ is_text bytes.now }
{
    if bytes.is_empty() || bytes.len() > MAX_BYTES {
        return false;
    }
    bytes.iter().all(|byte| is_text_byte(*byte))
}

impl Text {
    ghost use Rattle.std.specs.Prelude.{IsErr, IsOkAnd, OnOk, OnErr};

    /// Makes a text by copying these bytes. By the code, it allocates once.
    pub fn from_bytes(alloc: Global, bytes: &[u8]) -> Result<Result<Text, BadText>, AllocError>
        ensures text { IfOk result (λ tested. IfOk tested (λ text. text ≡ bytes.now)) }
        ensures good { IfOk result (λ tested. OnOk tested (is_text bytes.now ≡ true)) }
        ensures bad { IfOk result (λ tested. OnErr tested (is_text bytes.now ≡ false)) }
        ensures bad_text { is_text bytes.now ≡ false → IsOkAnd result (λ tested. IsErr tested) }
    {
        if !is_text(bytes) {
            return Ok(Err(BadText));
        }
        match Bytes::from_slice(alloc, bytes)? {
            Ok(bytes) => Ok(Ok(Text { bytes })),
            Err(_) => unreachable!(),
        }
    }

    /// Makes a text of a number's decimal digits, without zeros in front. By the code, it allocates once.
    pub fn of_number(alloc: Global, number: u64) -> Result<Text, AllocError>
        ensures digits { IfOk result (λ text. text ≡ decimal number) }
    {
        let mut digits = Buffer::new();
        match Bytes::from_slice(alloc, digits.format(number).as_bytes())? {
            Ok(bytes) => Ok(Text { bytes }),
            Err(_) => unreachable!(),
        }
    }

    pub fn as_bytes(&self) -> &[u8]
        ensures bytes { result.now ≡ self.now }
        ensures text { is_text result.now ≡ true }
    {
        self.bytes.as_slice()
    }

    pub fn as_str(&self) -> &str
        ensures bytes { result.now ≡ self.now }
    {
        match str::from_utf8(self.bytes.as_slice()) {
            Ok(text) => text,
            Err(_) => unreachable!(),
        }
    }
}

/// A clone copies no bytes: it shares their memory.
impl Clone for Text {
    ghost is_clone = { λ text copy. copy ≡ text };

    fn clone(&self) -> Result<Text, AllocError> {
        let bytes = self.bytes.clone()?;
        Ok(Text { bytes })
    }
}

impl PartialEq for Text {
    ghost use Rattle.std.specs.Cmp.{partial_equiv_from_equiv};
    ghost use Rattle.std.specs.Cmp.Lexicographic.{pointwise, nat_list_eq_equiv};
    ghost use Rattle.std.specs.Prelude.{nat_eq};

    ghost eq = { pointwise nat_eq };

    ghost laws = { partial_equiv_from_equiv nat_list_eq_equiv };

    fn eq(&self, other: &Text) -> bool {
        self.as_bytes() == other.as_bytes()
    }
}

impl Eq for Text {
    ghost use Rattle.std.specs.Cmp.Lexicographic.{nat_list_eq_equiv};

    ghost laws = { nat_list_eq_equiv };
}

impl fmt::Display for Text {
    ghost use Rattle.std.specs.Prelude.{Some};

    ghost output = { λ text. Some text };

    fn fmt<W: fmt::Write>(&self, f: &mut fmt::Formatter<W>) -> fmt::Result {
        let text = self.as_str();
        write!(f, "{text}")
    }
}

impl fmt::Debug for Text {
    fn fmt<W: fmt::Write>(&self, f: &mut fmt::Formatter<W>) -> fmt::Result {
        let text = self.as_str();
        write!(f, "{text:?}")
    }
}
