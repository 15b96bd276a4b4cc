//! Bytes as words of a line.
ghost use Rattle.std.specs.Prelude.{◌≡◌, ◌<◌, ◌/◌, ◌%◌, ◌++◌, ◌∷◌, [], true, IfOk, OnOk, string_bytes};
ghost use Rattle.std.specs.Fmt.{digit_glyph};
ghost use Rattle.std.specs.List.{flat_map};
ghost use Rattle.std.specs.Option.{option_map, option_and_then};
ghost use Rattle.cml_journal.specs.{is_plain, byte_text, bytes_text, bytes_in, if_short, escaped, escape_at, byte_at, digit_in};

use crate::written::Written;
use cml_board::Bytes;
use std::alloc::{AllocError, Global};

fn is_plain(byte: u8) -> bool
    ensures { result ≡ is_plain byte }
{
    matches!(byte, b'!'..=b'~') && byte != b'%'
}

/// A capital hex digit.
fn hex_digit(value: u8) -> char
    requires { value < 16 }
    ensures digit { result ≡ digit_glyph true value }
    ensures ascii { result < 128 }
{
    match value {
        ..=9 => (b'0' + value) as char,
        _ => (b'A' - 10 + value) as char,
    }
}

fn write_escape(line: &mut String, byte: u8) -> Result<(), AllocError>
    ensures { OnOk result (string_bytes line.new
        ≡ string_bytes line.old ++ 37 ∷ digit_glyph true (byte / 16) ∷ digit_glyph true (byte % 16) ∷ []) }
{
    line.push('%')?;
    line.push(hex_digit(byte / 16))?;
    line.push(hex_digit(byte % 16))
}

/// Adds a byte as it is, or `%` and two hex digits.
fn write_byte(line: &mut String, byte: u8) -> Result<(), AllocError>
    ensures { OnOk result (string_bytes line.new ≡ string_bytes line.old ++ byte_text byte) }
{
    if is_plain(byte) {
        line.push(byte as char)
    } else {
        write_escape(line, byte)
    }
}

fn write_bytes(line: &mut String, bytes: &[u8]) -> Result<(), AllocError>
    ensures { OnOk result (string_bytes line.new ≡ string_bytes line.old ++ flat_map byte_text bytes.now) }
{
    for byte in bytes {
        write_byte(line, *byte)?;
    }
    Ok(())
}

/// Adds the word of a message of bytes.
pub(crate) fn write_message(line: &mut String, bytes: &[u8]) -> Result<(), AllocError>
    ensures { OnOk result (string_bytes line.new ≡ string_bytes line.old ++ bytes_text bytes.now) }
{
    line.push_str("=")?;
    write_bytes(line, bytes)
}

/// The value of a capital hex digit.
fn digit_in(byte: u8) -> Option<u8>
    ensures value { result ≡ digit_in byte }
{
    match byte {
        b'0'..=b'9' => Some(byte - b'0'),
        b'A'..=b'F' => Some(byte - b'A' + 10),
        _ => None,
    }
}

/// The byte that two hex digits mean, unless it is written as it is.
fn escaped(high: u8, low: u8) -> Option<u8>
    ensures { result ≡ escaped high low }
{
    let high = digit_in(high)?;
    let low = digit_in(low)?;
    let byte = high * 16 + low;
    (!is_plain(byte)).then_some(byte)
}

/// `=` and the bytes, where `%` and each byte that is not printed are `%` and two capital hex digits.
impl Written for Bytes {
    ghost use Rattle.cml_journal.specs.Escapes.{bytes_text, is_message, message_of_word};
    ghost use Rattle.cml_journal.specs.EscapeLaws.{bytes_are_written};
    ghost use Rattle.cml_journal.specs.NumberLaws.{sealed_4_is_small};

    const VERSION: u64 = 2;

    ghost VERSION = { 2 };

    ghost text = { bytes_text };

    ghost fits = { is_message };

    ghost meaning = { message_of_word };

    ghost written = { bytes_are_written };

    ghost small = { sealed_4_is_small };

    fn write(&self, line: &mut String) -> Result<(), AllocError> {
        write_message(line, self.as_slice())
    }

    fn read(alloc: Global, word: &str) -> Result<Option<Bytes>, AllocError> {
        match word.as_bytes() {
            [b'=', text @ ..] => message_in(alloc, text),
            _ => Ok(None),
        }
    }
}

fn message_in(alloc: Global, text: &[u8]) -> Result<Option<Bytes>, AllocError>
    ensures { IfOk result (λ message. message ≡ option_and_then if_short (bytes_in text.now)) }
{
    let Some(bytes) = bytes_in(alloc, text)? else {
        return Ok(None);
    };
    match Bytes::from_vec(alloc, bytes)? {
        Ok(message) => Ok(Some(message)),
        Err(_) => Ok(None),
    }
}

/// The byte that a text's first two hex digits mean, and the bytes after them.
fn escape_at(text: &[u8]) -> Option<(u8, &[u8])>
    ensures { option_map (λ next. (next.0, next.1.now)) result ≡ escape_at text.now }
{
    let (high, rest) = text.split_first()?;
    let (low, rest) = rest.split_first()?;
    let byte = escaped(*high, *low)?;
    Some((byte, rest))
}

/// The next byte of a text, and the bytes after it.
fn byte_at(text: &[u8]) -> Option<(u8, &[u8])>
    ensures { option_map (λ next. (next.0, next.1.now)) result ≡ byte_at text.now }
{
    let (byte, rest) = text.split_first()?;
    if *byte == b'%' {
        return escape_at(rest);
    }
    is_plain(*byte).then_some((*byte, rest))
}

/// The bytes that a text means, if it means some.
fn bytes_in(alloc: Global, text: &[u8]) -> Result<Option<Vec<u8>>, AllocError>
    ensures { IfOk result (λ bytes. option_map (λ v. v.items) bytes ≡ bytes_in text.now) }
{
    let mut bytes = Vec::new(alloc);
    let mut rest = text;
    while let Some((byte, later)) = byte_at(rest) {
        bytes.push(byte)?;
        rest = later;
    }
    Ok(rest.is_empty().then_some(bytes))
}
