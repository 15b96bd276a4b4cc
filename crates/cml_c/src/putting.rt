//! Text is written into a buffer that has room for it.
ghost use Rattle.std.specs.Prelude.{◌≡◌, ◌≤◌, ◌<◌, ◌+◌, ◌/◌, ◌%◌, ◌++◌, ◌∷◌, [], length, true, IfSome};
ghost use Rattle.std.specs.Fmt.{decimal, digit_glyph};
ghost use Rattle.std.specs.List.{flat_map, list_all};
ghost use Rattle.std.specs.Option.{option_map};
ghost use Rattle.cml_board.specs.{Call, Reply, Who};
ghost use Rattle.cml_journal.specs.{byte_text, bytes_text, call_text, field, is_plain, reply_text, who_text};
ghost use Rattle.cml_c.specs.{Puts, whole_line};

use cml_board::{Bytes, Call, Entry, Message, Name, Reply, Who};
use cml_journal::Written;
use itoa::write_digits;

/// A message whose word is written so.
pub trait Put: Message + Written {
    /// Writes the word, and returns where it ends.
    fn put(&self, buffer: &mut [u8], at: usize) -> usize
        requires { at + length (Self.text self.now) ≤ length buffer.old }
        ensures { Puts (Self.text self.now) at buffer.old buffer.new result };

    /// The word has no more bytes, if so many can be counted.
    fn most(&self) -> Option<usize>
        ensures { IfSome result (λ most. length (Self.text self.now) ≤ most) };
}

impl Put for u64 {
    fn put(&self, buffer: &mut [u8], at: usize) -> usize {
        put_number(buffer, at, *self)
    }

    fn most(&self) -> Option<usize> {
        Some(most_of_number(*self))
    }
}

impl Put for Bytes {
    fn put(&self, buffer: &mut [u8], at: usize) -> usize {
        put_message(buffer, at, self.as_slice())
    }

    fn most(&self) -> Option<usize> {
        most_of_message(self.as_slice())
    }
}

/// Writes an entry's line with its line end.
pub(crate) fn put_line<M: Put>(buffer: &mut [u8], at: usize, entry: &Entry<M>) -> usize
    requires { at + length (whole_line M.text entry.now) ≤ length buffer.old }
    ensures { Puts (whole_line M.text entry.now) at buffer.old buffer.new result }
{
    let at = put_who(buffer, at, entry.who);
    let at = put_byte(buffer, at, b' ');
    let at = put_call(buffer, at, &entry.call);
    let at = put_text(buffer, at, b": ");
    let at = put_reply(buffer, at, &entry.reply);
    put_byte(buffer, at, b'\n')
}

fn put_who(buffer: &mut [u8], at: usize, who: Who) -> usize
    requires { at + length (who_text who) ≤ length buffer.old }
    ensures { Puts (who_text who) at buffer.old buffer.new result }
{
    match who {
        Who::Seat(number) => put_numbered(buffer, at, b"seat", number),
        Who::Lane(number) => put_numbered(buffer, at, b"lane", number),
        Who::Feed(number) => put_numbered(buffer, at, b"feed", number),
    }
}

/// Writes a call's word, its object's number and its message.
fn put_call<M: Put>(buffer: &mut [u8], at: usize, call: &Call<M>) -> usize
    requires { at + length (call_text M.text call.now) ≤ length buffer.old }
    ensures { Puts (call_text M.text call.now) at buffer.old buffer.new result }
{
    let at = put_text(buffer, at, call.shape().word.as_bytes());
    let at = put_object(buffer, at, call.object());
    put_sent(buffer, at, call.message())
}

fn put_object(buffer: &mut [u8], at: usize, object: Option<Name>) -> usize
    requires { at + length (field (λ name. decimal name.0) object) ≤ length buffer.old }
    ensures { Puts (field (λ name. decimal name.0) object) at buffer.old buffer.new result }
{
    match object {
        None => at,
        Some(name) => put_numbered(buffer, at, b"", name.0),
    }
}

fn put_sent<M: Put>(buffer: &mut [u8], at: usize, message: Option<&M>) -> usize
    requires { at + length (field M.text (option_map (λ sent. sent.now) message)) ≤ length buffer.old }
    ensures { Puts (field M.text (option_map (λ sent. sent.now) message.entry)) at buffer.old buffer.new result }
{
    match message {
        None => at,
        Some(message) => {
            let at = put_byte(buffer, at, b' ');
            message.put(buffer, at)
        }
    }
}

fn put_reply<M: Put>(buffer: &mut [u8], at: usize, reply: &Reply<M>) -> usize
    requires { at + length (reply_text M.text reply.now) ≤ length buffer.old }
    ensures { Puts (reply_text M.text reply.now) at buffer.old buffer.new result }
{
    match reply {
        Reply::Done => put_text(buffer, at, b"done"),
        Reply::Made(name) => put_numbered(buffer, at, b"made", name.0),
        Reply::Got(message) => message.put(buffer, at),
        Reply::Nothing => put_text(buffer, at, b"none"),
        Reply::Put => put_text(buffer, at, b"put"),
        Reply::Closed => put_text(buffer, at, b"closed"),
    }
}

#[inline(always)]
fn put_text(buffer: &mut [u8], at: usize, text: &[u8]) -> usize
    requires { at + length text.now ≤ length buffer.old }
    ensures { Puts text.now at buffer.old buffer.new result }
{
    let end = at + text.len();
    buffer[at..end].copy_from_slice(text);
    end
}

#[inline(always)]
fn put_byte(buffer: &mut [u8], at: usize, byte: u8) -> usize
    requires { at + 1 ≤ length buffer.old }
    ensures { Puts (byte ∷ []) at buffer.old buffer.new result }
{
    buffer[at] = byte;
    at + 1
}

/// Writes a word, a space and a number.
#[inline(always)]
fn put_numbered(buffer: &mut [u8], at: usize, word: &[u8], number: u64) -> usize
    requires { at + length (word.now ++ 32 ∷ decimal number) ≤ length buffer.old }
    ensures { Puts (word.now ++ 32 ∷ decimal number) at buffer.old buffer.new result }
{
    let at = put_text(buffer, at, word);
    let at = put_byte(buffer, at, b' ');
    put_number(buffer, at, number)
}

fn put_number(buffer: &mut [u8], at: usize, number: u64) -> usize
    requires { at + length (decimal number) ≤ length buffer.old }
    ensures { Puts (decimal number) at buffer.old buffer.new result }
{
    let end = at + digits(number);
    write_digits(number, buffer, end);
    end
}

/// How many digits a number has.
fn digits(number: u64) -> usize
    ensures { result ≡ length (decimal number) }
{
    let mut rest = number;
    let mut count = 0;
    while rest >= 10_000 {
        rest /= 10_000;
        count += 4;
    }
    count + few_digits(rest)
}

#[tactic(auto, using(itoa::proofs::Decimal::length_one, itoa::proofs::Decimal::length_two, itoa::proofs::Decimal::length_pair))]
fn few_digits(number: u64) -> usize
    requires { number < 10000 }
    ensures is { result ≡ length (decimal number) }
    ensures few { result ≤ 4 }
{
    match number {
        ..=9 => 1,
        ..=99 => 2,
        ..=999 => 3,
        _ => 4,
    }
}

/// Writes the word of a message of bytes. Most need no escape, and are copied as they are.
fn put_message(buffer: &mut [u8], at: usize, bytes: &[u8]) -> usize
    requires { at + length (bytes_text bytes.now) ≤ length buffer.old }
    ensures { Puts (bytes_text bytes.now) at buffer.old buffer.new result }
{
    let at = put_byte(buffer, at, b'=');
    if are_plain(bytes) {
        put_plain(buffer, at, bytes)
    } else {
        put_escaped_bytes(buffer, at, bytes)
    }
}

#[tactic(auto, using(crate::proofs::PuttingLemmas::plain_as_it_is))]
fn put_plain(buffer: &mut [u8], at: usize, bytes: &[u8]) -> usize
    requires plain { list_all is_plain bytes.now ≡ true }
    requires room { at + length (flat_map byte_text bytes.now) ≤ length buffer.old }
    ensures { Puts (flat_map byte_text bytes.now) at buffer.old buffer.new result }
{
    put_text(buffer, at, bytes)
}

// It looks at each byte, so that the compiler looks at many at once.
fn are_plain(bytes: &[u8]) -> bool
    ensures { result ≡ list_all is_plain bytes.now }
{
    let mut plain = true;
    for byte in bytes {
        plain &= is_plain(*byte);
    }
    plain
}

fn is_plain(byte: u8) -> bool
    ensures { result ≡ is_plain byte }
{
    matches!(byte, b'!'..=b'~') && byte != b'%'
}

fn put_escaped_bytes(buffer: &mut [u8], at: usize, bytes: &[u8]) -> usize
    requires { at + length (flat_map byte_text bytes.now) ≤ length buffer.old }
    ensures { Puts (flat_map byte_text bytes.now) at buffer.old buffer.new result }
{
    let mut end = at;
    for byte in bytes {
        end = put_escaped(buffer, end, *byte);
    }
    end
}

/// Writes a byte as it is, or `%` and two hex digits.
fn put_escaped(buffer: &mut [u8], at: usize, byte: u8) -> usize
    requires { at + length (byte_text byte) ≤ length buffer.old }
    ensures { Puts (byte_text byte) at buffer.old buffer.new result }
{
    if is_plain(byte) {
        put_byte(buffer, at, byte)
    } else {
        put_hex(buffer, at, byte)
    }
}

fn put_hex(buffer: &mut [u8], at: usize, byte: u8) -> usize
    requires { at + 3 ≤ length buffer.old }
    ensures { Puts (37 ∷ digit_glyph true (byte / 16) ∷ digit_glyph true (byte % 16) ∷ []) at buffer.old buffer.new result }
{
    let text = [b'%', hex_digit(byte / 16), hex_digit(byte % 16)];
    put_text(buffer, at, &text)
}

/// A capital hex digit.
fn hex_digit(value: u8) -> u8
    requires { value < 16 }
    ensures { result ≡ digit_glyph true value }
{
    match value {
        ..=9 => b'0' + value,
        _ => b'A' - 10 + value,
    }
}

/// An entry's line has no more bytes with its line end, if so many can be counted.
pub(crate) fn most_of<M: Put>(entry: &Entry<M>) -> Option<usize>
    ensures { IfSome result (λ most. length (whole_line M.text entry.now) ≤ most) }
{
    let sent = most_of_sent(entry.call.message())?;
    let replied = most_of_reply(&entry.reply)?;
    let bare = most_of_who(entry.who) + most_of_object(entry.call.object()) + WORDS;
    sent.checked_add(replied)?.checked_add(bare)
}

fn most_of_sent<M: Put>(message: Option<&M>) -> Option<usize>
    ensures { IfSome result (λ most. length (field M.text (option_map (λ sent. sent.now) message.entry)) ≤ most) }
{
    match message {
        None => Some(0),
        Some(message) => message.most()?.checked_add(1),
    }
}

fn most_of_reply<M: Put>(reply: &Reply<M>) -> Option<usize>
    ensures { IfSome result (λ most. length (reply_text M.text reply.now) ≤ most) }
{
    match reply {
        Reply::Done | Reply::Nothing | Reply::Put | Reply::Closed => Some(6),
        Reply::Made(name) => Some(5 + most_of_number(name.0)),
        Reply::Got(message) => message.most(),
    }
}

fn most_of_who(who: Who) -> usize
    ensures enough { length (who_text who) ≤ result }
    ensures few { result ≤ 25 }
{
    match who {
        Who::Seat(number) | Who::Lane(number) | Who::Feed(number) => 5 + most_of_number(number),
    }
}

fn most_of_object(object: Option<Name>) -> usize
    ensures enough { length (field (λ name. decimal name.0) object) ≤ result }
    ensures few { result ≤ 21 }
{
    match object {
        None => 0,
        Some(name) => 1 + most_of_number(name.0),
    }
}

#[tactic(auto, using(crate::proofs::PuttingLemmas::at_most_twenty))]
fn most_of_number(number: u64) -> usize
    ensures enough { length (decimal number) ≤ result }
    ensures few { result ≤ 20 }
{
    let _ = number;
    20
}

#[tactic(auto, using(crate::proofs::PuttingLemmas::escaped_at_most))]
fn most_of_message(bytes: &[u8]) -> Option<usize>
    ensures { IfSome result (λ most. length (bytes_text bytes.now) ≤ most) }
{
    bytes.len().checked_mul(3)?.checked_add(1)
}

/// A call's word, the signs between the parts of a line, and its line end have no more bytes.
const WORDS: usize = 16;
