//! Names and numbers, and look-ups among the names given.
ghost use Rattle.std.specs.Prelude.{◌≡◌, ◌^◌, ◌<◌, Some, None, if◌then◌else◌};
ghost use Rattle.std.specs.Str.Parse.{digits_value};
ghost use Rattle.cml_grammar.specs.{kind_of_named, is_letter, is_name_byte, is_reserved, is_name, is_number, is_capacity, named, seat_of};
ghost use Rattle.cml_grammar.specs.{position_of, is_given, is_others, texts_of};

use cml_calls::Kind;
use indexmap::IndexMap;

/// The most messages that a lane or a feed may be given room for.
const MAX_CAPACITY: u64 = 1_024;

/// Who may use a port.
#[derive(Clone, Copy, Debug, PartialEq, Eq)]
pub enum Users {
    /// Every thread: the port was declared.
    Every,
    /// The thread with this seat: one of its steps made the port.
    One(u64),
}

/// The thing that a name of a script names.
#[derive(Clone, Copy, Debug, PartialEq, Eq)]
pub enum Named {
    /// A thread, and its seat: the k-th declared thread, from 1, has seat k.
    Thread(u64),
    Mailbox,
    Channel,
    Port(Users),
    IVar,
    MVar,
    /// A feed, and the seat of its thread.
    Feed(u64),
}

impl Named {
    /// Returns the kind of object that it names. Returns `None` for a thread and for a feed.
    pub fn kind(self) -> Option<Kind>
        ensures { result ≡ kind_of_named self }
    {
        match self {
            Named::Thread(_) | Named::Feed(_) => None,
            Named::Mailbox => Some(Kind::Mailbox),
            Named::Channel => Some(Kind::Channel),
            Named::Port(_) => Some(Kind::Port),
            Named::IVar => Some(Kind::IVar),
            Named::MVar => Some(Kind::MVar),
        }
    }

    /// Whether it is a port or a feed of another seat than this one.
    pub(crate) fn is_others(self, seat: u64) -> bool
        ensures { result ≡ is_others seat self }
    {
        match self {
            Named::Port(Users::One(owner)) | Named::Feed(owner) => owner != seat,
            _ => false,
        }
    }
}

fn is_letter(byte: u8) -> bool
    ensures { result ≡ is_letter byte }
{
    matches!(byte, b'A'..=b'Z' | b'a'..=b'z')
}

fn is_name_byte(byte: u8) -> bool
    ensures { result ≡ is_name_byte byte }
{
    is_letter(byte) || matches!(byte, b'0'..=b'9') || byte == b'_'
}

/// Whether scripts reserve the word, now or for later, so that it is no name.
fn is_reserved(word: &str) -> bool
    ensures { result ≡ is_reserved word.now }
{
    matches!(
        word,
        "cml" | "mailbox" | "channel" | "port" | "ivar" | "mvar" | "thread" | "lane" | "feed"
    )
}

/// Says whether the word is a name: a letter and at most 31 letters, digits and `_`, and not a reserved word.
pub fn is_name(word: &str) -> bool
    ensures { result ≡ is_name word.now }
{
    let Some((first, rest)) = word.as_bytes().split_first() else {
        return false;
    };
    if !is_letter(*first) || rest.len() > 31 || is_reserved(word) {
        return false;
    }
    rest.iter().all(|byte| is_name_byte(*byte))
}

/// Returns the number below 2^64 that a word is in decimal digits. Returns `None` if it is none, or has a zero in front.
pub fn number_of(word: &str) -> Option<u64>
    ensures { result ≡ (if is_number word.now then Some (digits_value 10 word.now) else None) }
{
    let first = word.as_bytes().first()?;
    if *first == b'0' {
        return (word.len() == 1).then_some(0);
    }
    if *first == b'+' {
        return None;
    }
    word.parse().ok()
}

/// The capacity that a word is, if it is one.
pub(crate) fn capacity_in(word: &str) -> Option<usize>
    ensures { result ≡ (if is_capacity word.now then Some (digits_value 10 word.now) else None) }
{
    let number = number_of(word)?;
    if number < 1 || number > MAX_CAPACITY {
        return None;
    }
    Some(number as usize)
}

pub(crate) fn find_named(names: &IndexMap<String, Named>, word: &str) -> Option<Named>
    ensures { result ≡ named (texts_of names.now.entries) word.now }
{
    names.get(word).copied()
}

pub(crate) fn is_given(names: &IndexMap<String, Named>, word: &str) -> bool
    ensures { result ≡ is_given (texts_of names.now.entries) word.now }
{
    names.contains_key(word)
}

/// The seat of the thread with this name.
pub(crate) fn seat_of(names: &IndexMap<String, Named>, word: &str) -> Option<u64>
    ensures { result ≡ seat_of (texts_of names.now.entries) word.now }
{
    match find_named(names, word)? {
        Named::Thread(seat) => Some(seat),
        _ => None,
    }
}

pub(crate) fn position_of(names: &IndexMap<String, Named>, word: &str) -> Option<usize>
    ensures { result ≡ position_of (texts_of names.now.entries) word.now }
{
    names.get_index_of(word)
}
