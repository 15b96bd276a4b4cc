//! Words of a line.
ghost use Rattle.std.specs.Prelude.{◌≡◌, Ok};
ghost use Rattle.std.specs.Option.{option_map};
ghost use Rattle.cml_journal.specs.{Gives, cut, without_colon, word_at, last_at, number_in, name_in, numbered, number_before, tailed};

use crate::fault::{Unread, What};
use cml_board::Name;
use cml_grammar::number_of;

/// The bytes before the first space, and those after it.
pub(crate) fn cut(line: &str) -> Option<(&str, &str)>
    ensures { option_map (λ parts. (parts.0.now, parts.1.now)) result ≡ cut line.now }
{
    line.split_once(' ')
}

pub(crate) fn without_colon(word: &str) -> Option<&str>
    ensures { option_map (λ word. word.now) result ≡ without_colon word.now }
{
    word.strip_suffix(':')
}

/// The next word, and the bytes after its space.
#[tactic(auto, unfolding(crate::specs::Reading::word_at))]
pub(crate) fn word_at(line: &str) -> Result<(&str, &str), Unread>
    ensures { Gives (λ parts. (parts.0.now, parts.1.now)) result (word_at line.now) }
{
    match cut(line) {
        Some(parts) => Ok(parts),
        None => Err(Unread::Fault(What::Short)),
    }
}

/// The next word, if a colon ends it.
#[tactic(auto, unfolding(crate::specs::Reading::last_at))]
pub(crate) fn last_at(line: &str) -> Result<(&str, &str), Unread>
    ensures { Gives (λ parts. (parts.0.now, parts.1.now)) result (last_at line.now) }
{
    let (word, rest) = word_at(line)?;
    match without_colon(word) {
        Some(word) => Ok((word, rest)),
        None => Err(Unread::Fault(What::NoColon)),
    }
}

#[tactic(auto, unfolding(crate::specs::Reading::number_in))]
pub(crate) fn number_in(word: &str) -> Result<u64, Unread>
    ensures { Gives (λ number. number) result (number_in word.now) }
{
    match number_of(word) {
        Some(number) => Ok(number),
        None => Err(Unread::Fault(What::BadNumber)),
    }
}

#[tactic(auto, unfolding(crate::specs::Reading::name_in))]
pub(crate) fn name_in(word: &str) -> Result<Name, Unread>
    ensures { Gives (λ name. name) result (name_in word.now) }
{
    let number = number_in(word)?;
    Ok(Name(number))
}

/// The number after this word, if the line has just these.
pub(crate) fn numbered(word: &str, line: &str) -> Option<u64>
    ensures { result ≡ numbered word.now line.now }
{
    match cut(line) {
        Some((first, number)) if first == word => number_of(number),
        _ => None,
    }
}

/// The number after this word, and what is after that.
pub(crate) fn tailed<'a>(word: &str, line: &'a str) -> Option<(u64, &'a str)>
    ensures { option_map (λ found. (found.0, found.1.now)) result ≡ tailed word.now line.now }
{
    match cut(line) {
        Some((first, rest)) if first == word => number_before(rest),
        _ => None,
    }
}

fn number_before(text: &str) -> Option<(u64, &str)>
    ensures { option_map (λ found. (found.0, found.1.now)) result ≡ number_before text.now }
{
    let (word, rest) = cut(text)?;
    let number = number_of(word)?;
    Some((number, rest))
}
