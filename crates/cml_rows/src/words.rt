//! What the words of a line say.
ghost use Rattle.std.specs.Prelude.{◌^◌, ◌≤◌};

use crate::numbered::{Maker, Numbered};
use crate::told::Told;
use cml_board::{Ask, Call, Give, Make, Name, Reply};

/// Whether a line asks for nothing: it is empty, a note, or a case's name.
pub fn is_note(line: &str) -> bool {
    line.is_empty() || line.starts_with('#') || line.starts_with("==")
}

/// The first line of a case that asks for something.
pub fn first_line(lines: &[String]) -> Option<&str> {
    for line in lines.iter() {
        if !is_note(line.as_str()) {
            return Some(line.as_str());
        }
    }
    None
}

/// The journal's limit in a case's first line, as in `hall 10: limit 10`, or 100 if the line has none.
pub fn limit_in(lines: &[String]) -> u64
    ensures least { 1 ≤ result }
    ensures most { result ≤ 2 ^ 32 }
{
    let words = first_line(lines).unwrap_or("");
    let (words, _) = words.split_once(':').unwrap_or((words, ""));
    let limit = match words.split_once(' ') {
        Some((_, limit)) => limit.parse().unwrap_or(100),
        None => 100,
    };
    limit.max(1).min(4_294_967_296)
}

/// The call that these words ask for. An object goes by its number.
pub fn call_of<M: Numbered>(told: &mut Told, maker: &Maker<M>, words: &[&str]) -> Option<Call<M>> {
    let (word, rest) = words.split_first()?;
    if let Some(make) = Make::of_word(word) {
        return making_call(told, maker, make, rest);
    }
    let name = object(rest)?;
    if let Some(give) = Give::of_word(word) {
        let message = maker.make(told, number(rest, 1)?)?;
        return Some(Call::give(give, name, message));
    }
    Some(Call::ask(Ask::of_word(word)?, name))
}

/// The call that makes an object. An m-variable holds the number after the word, if there is one.
fn making_call<M: Numbered>(
    told: &mut Told,
    maker: &Maker<M>,
    make: Make,
    rest: &[&str],
) -> Option<Call<M>> {
    match number(rest, 0) {
        Some(value) if make == Make::MVar => Some(Call::MVarInit(maker.make(told, value)?)),
        _ => Some(Call::make(make)),
    }
}

/// The call that these words ask for, and the same call once more.
pub fn call_and_copy<M: Numbered>(
    told: &mut Told,
    maker: &Maker<M>,
    words: &[&str],
) -> Option<(Call<M>, Call<M>)> {
    let call = call_of(told, maker, words)?;
    Some((call, call_of(told, maker, words)?))
}

/// The reply that this text is, as a table writes it.
pub fn reply_of<M: Numbered>(told: &mut Told, maker: &Maker<M>, text: &str) -> Option<Reply<M>> {
    match text {
        "done" => Some(Reply::Done),
        "none" => Some(Reply::Nothing),
        "put" => Some(Reply::Put),
        "closed" => Some(Reply::Closed),
        _ => given_by(told, maker, text),
    }
}

/// The reply that gives a name or a message.
fn given_by<M: Numbered>(told: &mut Told, maker: &Maker<M>, text: &str) -> Option<Reply<M>> {
    if let Some(name) = text.strip_prefix("made ") {
        return Some(Reply::Made(Name(parsed(name)?)));
    }
    let value = parsed(text)?;
    Some(Reply::Got(maker.make(told, value)?))
}

/// The object that the first word names.
pub fn object(words: &[&str]) -> Option<Name> {
    Some(Name(number(words, 0)?))
}

pub fn number(words: &[&str], at: usize) -> Option<u64> {
    parsed(words.get(at)?)
}

fn parsed(word: &str) -> Option<u64> {
    word.parse().ok()
}
