//! What a line that is without fault asks for.
ghost use Rattle.std.specs.Prelude.{◌≡◌, ◌+◌, ◌^◌, ◌<◌, [], ◌∷◌, length, map, Some, true, is_some, All, IfOk};
ghost use Rattle.std.specs.Option.{option_map};
ghost use Rattle.std.specs.Str.Parse.{digits_value};
ghost use Rattle.cml_calls.specs.{is_text};
ghost use Rattle.cml_grammar.specs.{is_capacity, is_given, position_of, seat_of, thread_count, declared_places, lane_places, step_places};
ghost use Rattle.cml_grammar.specs.{fresh_word, owner_of, named_by, ends_by, feed_by, makes_by, action_by, lane_by, texts_of, UsesWell};
ghost use Rattle.cml_grammar.specs.{IsMadeWell, IsSeatedWithin, threads_by, AllSuit};

use crate::forms::{Action, Declares, FeedMaking, Makes, Verb, fresh_word};
use crate::names::{Named, Users, capacity_in, position_of, seat_of};
use crate::script::{Lane, Line};
use cml_calls::Text;
use indexmap::IndexMap;
use std::alloc::{AllocError, Global};

/// The position of a name that was given.
fn given_position(names: &IndexMap<String, Named>, word: &str) -> usize
    requires { is_given (texts_of names.now.entries) word.now ≡ true }
    ensures { position_of (texts_of names.now.entries) word.now ≡ Some result }
{
    position_of(names, word).unwrap()
}

/// The message that the words are, one word alone.
fn message_in(alloc: Global, words: &[&str]) -> Result<Text, AllocError>
    requires { map (λ w. is_text w.now) words.now ≡ true ∷ [] }
    ensures value { IfOk result (λ message. map (λ w. w.now) words.now ≡ message ∷ []) }
    ensures fits { IfOk result (λ message. is_text message ≡ true) }
{
    let Some(word) = words.first() else {
        unreachable!();
    };
    match Text::from_bytes(alloc, word.as_bytes())? {
        Ok(message) => Ok(message),
        Err(_) => unreachable!(),
    }
}

/// The seat of a thread that was declared.
fn given_seat(names: &IndexMap<String, Named>, word: &str) -> u64
    requires { is_some (seat_of (texts_of names.now.entries) word.now) ≡ true }
    ensures { seat_of (texts_of names.now.entries) word.now ≡ Some result }
{
    seat_of(names, word).unwrap()
}

/// The capacity that a word is.
fn given_capacity(word: &str) -> usize
    requires { is_capacity word.now ≡ true }
    ensures { digits_value 10 word.now ≡ result }
{
    capacity_in(word).unwrap()
}

/// What a feed's line says whose words suit their places.
#[tactic(auto, using(crate::proofs::RingLemmas::feed_words))]
fn feed_by(names: &IndexMap<String, Named>, rest: &[&str]) -> FeedMaking
    requires { AllSuit (texts_of names.now.entries)
        (declared_places Declares.Feed (map (λ w. w.now) rest.now)) (map (λ w. w.now) rest.now) }
    ensures { feed_by (texts_of names.now.entries) (map (λ w. w.now) rest.now) ≡ Some result }
{
    FeedMaking {
        seat: given_seat(names, rest[0]),
        channel: given_position(names, rest[2]),
        capacity: given_capacity(rest[3]),
    }
}

/// The lane of a lane line whose words suit their places.
#[tactic(auto, using(crate::proofs::RingLemmas::lane_words))]
pub(crate) fn lane_by(names: &IndexMap<String, Named>, line: Line, rest: &[&str]) -> Lane
    requires { AllSuit (texts_of names.now.entries) lane_places (map (λ w. w.now) rest.now) }
    ensures line { result.line ≡ line }
    ensures says { lane_by (texts_of names.now.entries) (map (λ w. w.now) rest.now) ≡ Some ((result.seat, result.target), result.capacity) }
{
    Lane {
        line,
        seat: given_seat(names, rest[0]),
        target: given_position(names, rest[1]),
        capacity: given_capacity(rest[2]),
    }
}

/// The seat and the object's position that the words after `lane` say, if they name a thread and something.
pub(crate) fn ends_by(names: &IndexMap<String, Named>, rest: &[&str]) -> Option<(u64, usize)>
    ensures { result ≡ ends_by (texts_of names.now.entries) (map (λ w. w.now) rest.now) }
{
    let (thread, more) = rest.split_first()?;
    let target = more.first()?;
    let seat = seat_of(names, thread)?;
    let at = position_of(names, target)?;
    Some((seat, at))
}

/// What a declaration makes whose words suit their places.
pub(crate) fn makes_by(
    alloc: Global,
    names: &IndexMap<String, Named>,
    declares: Declares,
    rest: &[&str],
) -> Result<Makes, AllocError>
    requires suits { AllSuit (texts_of names.now.entries)
        (declared_places declares (map (λ w. w.now) rest.now)) (map (λ w. w.now) rest.now) }
    requires seats { All (λ g. IsSeatedWithin (thread_count (texts_of names.now.entries)) g.1) (texts_of names.now.entries) }
    ensures makes { IfOk result (λ made. makes_by (texts_of names.now.entries) declares (map (λ w. w.now) rest.now) ≡ Some made) }
    ensures uses { IfOk result (λ made. IsMadeWell (texts_of names.now.entries) (length (texts_of names.now.entries)) made) }
{
    match declares {
        Declares::Mailbox => Ok(Makes::Mailbox),
        Declares::Channel => Ok(Makes::Channel),
        Declares::Port => match rest.first() {
            Some(channel) => Ok(Makes::Port(given_position(names, channel))),
            None => unreachable!(),
        },
        Declares::IVar => Ok(Makes::IVar),
        Declares::MVar => match rest.split_first() {
            Some((_, words)) if !words.is_empty() => {
                let message = message_in(alloc, words)?;
                Ok(Makes::MVarInit(message))
            }
            _ => Ok(Makes::MVar),
        },
        Declares::Thread => Ok(Makes::Thread),
        Declares::Feed => Ok(Makes::Feed(feed_by(names, rest))),
    }
}

/// The seat of the thread that is first in a feed's line, and 0 if none is.
pub(crate) fn owner_of(names: &IndexMap<String, Named>, rest: &[&str]) -> u64
    ensures { result ≡ owner_of (texts_of names.now.entries) (map (λ w. w.now) rest.now) }
{
    match rest.first() {
        Some(thread) => seat_of(names, thread).unwrap_or(0),
        None => 0,
    }
}

/// The name that a declaration gives whose words suit their places.
pub(crate) fn name_by<'a>(
    names: &IndexMap<String, Named>,
    declares: Declares,
    rest: &'a [&'a str],
) -> &'a str
    requires { AllSuit (texts_of names.now.entries) (declared_places declares (map (λ w. w.now) rest.now)) (map (λ w. w.now) rest.now) }
    ensures { fresh_word (declared_places declares (map (λ w. w.now) rest.now)) (map (λ w. w.now) rest.now) ≡ Some result.now }
{
    fresh_word(declares.places(rest), rest).unwrap()
}

/// What the name of a declaration names, if `threads` threads were declared before. A feed is the owner's.
pub(crate) fn named_by(declares: Declares, threads: u64, owner: u64) -> Named
    requires { threads < 2 ^ 32 }
    ensures { result ≡ named_by declares threads owner }
{
    match declares {
        Declares::Mailbox => Named::Mailbox,
        Declares::Channel => Named::Channel,
        Declares::Port => Named::Port(Users::Every),
        Declares::IVar => Named::IVar,
        Declares::MVar => Named::MVar,
        Declares::Thread => Named::Thread(threads + 1),
        Declares::Feed => Named::Feed(owner),
    }
}

/// The name that a step gives, if it gives one.
pub(crate) fn name_given<'a>(verb: Verb, rest: &'a [&'a str]) -> Option<&'a str>
    ensures { option_map (λ w. w.now) result ≡ fresh_word (step_places verb) (map (λ w. w.now) rest.now) }
{
    fresh_word(verb.places(), rest)
}

/// How many threads there are with the one that is declared, if it is one.
pub(crate) fn threads_with(declares: Declares, threads: u64) -> u64
    requires { threads < 2 ^ 32 }
    ensures { result ≡ threads + threads_by declares }
{
    match declares {
        Declares::Thread => threads + 1,
        _ => threads,
    }
}

/// What a step asks for whose words suit their places.
pub(crate) fn action_by(
    alloc: Global,
    names: &IndexMap<String, Named>,
    verb: Verb,
    rest: &[&str],
) -> Result<Action, AllocError>
    requires { AllSuit (texts_of names.now.entries) (step_places verb) (map (λ w. w.now) rest.now) }
    ensures action { IfOk result (λ action. action_by (texts_of names.now.entries) verb (map (λ w. w.now) rest.now) ≡ Some action) }
    ensures uses { IfOk result (λ action. UsesWell (texts_of names.now.entries) action) }
{
    let Some((object, more)) = rest.split_first() else {
        unreachable!();
    };
    let at = given_position(names, object);
    match verb {
        Verb::Give(give) => Ok(Action::Give(give, at, message_in(alloc, more)?)),
        Verb::Ask(ask) => Ok(Action::Ask(ask, at)),
    }
}
