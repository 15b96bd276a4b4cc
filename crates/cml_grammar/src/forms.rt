//! The tables of the lines: which words a declaration and a step have, and what is allowed where.
ghost use Rattle.std.specs.Prelude.{◌≡◌, ◌==◌, not, map, length};
ghost use Rattle.std.specs.Option.{option_map};
ghost use Rattle.cml_grammar.specs.{seat_of, declares_of, declared_places, lane_places, verb_of, step_places, step_form, form_of};
ghost use Rattle.cml_grammar.specs.{places_of, rest_of, seat_of_form, is_name_place, is_fresh, is_used, suits, fresh_word, is_unknown};
ghost use Rattle.cml_grammar.specs.{is_declaring, is_no_step, declares_thread, texts_of, shown};

use crate::names::{Named, seat_of};
use cml_calls::{Ask, Give, Kind, Takers, Text};
use indexmap::IndexMap;

/// The places after `lane`.
const LANE_PLACES: &[Place] = &[Place::Thread, Place::Target, Place::Capacity];

/// What a declaration line declares, if it gives a name.
#[derive(Clone, Copy, Debug, PartialEq, Eq)]
pub enum Declares {
    Mailbox,
    Channel,
    Port,
    IVar,
    MVar,
    Thread,
    Feed,
}

/// What a step line does. Its second word says so.
#[derive(Clone, Copy, Debug, PartialEq, Eq)]
pub enum Verb {
    Give(Give),
    Ask(Ask),
}

/// What is allowed in a word's place.
#[derive(Clone, Copy, Debug, PartialEq, Eq)]
pub enum Place {
    /// A name that the line gives.
    Fresh,
    /// A thread's name.
    Thread,
    /// The name of an object that takes the call.
    Object(Takers),
    /// The name of a mailbox or a channel.
    Target,
    /// The name of a mailbox, a port or a feed.
    Polled,
    /// A message: a number in version 1, a text in version 2.
    Message,
    /// A number from 1 to 1,024.
    Capacity,
}

/// A feed's line: its thread's seat, its channel by its position in the script's list of names, and its capacity.
#[derive(Clone, Copy, Debug, PartialEq, Eq)]
pub struct FeedMaking {
    pub seat: u64,
    pub channel: usize,
    pub capacity: usize,
}

/// What a declaration makes. A port has its channel's position in the script's list of names. An m-variable may have a first
/// message.
#[derive(Debug, Drop)]
pub enum Makes {
    Thread,
    Mailbox,
    Channel,
    Port(usize),
    IVar,
    MVar,
    MVarInit(Text),
    Feed(FeedMaking),
}

/// What a step asks for. The object that it uses is a position in the script's list of names. A message is its word
/// unchanged, in either version.
#[derive(Debug, Drop)]
pub enum Action {
    Give(Give, usize, Text),
    Ask(Ask, usize),
}

/// What kind of line it is, with the words that are left.
#[derive(Clone, Copy)]
pub(crate) enum Form<'a> {
    Unknown,
    Declaration(Declares, &'a [&'a str]),
    Lane(&'a [&'a str]),
    NoStep(u64),
    Step(u64, Verb, &'a [&'a str]),
}

impl Declares {
    fn of_word(word: &str) -> Option<Declares>
        ensures { result ≡ declares_of word.now }
    {
        match word {
            "mailbox" => Some(Declares::Mailbox),
            "channel" => Some(Declares::Channel),
            "port" => Some(Declares::Port),
            "ivar" => Some(Declares::IVar),
            "mvar" => Some(Declares::MVar),
            "thread" => Some(Declares::Thread),
            "feed" => Some(Declares::Feed),
            _ => None,
        }
    }

    /// The places after it, if these are the words there: an m-variable's first message is the second of two words.
    pub(crate) fn places(self, rest: &[&str]) -> &'static [Place]
        ensures { result.now ≡ declared_places self (map (λ w. w.now) rest.now) }
    {
        match self {
            Declares::Mailbox | Declares::Channel | Declares::IVar | Declares::Thread => {
                &[Place::Fresh]
            }
            Declares::Port => &[Place::Object(Takers::Channels), Place::Fresh],
            Declares::MVar => {
                if rest.len() == 2 {
                    &[Place::Fresh, Place::Message]
                } else {
                    &[Place::Fresh]
                }
            }
            Declares::Feed => &[
                Place::Thread,
                Place::Fresh,
                Place::Object(Takers::Channels),
                Place::Capacity,
            ],
        }
    }
}

impl Verb {
    /// Finds the step that has this word.
    pub fn of_word(word: &str) -> Option<Verb>
        ensures { result ≡ verb_of word.now }
    {
        match Give::of_word(word) {
            Some(give) => Some(Verb::Give(give)),
            None => Ask::of_word(word).map(Verb::Ask),
        }
    }

    pub(crate) fn places(self) -> &'static [Place]
        ensures { result.now ≡ step_places self }
    {
        match self {
            Verb::Give(Give::Send) => &[Place::Object(Takers::Mailboxes), Place::Message],
            Verb::Give(Give::Cast) => &[Place::Object(Takers::Channels), Place::Message],
            Verb::Give(Give::Put) => &[Place::Object(Takers::Variables), Place::Message],
            Verb::Give(Give::Swap) => &[Place::Object(Takers::MVars), Place::Message],
            Verb::Ask(Ask::NewPort) => &[Place::Object(Takers::Channels), Place::Fresh],
            Verb::Ask(Ask::CopyPort) => &[Place::Object(Takers::Ports), Place::Fresh],
            Verb::Ask(Ask::ClosePort) => &[Place::Object(Takers::Ports)],
            Verb::Ask(Ask::Recv) => &[Place::Object(Takers::Receivers)],
            Verb::Ask(Ask::Poll) => &[Place::Polled],
            Verb::Ask(Ask::Get | Ask::GetPoll) => &[Place::Object(Takers::Variables)],
            Verb::Ask(Ask::Take | Ask::TakePoll) => &[Place::Object(Takers::MVars)],
        }
    }
}

impl Place {
    pub(crate) fn is_name_place(self) -> bool
        ensures { result ≡ is_name_place self }
    {
        self != Place::Message && self != Place::Capacity
    }

    pub(crate) fn is_fresh(self) -> bool
        ensures { result ≡ is_fresh self }
    {
        self == Place::Fresh
    }

    pub(crate) fn is_used(self) -> bool
        ensures { result ≡ is_used self }
    {
        self.is_name_place() && !self.is_fresh()
    }

    /// Says whether what is named suits this place.
    pub(crate) fn suits(self, named: Named) -> bool
        ensures { result ≡ suits self named }
    {
        match (self, named) {
            (Place::Thread, Named::Thread(_)) | (Place::Polled, Named::Feed(_)) => true,
            (Place::Object(takers), _) => named.kind().is_some_and(|kind| takers.has(kind)),
            (Place::Target, _) => named.kind().is_some_and(Kind::is_source),
            (Place::Polled, _) => named.kind().is_some_and(Kind::is_receiver),
            _ => false,
        }
    }
}

/// The word by which the line gives a name, if it gives one.
pub(crate) fn fresh_word<'a>(places: &[Place], words: &'a [&'a str]) -> Option<&'a str>
    ensures { option_map (λ w. w.now) result ≡ fresh_word places.now (map (λ w. w.now) words.now) }
{
    let (_, word) = places
        .iter()
        .zip(words)
        .find(|(place, _)| place.is_fresh())?;
    Some(*word)
}

impl<'a> Form<'a> {
    pub(crate) fn of_words(names: &IndexMap<String, Named>, words: &'a [&'a str]) -> Form<'a>
        ensures { shown result ≡ form_of (texts_of names.now.entries) (map (λ w. w.now) words.now) }
    {
        let Some((first, rest)) = words.split_first() else {
            return Form::Unknown;
        };
        if let Some(declares) = Declares::of_word(first) {
            return Form::Declaration(declares, rest);
        }
        if *first == "lane" {
            return Form::Lane(rest);
        }
        match seat_of(names, first) {
            Some(seat) => Form::of_step(seat, rest),
            None => Form::Unknown,
        }
    }

    fn of_step(seat: u64, words: &'a [&'a str]) -> Form<'a>
        ensures { shown result ≡ step_form seat (map (λ w. w.now) words.now) }
    {
        let Some((first, rest)) = words.split_first() else {
            return Form::NoStep(seat);
        };
        match Verb::of_word(first) {
            Some(verb) => Form::Step(seat, verb, rest),
            None => Form::NoStep(seat),
        }
    }

    pub(crate) fn places(&self) -> &'static [Place]
        ensures { result.now ≡ places_of (shown self.now) }
    {
        match self {
            Form::Unknown | Form::NoStep(_) => &[],
            Form::Declaration(declares, rest) => declares.places(rest),
            Form::Lane(_) => LANE_PLACES,
            Form::Step(_, verb, _) => verb.places(),
        }
    }

    pub(crate) fn rest(&self) -> &'a [&'a str]
        ensures { map (λ w. w.now) result.now ≡ rest_of (shown self.now) }
    {
        match self {
            Form::Unknown | Form::NoStep(_) => &[],
            Form::Declaration(_, rest) | Form::Lane(rest) | Form::Step(_, _, rest) => rest,
        }
    }

    /// The seat of the thread whose step it is, and 0 for the other lines.
    pub(crate) fn seat(&self) -> u64
        ensures { result ≡ seat_of_form (shown self.now) }
    {
        match self {
            Form::Unknown | Form::Declaration(_, _) | Form::Lane(_) => 0,
            Form::NoStep(seat) | Form::Step(seat, _, _) => *seat,
        }
    }

    pub(crate) fn is_unknown(&self) -> bool
        ensures { result ≡ is_unknown (shown self.now) }
    {
        matches!(self, Form::Unknown)
    }

    pub(crate) fn is_declaration(&self) -> bool
        ensures { result ≡ is_declaring (shown self.now) }
    {
        matches!(self, Form::Declaration(_, _) | Form::Lane(_))
    }

    pub(crate) fn is_no_step(&self) -> bool
        ensures { result ≡ is_no_step (shown self.now) }
    {
        matches!(self, Form::NoStep(_))
    }

    /// Whether there are too few or too many words.
    pub(crate) fn has_other_count(&self) -> bool
        ensures { result ≡ not (length (rest_of (shown self.now)) == length (places_of (shown self.now))) }
    {
        self.rest().len() != self.places().len()
    }

    pub(crate) fn declares_thread(&self) -> bool
        ensures { result ≡ declares_thread (shown self.now) }
    {
        matches!(self, Form::Declaration(Declares::Thread, _))
    }
}
