//! The table of faults: its tests of a line's form, and of each word in its place.
ghost use Rattle.std.specs.Prelude.{◌≡◌, ◌&&◌, nat_le, false};
ghost use Rattle.std.specs.Map.{keys_of};
ghost use Rattle.std.specs.Option.{option_map_or};
ghost use Rattle.cml_grammar.specs.{thread_count, named, suits, is_others, is_late, is_bad_number, is_bad_text, is_lane_taken};
ghost use Rattle.cml_grammar.specs.{declares_thread, first_of, any_word, tests_of_form, has_flaw, texts_of, shown};

use crate::fault::What;
use crate::forms::{Form, Place};
use crate::meaning::ends_by;
use crate::names::{Named, capacity_in, find_named, is_given, is_name, number_of};
use cml_calls::is_text;
use indexmap::IndexMap;

/// The most threads that a script may declare.
const MAX_THREADS: u64 = 64;

/// What may be wrong with a word in its place.
#[derive(Clone, Copy)]
enum Flaw {
    BadName,
    Taken,
    UnknownName,
    WrongKind,
    /// It names a port or a feed of another seat than this one.
    NotYours(u64),
    /// It is not a number, in a place where a script of this version has one.
    BadNumber(u64),
    /// It is not a text, in a place where a script of this version has one.
    BadText(u64),
}

fn has_flaw(names: &IndexMap<String, Named>, flaw: Flaw, place: Place, word: &str) -> bool
    ensures { result ≡ has_flaw (texts_of names.now.entries) flaw place word.now }
{
    match flaw {
        Flaw::BadName => place.is_name_place() && !is_name(word),
        Flaw::Taken => place.is_fresh() && is_given(names, word),
        Flaw::UnknownName => place.is_used() && !is_given(names, word),
        Flaw::WrongKind => place.is_used() && !names_suiting(names, place, word),
        Flaw::NotYours(seat) => place.is_used() && names_others(names, seat, word),
        Flaw::BadNumber(version) => is_bad_number(version, place, word),
        Flaw::BadText(version) => is_bad_text(version, place, word),
    }
}

/// Messages of version 1 are numbers, and so are capacities.
fn is_bad_number(version: u64, place: Place, word: &str) -> bool
    ensures { result ≡ is_bad_number version place word.now }
{
    match place {
        Place::Message => version != 2 && number_of(word).is_none(),
        Place::Capacity => capacity_in(word).is_none(),
        _ => false,
    }
}

/// Messages of version 2 are texts.
fn is_bad_text(version: u64, place: Place, word: &str) -> bool
    ensures { result ≡ is_bad_text version place word.now }
{
    match place {
        Place::Message => version == 2 && !is_text(word.as_bytes()),
        _ => false,
    }
}

/// Says whether the word names something that suits the place.
fn names_suiting(names: &IndexMap<String, Named>, place: Place, word: &str) -> bool
    ensures { result ≡ option_map_or (suits place) (named (texts_of names.now.entries) word.now) false }
{
    match find_named(names, word) {
        Some(named) => place.suits(named),
        None => false,
    }
}

/// Whether the word names a port or a feed of another seat than this one.
fn names_others(names: &IndexMap<String, Named>, seat: u64, word: &str) -> bool
    ensures { result ≡ option_map_or (is_others seat) (named (texts_of names.now.entries) word.now) false }
{
    match find_named(names, word) {
        Some(named) => named.is_others(seat),
        None => false,
    }
}

/// Whether some word in its place has the flaw.
fn any_word(names: &IndexMap<String, Named>, form: &Form, flaw: Flaw) -> bool
    ensures { result ≡ any_word (has_flaw (texts_of names.now.entries) flaw) (shown form.now) }
{
    let places = form.places();
    places
        .iter()
        .zip(form.rest())
        .any(|(place, word)| has_flaw(names, flaw, *place, word))
}

fn is_late(started: bool, form: &Form) -> bool
    ensures { result ≡ is_late started (shown form.now) }
{
    started && form.is_declaration()
}

/// Whether it is a lane line for a thread and an object that have one.
fn is_lane_taken(
    names: &IndexMap<String, Named>,
    lanes: &IndexMap<(u64, usize), usize>,
    form: &Form,
) -> bool
    ensures { result ≡ is_lane_taken (texts_of names.now.entries) (keys_of lanes.now.entries) (shown form.now) }
{
    let Form::Lane(rest) = form else {
        return false;
    };
    match ends_by(names, rest) {
        Some(ends) => lanes.contains_key(&ends),
        None => false,
    }
}

fn is_thread_too_many(threads: u64, form: &Form) -> bool
    ensures { result ≡ (declares_thread (shown form.now) && nat_le 64 threads) }
{
    form.declares_thread() && threads >= MAX_THREADS
}

/// The first test that holds.
fn first_of(tests: &[(bool, What)]) -> Option<What>
    ensures { result ≡ first_of tests.now }
{
    for (holds, what) in tests {
        if *holds {
            return Some(*what);
        }
    }
    None
}

/// Finds the first fault of a line of this form in a script of this version. `names` are those given so far, and `threads`
/// of them are threads'. `started` says whether a step was seen. `lanes` has the ends of the lanes so far.
pub(crate) fn fault_in_form(
    version: u64,
    names: &IndexMap<String, Named>,
    threads: u64,
    started: bool,
    lanes: &IndexMap<(u64, usize), usize>,
    form: &Form,
) -> Option<What>
    requires { threads ≡ thread_count (texts_of names.now.entries) }
    ensures { result ≡ first_of (tests_of_form
        (record { version = version; names = texts_of names.now.entries; started = started; lanes = keys_of lanes.now.entries })
        (shown form.now)) }
{
    let seat = form.seat();
    let tests = [
        (form.is_unknown(), What::UnknownLine),
        (is_late(started, form), What::LateDeclaration),
        (form.is_no_step(), What::UnknownStep),
        (form.has_other_count(), What::WordCount),
        (any_word(names, form, Flaw::BadName), What::BadName),
        (any_word(names, form, Flaw::Taken), What::NameTaken),
        (any_word(names, form, Flaw::UnknownName), What::UnknownName),
        (any_word(names, form, Flaw::WrongKind), What::WrongKind),
        (any_word(names, form, Flaw::NotYours(seat)), What::NotYours),
        (
            any_word(names, form, Flaw::BadNumber(version)),
            What::BadNumber,
        ),
        (any_word(names, form, Flaw::BadText(version)), What::BadText),
        (is_lane_taken(names, lanes, form), What::LaneTaken),
        (is_thread_too_many(threads, form), What::TooManyThreads),
    ];
    first_of(&tests)
}
