//! What the lines of a report are, by their words.
ghost use Rattle.std.specs.Prelude.{◌≡◌};
ghost use Rattle.std.specs.Option.{option_map};
ghost use Rattle.cml_grammar.specs.{is_number};
ghost use Rattle.cml_chart.specs.{doer_of, row_of, makes_port, says, may_answer, may_do, behind_step, object_of, deed_by, deed_of};
ghost use Rattle.cml_chart.specs.{is_closing, thing_of, may_leave, ended_of, line_by, before_colon, is_message, is_for, fits, texts};
ghost use Rattle.cml_chart.specs.{shown_actor, shown_act, shown_object, shown_end, shown_line};

use crate::report::{Act, Actor, End, Line, Object};
use cml_calls::{Ask, Give, ReplyKind, is_text};
use cml_grammar::{Verb, is_name, number_of};

/// Finds the line that these words are after `count` lines of the first part: the last line, a line of the second part, or
/// a line of the first, in this order.
pub(crate) fn line_by<'a>(line: &'a str, words: &[&'a str], count: usize) -> Option<Line<'a>>
    ensures { option_map shown_line result ≡ line_by count line.now (texts words.now) }
{
    if let Some(end) = end_of(line, words, count) {
        return Some(Line::End(end));
    }
    if let Some(object) = thing_of(line, words) {
        return Some(Line::Object(object));
    }
    let act = act_of(line, words)?;
    Some(Line::Act(act))
}

/// The act that a line of the first part reports.
#[tactic(auto, unfolding(crate::specs::Lines::deed_of))]
fn act_of<'a>(line: &'a str, words: &[&'a str]) -> Option<Act<'a>>
    ensures { option_map shown_act result ≡ deed_of line.now (texts words.now) }
{
    let (actor, rest) = actor_of(words)?;
    act_by(actor, line, rest)
}

fn actor_of<'a, 'w>(words: &'w [&'a str]) -> Option<(Actor<'a>, &'w [&'a str])>
    ensures { option_map (λ found. (shown_actor found.0, texts found.1.now)) result ≡ doer_of (texts words.now) }
{
    let (first, rest) = words.split_first()?;
    if is_name(first) {
        return Some((Actor::Thread(first), rest));
    }
    let (number, rest) = rest.split_first()?;
    match *first {
        "lane" if is_number(number) => Some((Actor::Lane(number), rest)),
        "feed" if is_number(number) => Some((Actor::Feed(number), rest)),
        _ => None,
    }
}

/// The act that a step's words are, and the reply after them.
fn act_by<'a>(actor: Actor<'a>, line: &'a str, words: &[&'a str]) -> Option<Act<'a>>
    ensures { option_map shown_act result ≡ deed_by (shown_actor actor.entry) line.now (texts words.now) }
{
    let (word, rest) = words.split_first()?;
    let verb = Verb::of_word(word)?;
    let (first, last, reply) = behind_step(rest)?;
    if !may_do(actor, verb, reply) {
        return None;
    }
    let (object, with) = object_of(actor, verb, first, before_colon(last)?)?;
    Some(Act {
        actor,
        verb,
        word,
        object,
        with,
        reply,
        line,
    })
}

/// What follows a step's word: one word or two, and the reply.
fn behind_step<'a>(words: &[&'a str]) -> Option<(Option<&'a str>, &'a str, &'a str)>
    ensures { option_map (λ found. (option_map (λ w. w.now) found.0, found.1.now, found.2.now)) result ≡ behind_step (texts words.now) }
{
    let (first, rest) = words.split_first()?;
    let (second, rest) = rest.split_first()?;
    match rest.split_first() {
        None => Some((None, first, second)),
        Some((reply, [])) => Some((Some(first), second, reply)),
        Some(_) => None,
    }
}

/// The object of a step, and what is beside it.
fn object_of<'a>(
    actor: Actor<'_>,
    verb: Verb,
    first: Option<&'a str>,
    last: &'a str,
) -> Option<(&'a str, Option<&'a str>)>
    ensures { option_map (λ found. (found.0.now, option_map (λ w. w.now) found.1)) result
        ≡ object_of (shown_actor actor.entry) verb (option_map (λ w. w.now) first.entry) last.now }
{
    let is_given = match actor {
        Actor::Lane(_) => is_message(last),
        Actor::Thread(_) | Actor::Feed(_) => is_text(last.as_bytes()),
    };
    match (verb, first) {
        (Verb::Give(_), Some(object)) if is_given => Some((object, Some(last))),
        (Verb::Ask(_), Some(source)) if makes_port(verb) => Some((last, Some(source))),
        (Verb::Ask(_), None) if !makes_port(verb) => Some((last, None)),
        _ => None,
    }
}

fn may_do(actor: Actor<'_>, verb: Verb, reply: &str) -> bool
    ensures { result ≡ may_do (shown_actor actor.entry) verb reply.now }
{
    match (actor, verb) {
        (Actor::Thread(_), _) => may_answer(verb, reply),
        (Actor::Lane(_), Verb::Give(Give::Send | Give::Cast)) => says(ReplyKind::Done, reply),
        (Actor::Feed(_), Verb::Ask(Ask::Recv)) => says(ReplyKind::Got, reply),
        _ => false,
    }
}

/// Returns the kinds of reply that a step may have.
pub(crate) fn replies_to(verb: Verb) -> &'static [ReplyKind]
    ensures { result.now ≡ (row_of verb).replies }
{
    match verb {
        Verb::Give(give) => give.shape().replies,
        Verb::Ask(ask) => ask.shape().replies,
    }
}

/// Says whether a step makes a port. The report then has the port's name.
pub(crate) fn makes_port(verb: Verb) -> bool
    ensures { result ≡ makes_port verb }
{
    replies_to(verb).contains(&ReplyKind::Made)
}

/// Whether a step may have this reply.
fn may_answer(verb: Verb, reply: &str) -> bool
    ensures { result ≡ may_answer verb reply.now }
{
    replies_to(verb).iter().any(|kind| says(*kind, reply))
}

/// Whether a reply of this kind says this.
fn says(kind: ReplyKind, reply: &str) -> bool
    ensures { result ≡ says kind reply.now }
{
    match kind {
        ReplyKind::Done => reply == "done",
        ReplyKind::Made => reply == "made",
        ReplyKind::Got => is_message(reply),
        ReplyKind::Nothing => reply == "none",
        ReplyKind::Put => reply == "put",
        ReplyKind::Closed => reply == "closed",
    }
}

/// The object that a line of the second part reports, if it is one.
#[tactic(auto, unfolding(crate::specs::Lines::thing_of))]
fn thing_of<'a>(line: &'a str, words: &[&'a str]) -> Option<Object<'a>>
    ensures { option_map shown_object result ≡ thing_of line.now (texts words.now) }
{
    let (kind, rest) = words.split_first()?;
    let (name, closing) = rest.split_first()?;
    let name = before_colon(name)?;
    (is_name(name) && is_closing(kind, closing)).then_some(Object { kind, name, line })
}

/// Whether a line may say this of an object of this kind.
#[tactic(auto, unfolding(crate::specs::Lines::is_closing))]
fn is_closing(kind: &str, closing: &[&str]) -> bool
    ensures { result ≡ is_closing kind.now (texts closing.now) }
{
    let is_made = match kind {
        "mailbox" => fits(&["sent", "#", "got", "#", "waits", "#"], closing),
        "channel" => fits(&["sent", "#", "kept", "#", "first", "#"], closing),
        "port" => {
            fits(&["start", "#", "got", "#", "owed", "#"], closing)
                || fits(&["start", "#", "got", "#", "closed"], closing)
        }
        "feed" => fits(
            &["start", "#", "got", "#", "owed", "#", "taken", "#"],
            closing,
        ),
        "ivar" | "mvar" => fits(&["empty"], closing) || fits(&["full", "="], closing),
        _ => return false,
    };
    is_made || fits(&["not", "made"], closing)
}

/// The end of the run by the last line, after `count` lines of the first part.
#[tactic(auto, unfolding(crate::specs::Lines::ended_of))]
fn end_of<'a>(line: &'a str, words: &[&'a str], count: usize) -> Option<End<'a>>
    ensures { option_map shown_end result ≡ ended_of count line.now (texts words.now) }
{
    let (first, rest) = words.split_first()?;
    let (stop, rest) = rest.split_first()?;
    let (performed, left) = rest.split_first()?;
    if *first != "end:" || number_of(performed) != Some(count as u64) {
        return None;
    }
    may_leave(stop, left).then_some(End { stop, line })
}

/// Whether a run that stopped like this may have left this.
fn may_leave(stop: &str, left: &[&str]) -> bool
    ensures { result ≡ may_leave stop.now (texts left.now) }
{
    match stop {
        "done" => left.is_empty(),
        "stalled" | "full" | "held" => fits(&["left", "#"], left),
        _ => false,
    }
}

/// The word without the colon at its end, if it has one.
#[tactic(auto, using(crate::proofs::WordLemmas::stripped))]
fn before_colon(word: &str) -> Option<&str>
    ensures { option_map (λ front. front.now) result ≡ before_colon word.now }
{
    word.strip_suffix(':')
}

fn is_number(word: &str) -> bool
    ensures { result ≡ is_number word.now }
{
    number_of(word).is_some()
}

/// Whether the word is a message as in a reply: a number, or `=` and a text.
fn is_message(word: &str) -> bool
    ensures { result ≡ is_message word.now }
{
    match word.as_bytes() {
        [b'=', text @ ..] => is_text(text),
        _ => is_number(word),
    }
}

/// Whether words are as a form has them: `#` is for a number and `=` for a message.
fn fits(form: &[&str], words: &[&str]) -> bool
    ensures { result ≡ fits (texts form.now) (texts words.now) }
{
    match (form.split_first(), words.split_first()) {
        (Some((mark, form)), Some((word, words))) => is_for(mark, word) && fits(form, words),
        (None, None) => true,
        _ => false,
    }
}

fn is_for(mark: &str, word: &str) -> bool
    ensures { result ≡ is_for mark.now word.now }
{
    match mark {
        "#" => is_number(word),
        "=" => is_message(word),
        _ => word == mark,
    }
}
