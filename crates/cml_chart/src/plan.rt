//! What a script says of its reports.
ghost use Rattle.std.specs.Prelude.{◌≡◌, ◌++◌, [], map, filter_map, slice_get, IfOk, OnOk, false};
ghost use Rattle.std.specs.Option.{option_map, option_map_or, option_and_then, option_to_list};
ghost use Rattle.cml_grammar.specs.{names_of as given_by, source_of, ReadsStep};
ghost use Rattle.cml_chart.specs.{texts, names_of, shown_threads, made_at, declared_in, port_in, feed_in, object_in, objects_in};
ghost use Rattle.cml_chart.specs.{targets_in, thread_in, threads_in, is_apart, begins, own_in, own_steps, shown_made, IsPlan};
ghost use Rattle.cml_chart.specs.Plan.{is_feed};

use crate::chart::{Added, add_name};
use crate::following::Thread;
use crate::report::makes_port;
use cml_grammar::{Action, Declaration, Named, Script, Step, Verb, split_words};
use indexmap::IndexSet;
use std::alloc::{AllocError, Global};

/// What a line of a script makes, by its kind and its name.
#[derive(Clone, Copy)]
pub(crate) struct Made<'a> {
    pub(crate) kind: &'a str,
    pub(crate) name: &'a str,
}

/// What a script says of its reports.
#[derive(Drop)]
pub(crate) struct Plan<'a> {
    pub(crate) threads: Vec<Thread<'a>>,
    /// The feeds, by their numbers.
    pub(crate) feeds: Vec<&'a str>,
    /// The objects that lanes lead to.
    pub(crate) targets: IndexSet<String>,
    /// All objects, in the order of a report's second part.
    pub(crate) objects: Vec<Made<'a>>,
}

/// Fills an empty plan. What was added when memory is refused goes with the plan.
pub(crate) fn fill<'a>(alloc: Global, plan: &mut Plan<'a>, script: &'a Script) -> Added
    requires { (plan.old.threads.items ≡ []) × (plan.old.feeds.items ≡ []) × (plan.old.targets.keys ≡ []) × (plan.old.objects.items ≡ []) }
    ensures { OnOk result (IsPlan script.now plan.new) }
{
    let declarations = script.declarations();
    for declaration in declarations {
        add_declared(alloc, plan, script, declaration)?;
    }
    add_ports(alloc, &mut plan.objects, script)?;
    add_targets(alloc, &mut plan.targets, script)
}

/// Adds what a declaration makes.
fn add_declared<'a>(
    alloc: Global,
    plan: &mut Plan<'a>,
    script: &'a Script,
    declaration: &'a Declaration,
) -> Added
    ensures threads { OnOk result (shown_threads plan.new.threads.items
        ≡ shown_threads plan.old.threads.items ++ option_to_list (thread_in script.now (source_of declaration.now.line))) }
    ensures feeds { OnOk result
        (texts plan.new.feeds.items ≡ texts plan.old.feeds.items ++ option_to_list (feed_in (source_of declaration.now.line))) }
    ensures objects { OnOk result (map shown_made plan.new.objects.items
        ≡ map shown_made plan.old.objects.items ++ option_to_list (object_in (source_of declaration.now.line))) }
    ensures targets { OnOk result (plan.new.targets ≡ plan.old.targets) }
{
    let words = split_words(alloc, declaration.line.text.as_str())?;
    let Some(made) = declared_in(&words) else {
        return Ok(());
    };
    if made.kind == "thread" {
        let (name, steps) = (made.name, own_steps(alloc, script, made.name)?);
        plan.threads.push(Thread {
            name,
            steps,
            performed: 0,
        })?;
        return Ok(());
    }
    if made.kind == "feed" {
        plan.feeds.push(made.name)?;
    }
    plan.objects.push(made)?;
    Ok(())
}

/// What a declaration of these words makes.
fn declared_in<'a>(words: &[&'a str]) -> Option<Made<'a>>
    ensures { option_map shown_made result ≡ declared_in (texts words.now) }
{
    let (kind, rest) = words.split_first()?;
    if *kind == "port" || *kind == "feed" {
        return made_at(kind, rest, 1);
    }
    made_at(kind, rest, 0)
}

fn made_at<'a>(kind: &'a str, words: &[&'a str], at: usize) -> Option<Made<'a>>
    ensures { option_map shown_made result ≡ made_at kind.now (texts words.now) at }
{
    let name = words.get(at)?;
    Some(Made { kind, name })
}

/// Adds the ports that steps make.
fn add_ports<'a>(alloc: Global, objects: &mut Vec<Made<'a>>, script: &'a Script) -> Added
    ensures { OnOk result (map shown_made objects.new.items
        ≡ map shown_made objects.old.items ++ filter_map (λ line. port_in line.words) script.now.steps) }
{
    let steps = script.steps();
    for step in steps {
        let words = split_words(alloc, step.line.text.as_str())?;
        if let Some(port) = port_in(&words) {
            objects.push(port)?;
        }
    }
    Ok(())
}

/// The port that a step of these words makes, if it makes one.
fn port_in<'a>(words: &[&'a str]) -> Option<Made<'a>>
    ensures { option_map shown_made result ≡ port_in (texts words.now) }
{
    let (_, rest) = words.split_first()?;
    let (word, rest) = rest.split_first()?;
    if makes_port(Verb::of_word(word)?) {
        return made_at("port", rest, 1);
    }
    None
}

/// Adds the objects that lanes lead to, each once.
fn add_targets(alloc: Global, targets: &mut IndexSet<String>, script: &Script) -> Added
    requires { targets.old.keys ≡ [] }
    ensures { OnOk result (names_of targets.new.keys ≡ targets_in script.now) }
{
    let lanes = script.lanes();
    for lane in lanes {
        let words = split_words(alloc, lane.line.text.as_str())?;
        if let Some(name) = target_in(&words) {
            add_name(targets, String::from_str(alloc, name)?)?;
        }
    }
    Ok(())
}

#[tactic(auto, using(crate::proofs::FollowingLemmas::no_third))]
fn target_in<'a>(words: &[&'a str]) -> Option<&'a str>
    ensures { option_map (λ n. n.now) result ≡ slice_get (texts words.now) 2 }
{
    match words {
        [_, _, object, ..] => Some(*object),
        _ => None,
    }
}

/// The lines of the steps of this thread that have rows of it.
fn own_steps<'a>(alloc: Global, script: &'a Script, name: &str) -> Result<Vec<&'a str>, AllocError>
    ensures { IfOk result (λ own. texts own.items ≡ own_steps script.now name.now) }
{
    let steps = script.steps();
    let mut own = Vec::new(alloc);
    for step in steps {
        if let Some(line) = own_line(alloc, script, name, step)? {
            own.push(line)?;
        }
    }
    Ok(own)
}

/// The line of a step of this thread that has a row of it.
#[tactic(auto, using(crate::proofs::NameLemmas::words_make_line))]
fn own_line<'a>(
    alloc: Global,
    script: &Script,
    name: &str,
    step: &'a Step,
) -> Result<Option<&'a str>, AllocError>
    requires { ReadsStep (given_by script.now) step.now }
    ensures { IfOk result (λ line. option_map (λ l. l.now) line ≡ own_in script.now name.now (source_of step.now.line)) }
{
    let line = step.line.text.as_str();
    let words = split_words(alloc, line)?;
    if !begins(&words, name) || is_apart(script, step) {
        return Ok(None);
    }
    Ok(Some(line))
}

fn begins(words: &[&str], name: &str) -> bool
    ensures { result ≡ begins name.now (texts words.now) }
{
    match words {
        [first, ..] => name == *first,
        [] => false,
    }
}

/// Whether a step goes by a lane of its thread, or polls a feed.
fn is_apart(script: &Script, step: &Step) -> bool
    requires { ReadsStep (given_by script.now) step.now }
    ensures { result ≡ is_apart script.now (source_of step.now.line) }
{
    match &step.action {
        Action::Give(_, at, _) => script.lane_of(step.seat, *at).is_some(),
        Action::Ask(_, at) => is_feed_at(script, *at),
    }
}

fn is_feed_at(script: &Script, at: usize) -> bool
    ensures { result ≡ option_map_or (λ g. is_feed g.1) (slice_get (given_by script.now) at) false }
{
    match script.names().get_index(at) {
        Some((_, named)) => is_feed(*named),
        None => false,
    }
}

fn is_feed(named: Named) -> bool
    ensures { result ≡ is_feed named }
{
    matches!(named, Named::Feed(_))
}
