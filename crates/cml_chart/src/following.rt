//! Whether a report is one of a script, and how far its threads have come.
ghost use Rattle.std.specs.Prelude.{◌≡◌, ◌⊎◌, ◌≤◌, ◌+◌, length, map, IfOk, IfErr, OnOk, Ok, Err, Some, None, true, false, MatchOption};
ghost use Rattle.std.specs.Option.{option_map};
ghost use Rattle.cml_chart.specs.declared.report.faults.What.TheVariants.{Memory, OtherScript};
ghost use Rattle.cml_chart.specs.{texts, shown_act, shown_object, shown_actor, names_of, shown_thread, shown_threads, stands_at, tells};
ghost use Rattle.cml_chart.specs.{advanced, perform, shown_made, is_made, pass, follow, strange_thing, deeds_of, things_of, threads_behind};
ghost use Rattle.cml_chart.specs.Following.{is_feed};

use crate::chart::is_among;
use crate::plan::{Made, Plan, fill};
use crate::report::{Act, Actor, Fault, Object, Report, What};
use cml_grammar::{Script, number_of};
use indexmap::IndexSet;
use std::alloc::{AllocError, Global};

/// A thread of a script.
#[derive(Drop)]
pub(crate) struct Thread<'a> {
    pub(crate) name: &'a str,
    /// The lines of its steps that have rows.
    pub(crate) steps: Vec<&'a str>,
    /// How many of these were performed.
    pub(crate) performed: usize,
}

impl<'a> Thread<'a> {
    /// Its next step, if it has one left.
    pub(crate) fn step(&self) -> Option<&'a str>
        ensures { option_map (λ step. step.now) result ≡ stands_at (shown_thread self.now) }
    {
        self.steps.get(self.performed).copied()
    }

    /// Whether a row reports its next step. It has then performed that step.
    fn performs(&mut self, alloc: Global, act: &Act<'_>) -> Result<bool, AllocError>
        ensures told { IfOk result (λ told. told ≡ tells (shown_thread self.old) (shown_act act.now)) }
        ensures thread { IfOk result (λ told. shown_thread self.new ≡ advanced told (shown_thread self.old)) }
    {
        let Some(step) = self.step() else {
            return Ok(false);
        };
        let reply = act.reply;
        let line = format!(in alloc; "{step}: {reply}")?;
        if line.as_str() != act.line {
            return Ok(false);
        }
        self.performed += 1;
        Ok(true)
    }
}

/// The threads of a script, if one is given, at the steps where its report leaves them.
pub(crate) fn threads_behind<'a>(
    alloc: Global,
    script: Option<&'a Script>,
    report: &Report<'_>,
) -> Result<Vec<Thread<'a>>, Fault>
    requires few { length report.now.acts.items + length report.now.objects.items ≤ 33554432 }
    ensures threads { IfOk result (λ threads. threads_behind (option_map (λ s. s.now) script.entry) (deeds_of report.now)
        (things_of report.now) ≡ Ok (shown_threads threads.items)) }
    ensures fault { IfErr result (λ fault. (fault.what ≡ Memory)
        ⊎ (threads_behind (option_map (λ s. s.now) script.entry) (deeds_of report.now) (things_of report.now) ≡ Err fault)) }
{
    let Some(script) = script else {
        return Ok(Vec::new(alloc));
    };
    let mut plan = Plan {
        threads: Vec::new(alloc),
        feeds: Vec::new(alloc),
        targets: IndexSet::new(alloc),
        objects: Vec::new(alloc),
    };
    fill(alloc, &mut plan, script)?;
    let Plan {
        mut threads,
        feeds,
        targets,
        objects,
    } = plan;
    let acts = report.acts.as_slice();
    follow(alloc, &mut threads, &feeds, &targets, acts)?;
    compare(&objects, &report.objects, acts.len() + 1)?;
    Ok(threads)
}

/// Follows a report's first part, as far as its rows are the script's.
fn follow(
    alloc: Global,
    threads: &mut Vec<Thread<'_>>,
    feeds: &[&str],
    targets: &IndexSet<String>,
    acts: &[Act<'_>],
) -> Result<(), Fault>
    requires few { length acts.now ≤ 33554432 }
    ensures threads { OnOk result (follow (texts feeds.now) (names_of targets.now.keys) (shown_threads threads.old.items) 1
        (map shown_act acts.now) ≡ Ok (shown_threads threads.new.items)) }
    ensures fault { IfErr result (λ fault. (fault.what ≡ Memory) ⊎ ((fault.what ≡ OtherScript)
        × (follow (texts feeds.now) (names_of targets.now.keys) (shown_threads threads.old.items) 1 (map shown_act acts.now)
        ≡ Err fault.line))) }
{
    for (at, act) in acts.iter().enumerate() {
        if !passes(alloc, threads, feeds, targets, act)? {
            return Err(What::OtherScript.at((at + 1) as u64));
        }
    }
    Ok(())
}

/// Whether a row is the script's. Its thread has then performed its step.
fn passes(
    alloc: Global,
    threads: &mut [Thread<'_>],
    feeds: &[&str],
    targets: &IndexSet<String>,
    act: &Act<'_>,
) -> Result<bool, AllocError>
    ensures { IfOk result (λ passed. MatchOption
        (pass (texts feeds.now) (names_of targets.now.keys) (shown_threads threads.old) (shown_act act.now) (shown_actor act.now.actor))
        (passed ≡ false) (λ later. (passed ≡ true) × (shown_threads threads.new ≡ later))) }
{
    match act.actor {
        Actor::Thread(name) => perform(alloc, threads, name, act),
        Actor::Lane(_) => Ok(is_among(targets, act.object)),
        Actor::Feed(number) => Ok(is_feed(feeds, number, act.object)),
    }
}

/// Whether a row of the thread with this name reports the thread's next step. It has then performed that step.
pub(crate) fn perform(
    alloc: Global,
    threads: &mut [Thread<'_>],
    name: &str,
    act: &Act<'_>,
) -> Result<bool, AllocError>
    ensures { IfOk result (λ told. MatchOption (perform (shown_threads threads.old) name.now (shown_act act.now))
        (told ≡ false) (λ later. (told ≡ true) × (shown_threads threads.new ≡ later))) }
{
    match threads {
        [] => Ok(false),
        [thread, ..] if thread.name == name => thread.performs(alloc, act),
        [_, others @ ..] => perform(alloc, others, name, act),
    }
}

/// Whether the feed of this number is the one with this name.
fn is_feed(feeds: &[&str], number: &str, name: &str) -> bool
    ensures { result ≡ is_feed (texts feeds.now) number.now name.now }
{
    match number_of(number) {
        Some(at) => match feeds.get(at as usize) {
            Some(feed) => name == *feed,
            None => false,
        },
        None => false,
    }
}

/// Compares the objects of a report with those of a script. The first object's line has this number.
fn compare(made: &[Made<'_>], objects: &[Object<'_>], first: usize) -> Result<(), Fault>
    requires { first + length objects.now ≤ 33554433 }
    ensures same { OnOk result (strange_thing first (map shown_object objects.now) (map shown_made made.now) ≡ None) }
    ensures fault { IfErr result (λ fault. (fault.what ≡ OtherScript)
        × (strange_thing first (map shown_object objects.now) (map shown_made made.now) ≡ Some fault.line)) }
{
    for (at, object) in objects.iter().enumerate() {
        let Some(made) = made.get(at) else {
            return Err(What::OtherScript.at((first + at) as u64));
        };
        if !is_made(object, made) {
            return Err(What::OtherScript.at((first + at) as u64));
        }
    }
    if made.len() > objects.len() {
        return Err(What::OtherScript.at((first + objects.len()) as u64));
    }
    Ok(())
}

fn is_made(object: &Object<'_>, made: &Made<'_>) -> bool
    ensures { result ≡ is_made (shown_object object.now) (shown_made made.now) }
{
    let (kind, name) = (object.kind == made.kind, object.name == made.name);
    kind && name
}
