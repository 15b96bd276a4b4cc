//! The endings that were found.

use crate::walk::Walk;
use cml_report::{Ending as Ended, Stop};
use indexmap::IndexMap;
use std::alloc::{AllocError, Global};

/// An ending: the state that was found first with it, and how the script ends there.
#[derive(Clone, Copy, Debug, PartialEq, Eq)]
pub(crate) struct Leaf {
    pub(crate) state: usize,
    pub(crate) stop: Stop,
}

/// The endings that were found, in the order in which they were. Two states have one ending if each thread is at the same step,
/// and a report says the same of the objects and of the end.
#[derive(Drop)]
pub(crate) struct Found {
    leaves: IndexMap<String, Leaf>,
    /// The first that isn't done.
    pub(crate) bad: Option<Leaf>,
}

impl Found {
    pub(crate) fn new(alloc: Global) -> Found {
        Found {
            leaves: IndexMap::new(alloc),
            bad: None,
        }
    }

    pub(crate) fn len(&self) -> usize {
        self.leaves.len()
    }

    pub(crate) fn get(&self, number: usize) -> Option<Leaf> {
        let (_, leaf) = self.leaves.get_index(number)?;
        Some(*leaf)
    }

    pub(crate) fn first(&self) -> Option<Leaf> {
        self.get(0)
    }

    /// Adds the ending of the state that a walk is at, unless it was found before.
    pub(crate) fn add(
        &mut self,
        alloc: Global,
        walk: &Walk<'_, '_>,
        leaf: Leaf,
    ) -> Result<(), Ended> {
        let ending = ending_of(alloc, walk, leaf.stop)?;
        if self.leaves.contains_key(ending.as_str()) {
            return Ok(());
        }
        if self.leaves.insert(ending, leaf).is_err() {
            return Err(Ended::NoMemory);
        }
        if self.bad.is_none() && leaf.stop != Stop::Done {
            self.bad = Some(leaf);
        }
        Ok(())
    }

    /// The worst way in which a script ends here: full, stalled or done.
    pub(crate) fn worst(&self) -> Stop {
        let mut worst = Stop::Done;
        for leaf in self.leaves.values() {
            worst = worse_of(worst, leaf.stop);
        }
        worst
    }
}

fn worse_of(one: Stop, other: Stop) -> Stop {
    match (one, other) {
        (Stop::Full, _) | (_, Stop::Full) => Stop::Full,
        (Stop::Stalled, _) | (_, Stop::Stalled) => Stop::Stalled,
        (one, _) => one,
    }
}

/// What an ending is known by: the step that each thread is at, and what its report says after the lines of the steps.
fn ending_of(alloc: Global, walk: &Walk<'_, '_>, stop: Stop) -> Result<String, Ended> {
    let report = walk.report(alloc, stop)?.report;
    let mut ending = String::new(alloc);
    add_next(&mut ending, walk)?;
    ending.push_str(after_steps(report.as_str(), walk))?;
    Ok(ending)
}

/// Adds the number of the line that each thread is at.
fn add_next(ending: &mut String, walk: &Walk<'_, '_>) -> Result<(), AllocError> {
    for thread in 0..walk.threads() {
        if let Some(step) = walk.next_step(thread) {
            write!(ending, "{thread} {}\n", step.line.number)?;
        }
    }
    Ok(())
}

/// A report without the lines of the steps.
fn after_steps<'a>(report: &'a str, walk: &Walk<'_, '_>) -> &'a str {
    let mut rest = report;
    for count in &walk.counts {
        rest = skip_lines(rest, *count);
    }
    rest
}

fn skip_lines(text: &str, count: usize) -> &str {
    let mut rest = text;
    for _ in 0..count {
        rest = match rest.split_once('\n') {
            Some((_, more)) => more,
            None => "",
        };
    }
    rest
}
