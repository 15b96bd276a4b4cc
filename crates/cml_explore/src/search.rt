//! The search for all states that the threads of a script can reach.

use crate::found::{Found, Leaf};
use crate::key::key_of;
use crate::states::{States, Step};
use crate::walk::Walk;
use cml_report::{Ending as Ended, Plan};
use std::alloc::{AllocError, Global};

/// The most steps that lead on from a state: a script has no more threads.
const MOST_STEPS: u64 = 64;

/// A search under way. It goes on from the state that was found last, and first with the thread that was declared first. So it
/// finds an ending soon, and needs few walks from the beginning. All orders that lead to one state have the same length.
#[derive(Drop)]
pub(crate) struct Search<'p, 's> {
    alloc: Global,
    plan: &'p Plan<'s>,
    most: u64,
    pub(crate) states: States,
    pub(crate) found: Found,
    // The steps that are still to be followed, the next one last.
    pending: Vec<Step>,
    walk: Walk<'p, 's>,
    // The state that the walk is at, if it is one that was found by this order.
    at: Option<usize>,
    is_cut: bool,
}

impl<'p, 's> Search<'p, 's> {
    /// A search for at most so many states, at least one. It is at the first state.
    pub(crate) fn new(
        alloc: Global,
        plan: &'p Plan<'s>,
        most: u64,
    ) -> Result<Search<'p, 's>, Ended> {
        let mut search = Search {
            alloc,
            plan,
            most,
            states: States::new(alloc),
            found: Found::new(alloc),
            pending: Vec::new(alloc),
            walk: Walk::new(alloc, plan)?,
            at: None,
            is_cut: false,
        };
        search.arrive(None)?;
        Ok(search)
    }

    /// Whether each state was found, and each step followed.
    pub(crate) fn is_whole(&self) -> bool {
        !self.is_cut && self.pending.is_empty()
    }

    /// Follows steps until none is left, or a state is found that is one too many.
    pub(crate) fn find_all(&mut self) -> Result<(), Ended> {
        self.find(false)
    }

    /// Follows steps until an ending is found that isn't done, or as for all.
    pub(crate) fn find_bad(&mut self) -> Result<(), Ended> {
        self.find(true)
    }

    fn find(&mut self, stops_at_bad: bool) -> Result<(), Ended> {
        for _ in 0..self.most.saturating_mul(MOST_STEPS) {
            if self.is_cut || (stops_at_bad && self.found.bad.is_some()) {
                break;
            }
            let Some(step) = self.pending.pop() else {
                break;
            };
            self.follow(step)?;
        }
        Ok(())
    }

    /// Follows a step.
    fn follow(&mut self, step: Step) -> Result<(), Ended> {
        if self.at != Some(step.from) {
            self.walk = self.walk_to(step.from)?;
        }
        self.walk.go(step.thread)?;
        self.arrive(Some(step))
    }

    /// A walk from the beginning to this state.
    pub(crate) fn walk_to(&self, state: usize) -> Result<Walk<'p, 's>, Ended> {
        let mut walk = Walk::new(self.alloc, self.plan)?;
        for thread in self.states.order_to(self.alloc, state)? {
            walk.go(thread)?;
        }
        Ok(walk)
    }

    /// Adds the state that the walk came to by this step, if it is new and there is room.
    fn arrive(&mut self, step: Option<Step>) -> Result<(), Ended> {
        let key = key_of(self.alloc, &self.walk)?;
        self.at = None;
        if self.states.has(key.as_str()) {
            return Ok(());
        }
        if self.states.len() as u64 >= self.most {
            self.is_cut = true;
            return Ok(());
        }
        match self.states.add(key, step) {
            Ok(state) => self.look_on(state),
            Err(_) => Err(Ended::NoMemory),
        }
    }

    /// Adds the ending of a new state, or the steps that lead on from it.
    fn look_on(&mut self, state: usize) -> Result<(), Ended> {
        self.at = Some(state);
        match self.walk.stop() {
            Some(stop) => self.found.add(self.alloc, &self.walk, Leaf { state, stop }),
            None => {
                self.add_steps(state)?;
                Ok(())
            }
        }
    }

    /// Adds the steps that lead on from this state, so that the first thread's is the next.
    fn add_steps(&mut self, from: usize) -> Result<(), AllocError> {
        for thread in (0..self.walk.threads()).rev() {
            if self.walk.is_ready(thread) {
                self.pending.push(Step { from, thread })?;
            }
        }
        Ok(())
    }
}
