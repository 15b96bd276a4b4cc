//! The states that were found.

use indexmap::IndexMap;
use std::alloc::{AllocError, AllocFailed, Global};

/// A step: from this state, the next one of this thread.
#[derive(Clone, Copy, Debug, PartialEq, Eq)]
pub(crate) struct Step {
    pub(crate) from: usize,
    pub(crate) thread: usize,
}

/// The states that were found, by their keys, and of each the step by which it was found first. The first state has none.
#[derive(Drop)]
pub(crate) struct States {
    steps: IndexMap<String, Option<Step>>,
}

impl States {
    pub(crate) fn new(alloc: Global) -> States {
        States {
            steps: IndexMap::new(alloc),
        }
    }

    pub(crate) fn len(&self) -> usize {
        self.steps.len()
    }

    pub(crate) fn has(&self, key: &str) -> bool {
        self.steps.contains_key(key)
    }

    /// Adds a state that was not found before, and returns its number.
    pub(crate) fn add(
        &mut self,
        key: String,
        step: Option<Step>,
    ) -> Result<usize, AllocFailed<(String, Option<Step>)>> {
        let number = self.steps.len();
        self.steps.insert(key, step)?;
        Ok(number)
    }

    /// The threads whose steps lead to this state, first to last.
    pub(crate) fn order_to(&self, alloc: Global, state: usize) -> Result<Vec<usize>, AllocError> {
        let mut threads = Vec::new(alloc);
        let mut state = state;
        for _ in 0..self.steps.len() {
            let Some(step) = self.step_to(state) else {
                break;
            };
            threads.push(step.thread)?;
            state = step.from;
        }
        threads.reverse();
        Ok(threads)
    }

    /// The step by which this state was found.
    fn step_to(&self, state: usize) -> Option<Step> {
        let (_, step) = self.steps.get_index(state)?;
        *step
    }
}
