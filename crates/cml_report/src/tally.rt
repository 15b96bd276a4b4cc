//! What a run counts beside its journal.
ghost use Rattle.std.specs.Prelude.{◌≡◌, IfOk, replicate, slice_set};
ghost use Rattle.cml_report.specs.{no_rings, taken_from};

use std::alloc::{AllocError, Global};
use std::marker::Model;

/// What went by lanes and feeds, which the journal does not show.
#[derive(Drop)]
pub struct Tally {
    /// How many steps went by lanes and feeds.
    pub apart: usize,
    /// By feed, in text order, how many messages its thread took.
    pub taken: Vec<u64>,
    /// By lane, the seat of the thread that opened it, or 0 if none did.
    pub lanes: Vec<u64>,
}

impl Model for Tally {
    ghost use Rattle.cml_report.specs.Report.{Tallied};

    ghost Value = { Tallied };

    ghost view = { λ t. record { apart = t.apart; taken = t.taken.items; lanes = t.lanes.items } };
}

impl Tally {
    /// Makes the tally of a script without lanes and feeds.
    pub fn no_rings(alloc: Global) -> Tally
        ensures { result ≡ no_rings }
    {
        Tally {
            apart: 0,
            taken: Vec::new(alloc),
            lanes: Vec::new(alloc),
        }
    }

    /// Makes the tally of a script with `feeds` feeds, whose threads opened `lanes` lanes. Nothing else is known of them yet.
    pub fn new(alloc: Global, feeds: usize, lanes: usize) -> Result<Tally, AllocError>
        ensures apart { IfOk result (λ tally. tally.apart ≡ 0) }
        ensures taken { IfOk result (λ tally. tally.taken ≡ replicate feeds 0) }
        ensures lanes { IfOk result (λ tally. tally.lanes ≡ replicate lanes 0) }
    {
        Ok(Tally {
            apart: 0,
            taken: vec![in alloc; 0; feeds]?,
            lanes: vec![in alloc; 0; lanes]?,
        })
    }

    /// How many messages were taken from the feed of this number. For no feed it is 0.
    pub(crate) fn taken_from(&self, feed: Option<usize>) -> u64
        ensures { result ≡ taken_from self.now feed }
    {
        match feed {
            Some(feed) => self.taken.get(feed).copied().unwrap_or(0),
            None => 0,
        }
    }

    /// Adds steps that went by lanes and feeds.
    pub fn add_steps(&mut self, steps: usize)
        ensures { self.new.taken ≡ self.old.taken }
    {
        self.apart = self.apart.saturating_add(steps);
    }

    /// Sets how many messages were taken from the feed of this number.
    pub fn set_taken(&mut self, feed: u64, taken: u64)
        ensures { self.new ≡ record self.old { taken = slice_set self.old.taken feed taken } }
    {
        if let Some(told) = self.taken.get_mut(feed as usize) {
            *told = taken;
        }
    }

    /// Sets whose the lane of this number is, by the seat of its thread.
    pub fn set_lane(&mut self, lane: u64, seat: u64)
        ensures { self.new ≡ record self.old { lanes = slice_set self.old.lanes lane seat } }
    {
        if let Some(told) = self.lanes.get_mut(lane as usize) {
            *told = seat;
        }
    }
}
