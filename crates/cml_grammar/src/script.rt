//! A script that was read: its names, its declarations, its lanes and its steps.
ghost use Rattle.std.specs.Prelude.{◌≡◌, ◌≤◌, length, map, All, IfSome};

use crate::forms::{Action, Makes};
use crate::names::Named;
use indexmap::IndexMap;
use std::marker::Model;

/// A line of a script, unchanged, without its line end.
#[derive(Debug, Drop)]
pub struct Line {
    /// Its number, from 1.
    pub number: u64,
    pub text: String,
}

/// A declaration line that gives a name, with what it makes.
#[derive(Debug, Drop)]
pub struct Declaration {
    pub line: Line,
    pub makes: Makes,
}

/// A lane line: the seat of its thread, its object by its position in the script's list of names, and the lane's capacity.
#[derive(Debug, Drop)]
pub struct Lane {
    pub line: Line,
    pub seat: u64,
    pub target: usize,
    pub capacity: usize,
}

/// A step line, with the seat of its thread and what it asks for.
#[derive(Debug, Drop)]
pub struct Step {
    pub line: Line,
    pub seat: u64,
    pub action: Action,
}

/// What is kept of lines that were read.
#[derive(Drop)]
pub(crate) struct Kept {
    pub(crate) version: u64,
    pub(crate) names: IndexMap<String, Named>,
    pub(crate) declarations: Vec<Declaration>,
    pub(crate) lanes: Vec<Lane>,
    /// The capacity of each lane, by its seat and its object's position.
    pub(crate) capacities: IndexMap<(u64, usize), usize>,
    pub(crate) steps: Vec<Step>,
}

/// A script without fault. Contracts see it as its version and its declaration, lane and step lines.
#[derive(Drop)]
pub struct Script {
    kept: Kept,
}

impl Model for Script {
    ghost use Rattle.cml_grammar.specs.Script.{Lines};

    ghost Value = { Lines };

    ghost use Rattle.cml_grammar.specs.Reading.{view_of, IsReading};

    ghost view = { λ s. view_of s.kept.version s.kept.declarations.items s.kept.lanes.items s.kept.steps.items };

    ghost invariant = { λ s. IsReading (view_of s.kept.version s.kept.declarations.items s.kept.lanes.items s.kept.steps.items)
        s.kept.names.entries s.kept.declarations.items s.kept.lanes.items s.kept.capacities.entries s.kept.steps.items };
}

impl Declaration {
    ghost use Rattle.cml_grammar.specs.Rings.{makes_feed};

    fn is_feed(&self) -> bool
        ensures { result ≡ makes_feed self.now.makes }
    {
        matches!(self.makes, Makes::Feed(_))
    }
}

impl Script {
    ghost use Rattle.cml_grammar.specs.Names.{thread_count};
    ghost use Rattle.cml_grammar.specs.Meaning.{names_of};
    ghost use Rattle.cml_grammar.specs.Giving.{NamesAreGiven};
    ghost use Rattle.cml_grammar.specs.Rings.{capacity_of, first_lane, first_feed, first_ring};
    ghost use Rattle.cml_grammar.specs.Reading.{source_of, view_of, texts_of, GivesNames, ReadsDeclaration, ReadsLane, ReadsStep};
    ghost use Rattle.cml_grammar.specs.Reading.{IsCapacity, UsesEarlier, IsReading};

    pub(crate) fn new(kept: Kept) -> Script
        requires { IsReading (view_of kept.version kept.declarations.items kept.lanes.items kept.steps.items) kept.names.entries
            kept.declarations.items kept.lanes.items kept.capacities.entries kept.steps.items }
        ensures { result ≡ view_of kept.version kept.declarations.items kept.lanes.items kept.steps.items }
    {
        Script { kept }
    }

    /// Returns the version that its first line asks for, 1 or 2.
    pub fn version(&self) -> u64
        ensures { result ≡ self.now.version }
    {
        self.kept.version
    }

    /// Returns the names with what each names. The i-th declaration gives the i-th name. After those are the names that
    /// steps give, in text order.
    pub fn names(&self) -> &IndexMap<String, Named>
        ensures names { texts_of result.now.entries ≡ names_of self.now }
        ensures given { NamesAreGiven (names_of self.now) self.now.declarations self.now.steps }
        ensures threads { thread_count (names_of self.now) ≤ 64 }
    {
        &self.kept.names
    }

    /// Returns the declarations that give names, in text order. The i-th gives the i-th name.
    pub fn declarations(&self) -> &[Declaration]
        ensures lines { map (λ d. source_of d.line) result.now ≡ self.now.declarations }
        ensures makes { All (ReadsDeclaration (names_of self.now)) result.now }
        ensures names { GivesNames (names_of self.now) result.now }
        ensures few { length result.now ≤ 1048576 }
    {
        &self.kept.declarations
    }

    /// Returns the lanes in text order.
    pub fn lanes(&self) -> &[Lane]
        ensures lines { map (λ l. source_of l.line) result.now ≡ self.now.lanes }
        ensures said { All (ReadsLane (names_of self.now)) result.now }
        ensures threads { thread_count (names_of self.now) ≤ 64 }
        ensures few { length result.now ≤ 1048576 }
    {
        &self.kept.lanes
    }

    /// Returns the capacity of the lane by which this seat sends to the object at this position, if there is such a lane.
    pub fn lane_of(&self, seat: u64, target: usize) -> Option<usize>
        ensures capacity { result ≡ capacity_of (names_of self.now) self.now.lanes (seat, target) }
        ensures fits { IfSome result IsCapacity }
    {
        self.kept.capacities.get(&(seat, target)).copied()
    }

    /// Returns the number of the first line that declares a lane or a feed, if there is one.
    pub fn first_ring(&self) -> Option<u64>
        ensures { result ≡ first_ring self.now }
    {
        match (self.first_lane(), self.first_feed()) {
            (Some(lane), Some(feed)) => Some(lane.min(feed)),
            (Some(lane), None) => Some(lane),
            (None, feed) => feed,
        }
    }

    fn first_lane(&self) -> Option<u64>
        ensures { result ≡ first_lane self.now }
    {
        let lane = self.kept.lanes.first()?;
        Some(lane.line.number)
    }

    fn first_feed(&self) -> Option<u64>
        ensures { result ≡ first_feed self.now }
    {
        let feed = self
            .kept
            .declarations
            .iter()
            .find(|declaration| declaration.is_feed())?;
        Some(feed.line.number)
    }

    /// Returns the steps in text order.
    pub fn steps(&self) -> &[Step]
        ensures lines { map (λ s. source_of s.line) result.now ≡ self.now.steps }
        ensures asked { All (ReadsStep (names_of self.now)) result.now }
        ensures earlier { UsesEarlier self.now result.now }
        ensures threads { thread_count (names_of self.now) ≤ 64 }
        ensures few { length result.now ≤ 1048576 }
    {
        &self.kept.steps
    }
}
