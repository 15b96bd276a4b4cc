//! What a report is about.
ghost use Rattle.std.specs.Prelude.{◌≡◌, Some, None, reverse, MatchOption, IfSome};
ghost use Rattle.cml_calls.specs.{Kind};
ghost use Rattle.cml_board.specs.{no_entries, Lawful, kind_of};
ghost use Rattle.cml_grammar.specs.{names_of};
ghost use Rattle.cml_report.specs.{how_many, made_of, is_lane, is_moved, performed_count, unperformed, taken_by, is_of_thread};
ghost use Rattle.cml_report.specs.{is_step_entry, IsObject, IsObjectAt, IsOfScript, history_of};

use crate::follower::Follower;
use crate::plan::count_objects;
use crate::tally::Tally;
use crate::whole::journal;
use cml_board::{Board, BoardLog, Entry, Name, Text, Who};
use cml_grammar::Script;
use std::marker::Model;

/// A script whose journal was followed to its end, the board that keeps it, and what went by lanes and feeds.
#[derive(Drop)]
pub struct Snapshot<'a> {
    follower: Follower<'a>,
    board: &'a Board<Text, BoardLog<Text>>,
    tally: &'a Tally,
}

impl<'a> Model for Snapshot<'a> {
    ghost use Rattle.cml_report.specs.Snapshot.{Told, IsTold};

    ghost Value = { Told };

    ghost view = { λ s. record { script = s.follower.script; history = s.board.now.history; tally = s.tally.now } };

    ghost invariant = { λ s. IsTold s.follower s.board.now.past s.board.now.history };
}

impl<'a> Snapshot<'a> {
    pub fn new(
        follower: Follower<'a>,
        board: &'a Board<Text, BoardLog<Text>>,
        tally: &'a Tally,
    ) -> Snapshot<'a>
        requires followed { history_of follower ≡ board.now.history }
        requires own { IsOfScript follower.script board.now.history }
        requires whole { board.now.past ≡ no_entries }
        ensures script { result.script ≡ follower.entry.script }
        ensures history { result.history ≡ board.now.history }
        ensures tally { result.tally ≡ tally.now }
    {
        // The contract of the board's `journal` says that the history is lawful.
        let _journal = journal(board);
        Snapshot {
            follower,
            board,
            tally,
        }
    }

    pub fn board(&self) -> &'a Board<Text, BoardLog<Text>>
        ensures history { result.now.history ≡ self.now.history }
        ensures lawful { Lawful self.now.history }
    {
        self.board
    }

    pub fn script(&self) -> &'a Script
        ensures { result.now ≡ self.now.script }
    {
        self.follower.script()
    }

    /// How many lines the first part has: how many entries are after those of the declared objects.
    pub fn performed(&self) -> usize
        ensures { result ≡ performed_count self.now.script self.now.history }
    {
        journal(self.board)
            .len()
            .saturating_sub(count_objects(self.script()))
    }

    /// How many steps were not performed.
    pub fn unperformed(&self) -> usize
        ensures { result ≡ unperformed self.now.script self.now.history self.now.tally }
    {
        unperformed(self.script(), self.board, self.tally)
    }

    /// How many messages the thread of the feed with this name took.
    pub fn taken(&self, at: usize) -> u64
        ensures { result ≡ taken_by self.now.script self.now.tally at }
    {
        self.tally.taken_from(self.follower.feed(at))
    }

    /// The object that was made for a name.
    pub fn object(&self, at: usize) -> Option<Name>
        requires { IsObject (names_of self.now.script) at }
        ensures object { MatchOption result (made_of self.now.script self.now.history at ≡ None)
            (λ name. made_of self.now.script self.now.history at ≡ Some name.0) }
        ensures kind { IfSome result (λ name. (k : Kind) → IsObjectAt (names_of self.now.script) at k
            → kind_of self.now.history name.0 ≡ Some k) }
    {
        self.follower.made(at)
    }
}

/// Counts the steps that were not performed, by a board's journal and a tally.
pub fn unperformed(script: &Script, board: &Board<Text, BoardLog<Text>>, tally: &Tally) -> usize
    requires { board.now.past ≡ no_entries }
    ensures { result ≡ unperformed script.now board.now.history tally.now }
{
    let called = count_calls(journal(board));
    let rest = script.steps().len().saturating_sub(called);
    rest.saturating_sub(tally.apart)
}

/// How many entries are steps that threads' seats made.
fn count_calls(journal: &[Entry<Text>]) -> usize
    ensures { result ≡ how_many is_step_entry (reverse journal.now) }
{
    let mut calls = 0;
    for entry in journal {
        calls += usize::from(is_of_thread(entry.who));
    }
    calls
}

/// Whether it is the seat of a thread: seat 0 makes only declared objects.
fn is_of_thread(who: Who) -> bool
    ensures { result ≡ is_of_thread who }
{
    match who {
        Who::Seat(seat) => seat != 0,
        Who::Lane(_) | Who::Feed(_) => false,
    }
}

/// How many messages lanes moved.
pub fn count_moved(journal: &[Entry<Text>]) -> usize
    ensures { result ≡ how_many is_moved (reverse journal.now) }
{
    let mut moved = 0;
    for entry in journal {
        moved += usize::from(is_lane(entry.who));
    }
    moved
}

pub(crate) fn is_lane(who: Who) -> bool
    ensures { result ≡ is_lane who }
{
    matches!(who, Who::Lane(_))
}
