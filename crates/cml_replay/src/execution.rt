//! A script under way on a board.
ghost use Rattle.std.specs.Prelude.{◌≡◌, ◌≢◌, ◌↔◌, ℕ, ◌+◌, ◌-◌, ◌<◌, ◌≤◌, ◌^◌, List, [], ◌∷◌, length, slice_get, false, Some, None};
ghost use Rattle.std.specs.Prelude.{IfOk, OnOk, OnErr, MatchOption, MatchBool, IsTrue, IfSome, IsSome};
ghost use Rattle.cml_board.specs.{no_entries, entries_in, Fits, Lawful, kind_of, Reply, Entry};
ghost use Rattle.cml_calls.specs.{Kind};
ghost use Rattle.cml_grammar.specs.{names_of, UsesWell, used_by, first_ring, makes_feed};
ghost use Rattle.cml_report.specs.{NoneReady, Follows, left, declared_count, makes_object, declared_object, object_of, made_of};
ghost use Rattle.cml_report.specs.{next_position, call_of, step_call, performed_count, one_if, IsObject, IsObjectAt};
ghost use Rattle.cml_replay.specs.{with_entry, IsNextObject, IsNext, IsNextStep, IsBound, WaitsIf, earlier_of, IsLeast, IsReadyOf};
ghost use Rattle.cml_replay.specs.{NoneReadyOf, IsStepAt};

use cml_board::{Board, BoardLog, Call, Name, Outcome, Refusal, Text, Who};
use cml_grammar::{Action, Makes, Script};
use cml_report::{Binding, Plan, THREADS, bind, call_on, used_by, would_wait};
use std::alloc::{AllocError, Global};
use std::marker::Model;

/// A script without rings under way: its board, and how far each of its threads is.
#[derive(Drop)]
pub struct Execution<'a> {
    plan: Plan<'a>,
    board: Board<Text, BoardLog<Text>>,
    // By thread, how many of its steps were performed.
    counts: Vec<usize>,
    // By name, what a step gave it.
    bindings: Vec<Binding>,
}

impl<'a> Model for Execution<'a> {
    ghost use Rattle.std.specs.Prelude.{◌≡◌};
    ghost use Rattle.cml_board.specs.History.{no_entries};
    ghost use Rattle.cml_replay.specs.Execution.{Executed, Stands};

    ghost Value = { Executed };

    ghost view = { λ s. record { script = s.plan; history = s.board.history; limit = s.board.limit } };

    ghost invariant = { λ s. Stands (record { script = s.plan; history = s.board.history; limit = s.board.limit }) s.counts.items
        s.bindings.items × (s.board.past ≡ no_entries) };
}

impl<'a> Execution<'a> {
    /// An execution of which no step was performed.
    pub fn new(alloc: Global, script: &'a Script, limit: u64) -> Result<Execution<'a>, AllocError>
        requires least { 1 ≤ limit }
        requires most { limit ≤ 2 ^ 32 }
        requires plain { first_ring script.now ≡ None }
        ensures { IfOk result (λ execution. execution ≡ record { script = script.now; history = no_entries; limit = limit }) }
    {
        let plan = Plan::new(alloc, script)?;
        let board = Board::new(alloc, limit)?;
        let counts = vec![in alloc; 0; THREADS]?;
        let bindings = plan.unbound(alloc)?;
        Ok(Execution {
            plan,
            board,
            counts,
            bindings,
        })
    }

    pub fn board(&self) -> &Board<Text, BoardLog<Text>>
        ensures history { result.now.history ≡ self.now.history }
        ensures whole { result.now.past ≡ no_entries }
        ensures limit { result.now.limit ≡ self.now.limit }
        ensures lawful { Lawful self.now.history }
        ensures follows { Follows self.now.script self.now.history }
        ensures room { entries_in self.now.history ≤ self.now.limit }
    {
        &self.board
    }

    pub fn plan(&self) -> &Plan<'a>
        ensures { result.now ≡ self.now.script }
    {
        &self.plan
    }

    /// Whether the journal has as many entries as its limit.
    pub fn is_full(&self) -> bool
        ensures full { IsTrue result ↔ (entries_in self.now.history ≡ self.now.limit) }
        ensures within { entries_in self.now.history ≤ self.now.limit }
    {
        self.board.is_full()
    }

    /// Makes the declared objects in text order. Returns false if the journal was full before all were made.
    pub fn declare(&mut self) -> Result<bool, AllocError>
        requires { self.old.history ≡ no_entries }
        ensures script { self.new.script ≡ self.old.script }
        ensures limit { self.new.limit ≡ self.old.limit }
        ensures all { IfOk result (λ all. MatchBool all
            (entries_in self.new.history ≡ declared_count self.new.script)
            ((entries_in self.new.history ≡ self.new.limit) × (entries_in self.new.history < declared_count self.new.script))) }
    {
        let script = self.plan.script();
        for declaration in script.declarations() {
            if !self.declare_next(&declaration.makes)? {
                return Ok(false);
            }
        }
        Ok(true)
    }

    /// Makes what the next declaration makes. Returns false if the journal is full.
    fn declare_next(&mut self, makes: &Makes) -> Result<bool, AllocError>
        requires next { IsNext self.old makes.now }
        requires plain { makes_feed makes.now ≡ false }
        ensures script { self.new.script ≡ self.old.script }
        ensures limit { self.new.limit ≡ self.old.limit }
        ensures made { IfOk result (λ made. MatchBool made
            (entries_in self.new.history ≡ entries_in self.old.history + one_if (makes_object makes.now))
            ((entries_in self.new.history ≡ self.new.limit) × (entries_in self.new.history < declared_count self.new.script))) }
    {
        match makes {
            Makes::Thread => Ok(true),
            Makes::Mailbox => self.make(Call::NewMailbox),
            Makes::Channel => self.make(Call::NewChannel),
            Makes::IVar => self.make(Call::NewIVar),
            Makes::MVar => self.make(Call::NewMVar),
            Makes::MVarInit(message) => self.make(Call::MVarInit(message.clone()?)),
            Makes::Port(channel) => self.make(Call::NewPort(self.declared_object(*channel))),
            // The script has no rings.
            Makes::Feed(_) => unreachable!(),
        }
    }

    /// Makes the next declared object. Returns false if the journal is full.
    fn make(&mut self, call: Call<Text>) -> Result<bool, AllocError>
        requires next { IsNextObject self.old call }
        requires fits { Fits self.old.history call }
        ensures made { IfOk result (λ made. MatchBool made
            ((reply : Reply (List ℕ)) × (self.new ≡ with_entry self.old (record { who = Who.Seat 0; call = call; reply = reply })))
            ((entries_in self.old.history ≡ self.old.limit) × (self.new ≡ self.old))) }
        ensures err { OnErr result (self.new ≡ self.old) }
    {
        match self.board.apply(Who::Seat(0), call) {
            Outcome::Answered(_) => return Ok(true),
            Outcome::Refused(Refusal::JournalFull, _) => return Ok(false),
            Outcome::Refused(Refusal::NoMemory, _) => return Err(AllocError),
            Outcome::Refused(_, _) | Outcome::WouldWait(_) => unreachable!(),
        }
    }

    /// The least step in text order that is its thread's next one and wouldn't wait.
    pub fn least_ready(&self) -> Option<usize>
        requires { declared_count self.now.script ≤ entries_in self.now.history }
        ensures { MatchOption result (NoneReady self.now.script self.now.history) (IsLeast self.now.script self.now.history) }
    {
        let mut least = None;
        for thread in 0..self.counts.len() {
            least = earlier_of(least, self.candidate(thread));
        }
        least
    }

    /// The thread's next step, if it would not wait.
    fn candidate(&self, thread: usize) -> Option<usize>
        requires thread { thread < 64 }
        requires declared { declared_count self.now.script ≤ entries_in self.now.history }
        ensures { MatchOption result (NoneReadyOf self.now.script self.now.history (thread + 1))
            (λ i. IsReadyOf self.now.script self.now.history (thread + 1) i) }
    {
        let i = self.next_step(thread)?;
        if self.waits(i) {
            return None;
        }
        Some(i)
    }

    /// The thread's next step.
    fn next_step(&self, thread: usize) -> Option<usize>
        requires { thread < 64 }
        ensures { result ≡ next_position self.now.script self.now.history (Who.Seat (thread + 1)) }
    {
        self.plan.step(thread, self.counts[thread])
    }

    /// Whether the i-th step, which is its thread's next, would wait.
    fn waits(&self, i: usize) -> bool
        requires within { i < length self.now.script.steps }
        requires next { IsNextStep self.now i }
        requires declared { declared_count self.now.script ≤ entries_in self.now.history }
        ensures { WaitsIf self.now.history (step_call self.now.script self.now.history i) result }
    {
        self.waits_for(&self.plan.script().steps()[i].action)
    }

    /// Whether the call that asks for this would wait.
    fn waits_for(&self, action: &Action) -> bool
        requires uses { UsesWell (names_of self.now.script) action.now }
        requires bound { IsBound self.now (used_by action.now) }
        ensures { WaitsIf self.now.history (call_of (object_of self.now.script self.now.history) action.now) result }
    {
        let object = self.bound_object(used_by(action));
        would_wait(&self.board, action, object)
    }

    /// The call of the i-th step, which is its thread's next.
    fn call(&self, i: usize) -> Result<Call<Text>, AllocError>
        requires within { i < length self.now.script.steps }
        requires next { IsNextStep self.now i }
        requires declared { declared_count self.now.script ≤ entries_in self.now.history }
        ensures call { IfOk result (λ call. step_call self.now.script self.now.history i ≡ Some call) }
        ensures fits { IfOk result (λ call. Fits self.now.history call) }
    {
        let call = self.call_for(&self.plan.script().steps()[i].action)?;
        Ok(call)
    }

    /// The call that asks for this.
    fn call_for(&self, action: &Action) -> Result<Call<Text>, AllocError>
        requires uses { UsesWell (names_of self.now.script) action.now }
        requires bound { IsBound self.now (used_by action.now) }
        ensures call { IfOk result (λ call. call_of (object_of self.now.script self.now.history) action.now ≡ Some call) }
        ensures fits { IfOk result (λ call. Fits self.now.history call) }
    {
        let object = self.bound_object(used_by(action));
        let call = call_on(action, object)?;
        Ok(call)
    }

    /// This name's object.
    fn bound_object(&self, at: usize) -> Name
        requires { IsBound self.now at }
        ensures object { object_of self.now.script self.now.history at ≡ Some result.0 }
        ensures kind { (k : Kind) → IsObjectAt (names_of self.now.script) at k → kind_of self.now.history result.0 ≡ Some k }
    {
        let made = self.board.entries();
        self.plan.object(at, made, &self.bindings).unwrap()
    }

    /// The object of a declared name, which is made.
    fn declared_object(&self, at: usize) -> Name
        requires within { at < length self.now.script.declarations }
        requires object { IsObject (names_of self.now.script) at }
        requires made { IsSome (declared_object self.now.script self.now.history at) }
        ensures object { declared_object self.now.script self.now.history at ≡ Some result.0 }
        ensures kind { (k : Kind) → IsObjectAt (names_of self.now.script) at k → kind_of self.now.history result.0 ≡ Some k }
    {
        self.plan.number(at)
    }

    /// Performs the least step that is ready.
    pub fn perform(&mut self, i: usize) -> Result<(), AllocError>
        requires ready { IsLeast self.old.script self.old.history i }
        requires declared { declared_count self.old.script ≤ entries_in self.old.history }
        requires room { entries_in self.old.history < self.old.limit }
        ensures performed { OnOk result ((entry : Entry (List ℕ)) × (self.new ≡ with_entry self.old entry)
            × IsStepAt self.old.script self.old.history entry i) }
        ensures err { OnErr result (self.new ≡ self.old) }
    {
        let call = self.call(i)?;
        let seat = self.plan.script().steps()[i].seat;
        match self.board.apply(Who::Seat(seat), call) {
            Outcome::Answered(answer) => {
                let given = self.plan.given(i);
                self.counts[seat as usize - 1] += 1;
                bind(&mut self.bindings, given, answer.call(), answer.reply());
                Ok(())
            }
            Outcome::Refused(Refusal::NoMemory, _) => Err(AllocError),
            Outcome::Refused(_, _) | Outcome::WouldWait(_) => unreachable!(),
        }
    }
}

fn earlier_of(one: Option<usize>, other: Option<usize>) -> Option<usize>
    ensures { result ≡ earlier_of one other }
{
    match (one, other) {
        (Some(i), Some(j)) => Some(i.min(j)),
        (Some(i), None) => Some(i),
        (None, other) => other,
    }
}
