//! How far the threads of a script are in a journal.
ghost use Rattle.std.specs.Prelude.{◌≡◌, ◌↔◌, ◌&&◌, ℕ, ◌+◌, ◌<◌, ◌≤◌, Some, None, length, filter, slice_get, IfOk};
ghost use Rattle.std.specs.Prelude.{IfSome, IsTrue, MatchOption};
ghost use Rattle.std.specs.Option.{option_map, option_and_then};
ghost use Rattle.cml_board.specs.{entries_in};
ghost use Rattle.cml_grammar.specs.{names_of};
ghost use Rattle.cml_report.specs.{declared_count, declared_object, object_of, made_of, making_call, maker, next_position, objects_of};
ghost use Rattle.cml_report.specs.{is_feed, feed_at, is_apart, is_by_ring, IsDeclaration, IsKnown, IsObject, route_at, IsOwn, IsOfCaller};
ghost use Rattle.cml_report.specs.{IsOfLane, IsOfFeed, sent_to, IsMadeOfDeclared, given_word, is_laid, WaitsOrIsDone, is_passed};
ghost use Rattle.cml_report.specs.{passed_count, history_of, with_next, next_text, IsNextOf, IsThread, IsNoThread, AreSmallCounts};
ghost use Rattle.cml_report.specs.{CountsOneMore, next_given, next_call, declared_call};
ghost use Rattle.cml_report.specs.Left.{is_by_lane};

use crate::binding::{Binding, bind};
use crate::calls::{is_call_on, used_by, would_wait};
use crate::objects::Objects;
use crate::plan::{Plan, THREADS};
use cml_board::{Board, BoardLog, Call, Entry, Message, Name, Text, Who};
use cml_grammar::{Makes, Script, Step};
use std::alloc::{AllocError, Global};
use std::marker::Model;

/// A journal that is followed entry by entry beside a script.
#[derive(Drop)]
pub struct Follower<'a> {
    plan: Plan<'a>,
    journal: &'a [Entry<Text>],
    followed: usize,
    objects: Objects,
    // By thread, how many calls it made.
    counts: Vec<usize>,
    // By name, what a step gave it.
    bindings: Vec<Binding>,
}

impl<'a> Model for Follower<'a> {
    ghost use Rattle.cml_report.specs.Follower.{Progress, IsFollowed};

    ghost Value = { Progress };

    ghost view = { λ t. record { script = t.plan; journal = t.journal.now; followed = t.followed } };

    ghost invariant = { λ t.
        IsFollowed (record { script = t.plan; journal = t.journal.now; followed = t.followed }) t.objects t.counts.items t.bindings.items };
}

impl<'a> Follower<'a> {
    /// A follower at the beginning of a journal.
    pub fn new(
        alloc: Global,
        script: &'a Script,
        journal: &'a [Entry<Text>],
    ) -> Result<Follower<'a>, AllocError>
        ensures { IfOk result (λ follower. follower ≡ record { script = script.now; journal = journal.now; followed = 0 }) }
    {
        let plan = Plan::new(alloc, script)?;
        let objects = Objects::new(alloc, &plan)?;
        let counts = vec![in alloc; 0; THREADS]?;
        let bindings = plan.unbound(alloc)?;
        Ok(Follower {
            plan,
            journal,
            followed: 0,
            objects,
            counts,
            bindings,
        })
    }

    pub fn script(&self) -> &'a Script
        ensures { result.now ≡ self.now.script }
    {
        self.plan.script()
    }

    /// Whether all declared objects are made.
    pub fn has_begun(&self) -> bool
        ensures { IsTrue result ↔ (declared_count self.now.script ≤ entries_in (history_of self.now)) }
    {
        self.followed >= self.objects.places.len()
    }

    /// The line of the step that the caller's next entry performs, or nothing if no step is left.
    pub fn next_text(&self, who: Who) -> &'a str
        ensures { result.now ≡ next_text self.now.script (history_of self.now) who }
    {
        match self.next_of(who) {
            Some(step) => step.line.text.as_str(),
            None => "",
        }
    }

    /// The name of a declared object, or nothing if none has this number.
    pub fn object_name(&self, object: Name) -> &'a str
        ensures { result.now ≡ given_word (slice_get (objects_of self.now.script) object.0) }
    {
        declared_name(self.plan.script(), self.objects.place(object.0))
    }

    /// The name of a feed, or nothing if none has this number.
    pub fn feed_name(&self, feed: u64) -> &'a str
        ensures { result.now ≡ given_word (slice_get (filter (is_feed self.now.script) self.now.script.declarations) feed) }
    {
        declared_name(self.plan.script(), self.objects.feed_place(feed))
    }

    /// The number of the feed that the name at this position is, if it is one.
    pub fn feed(&self, at: usize) -> Option<usize>
        ensures { result ≡ feed_at self.now.script at }
    {
        self.plan.feed(at)
    }

    /// The object that was made for a name.
    pub fn made(&self, at: usize) -> Option<Name>
        requires { IsObject (names_of self.now.script) at }
        ensures object { MatchOption result (made_of self.now.script (history_of self.now) at ≡ None)
            (λ name. made_of self.now.script (history_of self.now) at ≡ Some name.0) }
        ensures known { IsKnown self.now.script }
    {
        if at >= self.plan.script().declarations().len() {
            return self.bindings[at].made();
        }
        self.declared_object(at)
    }

    /// Whether the script has this entry next.
    pub fn is_own(&self, entry: &Entry<Text>) -> bool
        ensures { IsTrue result ↔ IsOwn self.now.script (history_of self.now) entry.now }
    {
        if self.has_begun() {
            return self.is_of_caller(entry);
        }
        self.is_declaration(entry)
    }

    /// Whether the entry makes the next declared object.
    fn is_declaration(&self, entry: &Entry<Text>) -> bool
        requires { entries_in (history_of self.now) < declared_count self.now.script }
        ensures { IsTrue result ↔ IsDeclaration self.now.script (history_of self.now) entry.now }
    {
        if !self.is_maker(entry.who) {
            return false;
        }
        self.is_declared_call(&entry.call)
    }

    /// Whether this caller makes the next declared object.
    fn is_maker(&self, who: Who) -> bool
        requires { entries_in (history_of self.now) < declared_count self.now.script }
        ensures { IsTrue result ↔ (who ≡ maker self.now.script (entries_in (history_of self.now))) }
    {
        who == self.objects.makers[self.followed]
    }

    /// Whether its caller may have this entry after the declared objects.
    fn is_of_caller(&self, entry: &Entry<Text>) -> bool
        ensures { IsTrue result ↔ IsOfCaller self.now.script (history_of self.now) entry.now entry.now.who }
    {
        match entry.who {
            Who::Seat(_) => self.is_next_call(entry.who, &entry.call),
            Who::Lane(_) => self.is_of_lane(&entry.call),
            Who::Feed(feed) => self.is_of_feed(feed, &entry.call),
        }
    }

    /// Whether a lane may make this call.
    fn is_of_lane(&self, call: &Call<Text>) -> bool
        ensures { IsTrue result ↔ IsOfLane self.now.script call.now }
    {
        match sent_to(call) {
            Some(object) => self.objects.is_laid(object.0),
            None => false,
        }
    }

    /// Whether this feed may make this call.
    fn is_of_feed(&self, feed: u64, call: &Call<Text>) -> bool
        ensures { IsTrue result ↔ IsOfFeed self.now.script feed call.now }
    {
        match self.objects.feed_place(feed) {
            Some(at) => call.same(&Call::Recv(self.plan.number(at))),
            None => false,
        }
    }

    /// Whether on the board with these entries each thread whose seat has steps left would wait at the next of them.
    pub fn all_wait(&self, board: &Board<Text, BoardLog<Text>>) -> bool
        requires { board.now.history ≡ history_of self.now }
        ensures { IsTrue result ↔ ((seat : ℕ) → WaitsOrIsDone self.now.script (history_of self.now) seat) }
    {
        for thread in 0..self.counts.len() {
            if !self.waits(board, thread) {
                return false;
            }
        }
        true
    }

    /// Whether on that board this thread has steps left, and would wait at the next of them.
    fn waits(&self, board: &Board<Text, BoardLog<Text>>, thread: usize) -> bool
        requires thread { thread < 64 }
        requires board { board.now.history ≡ history_of self.now }
        ensures { IsTrue result ↔ WaitsOrIsDone self.now.script (history_of self.now) (thread + 1) }
    {
        let Some(step) = self.next_of(Who::Seat(thread as u64 + 1)) else {
            return true;
        };
        match self.object(used_by(&step.action)) {
            Some(object) => would_wait(board, &step.action, object),
            None => false,
        }
    }

    /// How many steps that go by lanes and feeds are passed.
    pub fn passed_apart(&self) -> usize
        ensures { result ≡ passed_count (is_apart self.now.script) self.now.script (history_of self.now) }
    {
        let mut passed = 0;
        for i in 0..self.plan.script().steps().len() {
            passed += usize::from(self.is_passed_apart(i));
        }
        passed
    }

    /// How many steps that send by lanes are passed.
    pub fn passed_laid(&self) -> usize
        ensures { result ≡ passed_count (is_laid self.now.script) self.now.script (history_of self.now) }
    {
        let mut passed = 0;
        for i in 0..self.plan.script().steps().len() {
            passed += usize::from(self.is_passed_laid(i));
        }
        passed
    }

    /// Whether the step at this position goes by a lane or a feed, and is passed.
    fn is_passed_apart(&self, i: usize) -> bool
        requires { i < length self.now.script.steps }
        ensures { result ≡ (is_by_ring (route_at self.now.script i) && is_passed self.now.script (history_of self.now) i) }
    {
        self.plan.route(i).is_by_ring() && self.is_passed(i)
    }

    /// Whether the step at this position sends by a lane, and is passed.
    fn is_passed_laid(&self, i: usize) -> bool
        requires { i < length self.now.script.steps }
        ensures { result ≡ (is_by_lane (route_at self.now.script i) && is_passed self.now.script (history_of self.now) i) }
    {
        self.plan.route(i).is_by_lane() && self.is_passed(i)
    }

    /// Whether the step at this position is before the next of those that its thread's seat performs, or that seat has
    /// none left.
    fn is_passed(&self, i: usize) -> bool
        requires { i < length self.now.script.steps }
        ensures { result ≡ is_passed self.now.script (history_of self.now) i }
    {
        let seat = self.plan.script().steps()[i].seat;
        match self.next_step(Who::Seat(seat)) {
            Some(next) => i < next,
            None => true,
        }
    }

    /// Goes on after the next entry of the journal, whether it is the script's or not.
    pub fn follow(&mut self)
        requires { self.old.followed < length self.old.journal }
        ensures { self.new ≡ with_next self.old }
    {
        let entry = &self.journal[self.followed];
        let given = self.next_given(entry.who);
        bind(&mut self.bindings, given, &entry.call, &entry.reply);
        count(&mut self.counts, entry.who);
        self.followed += 1;
    }

    /// Whether the call makes the next declared object.
    fn is_declared_call(&self, call: &Call<Text>) -> bool
        requires { entries_in (history_of self.now) < declared_count self.now.script }
        ensures { IsTrue result ↔ (declared_call self.now.script (history_of self.now) ≡ Some call.now) }
    {
        let at = self.objects.places[self.followed];
        self.is_making(&self.plan.script().declarations()[at].makes, call)
    }

    /// Whether the call makes this.
    fn is_making(&self, makes: &Makes, call: &Call<Text>) -> bool
        requires { IsMadeOfDeclared self.now.script makes.now }
        ensures { IsTrue result ↔ (making_call (declared_object self.now.script (history_of self.now)) makes.now ≡ Some call.now) }
    {
        match (makes, call) {
            (Makes::Mailbox, Call::NewMailbox) => true,
            (Makes::Channel, Call::NewChannel) => true,
            (Makes::IVar, Call::NewIVar) => true,
            (Makes::MVar, Call::NewMVar) => true,
            (Makes::MVarInit(wanted), Call::MVarInit(message)) => wanted.same(message),
            (Makes::Port(channel), Call::NewPort(name)) => self.is_object(*channel, *name),
            (Makes::Feed(feed), Call::NewPort(name)) => self.is_object(feed.channel, *name),
            _ => false,
        }
    }

    /// Whether this is a declared name's object.
    fn is_object(&self, at: usize, object: Name) -> bool
        requires { at < length self.now.script.declarations }
        ensures { IsTrue result ↔ (declared_object self.now.script (history_of self.now) at ≡ Some object.0) }
    {
        self.declared_object(at) == Some(object)
    }

    /// Whether it is the call of the caller's next step.
    fn is_next_call(&self, who: Who, call: &Call<Text>) -> bool
        ensures { IsTrue result ↔ (next_call self.now.script (history_of self.now) who ≡ Some call.now) }
    {
        let Some(step) = self.next_of(who) else {
            return false;
        };
        match self.object(used_by(&step.action)) {
            Some(object) => is_call_on(&step.action, object, call),
            None => false,
        }
    }

    /// The name that the caller's next step gives.
    fn next_given(&self, who: Who) -> Option<usize>
        ensures { result ≡ next_given self.now.script (history_of self.now) who }
    {
        self.plan.given(self.next_step(who)?)
    }

    /// The caller's next step.
    fn next_of(&self, who: Who) -> Option<&'a Step>
        ensures { MatchOption result (next_position self.now.script (history_of self.now) who ≡ None)
            (λ step. IsNextOf self.now.script (history_of self.now) who step.now) }
    {
        let step = self.next_step(who)?;
        Some(&self.plan.script().steps()[step])
    }

    /// The position of the caller's next step.
    fn next_step(&self, who: Who) -> Option<usize>
        ensures { result ≡ next_position self.now.script (history_of self.now) who }
    {
        let (plan, counts) = (&self.plan, &self.counts);
        let thread = thread_of(who)?;
        plan.step(thread, counts[thread])
    }

    /// A name's object.
    fn object(&self, at: usize) -> Option<Name>
        requires { at < length (names_of self.now.script) }
        ensures { result ≡ option_map (λ o. record { 0 = o }) (object_of self.now.script (history_of self.now) at) }
    {
        self.plan.object(at, self.followed as u64, &self.bindings)
    }

    /// A declared name's object.
    fn declared_object(&self, at: usize) -> Option<Name>
        requires { at < length self.now.script.declarations }
        ensures { result ≡ option_map (λ o. record { 0 = o }) (declared_object self.now.script (history_of self.now) at) }
    {
        self.plan.declared_object(at, self.followed as u64)
    }
}

/// The object that a send or a multicast goes to.
pub(crate) fn sent_to(call: &Call<Text>) -> Option<Name>
    ensures { result ≡ option_map (λ o. record { 0 = o }) (sent_to call.now) }
{
    match call {
        Call::Send(target, _) | Call::Cast(target, _) => Some(*target),
        _ => None,
    }
}

/// The name that the declaration at this position gives, or nothing for no position.
fn declared_name(script: &Script, at: Option<usize>) -> &str
    requires { IfSome at (λ at. at < length script.now.declarations) }
    ensures { result.now ≡ given_word (option_and_then (slice_get script.now.declarations) at) }
{
    match at {
        Some(at) => {
            let (name, _) = script.names().get_index(at).unwrap();
            name.as_str()
        }
        None => "",
    }
}

/// The thread of a seat.
fn thread_of(who: Who) -> Option<usize>
    ensures { MatchOption result (IsNoThread who) (IsThread who) }
{
    match who {
        Who::Seat(seat) if 1 <= seat && seat <= THREADS as u64 => Some(seat as usize - 1),
        Who::Seat(_) | Who::Lane(_) | Who::Feed(_) => None,
    }
}

/// Counts one call more of the caller, if it is a thread's.
fn count(counts: &mut Vec<usize>, who: Who)
    requires { AreSmallCounts counts.old.items }
    ensures { CountsOneMore counts.old.items who counts.new.items }
{
    if let Some(thread) = thread_of(who) {
        counts[thread] += 1;
    }
}
