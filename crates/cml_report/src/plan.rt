//! What is known of a script before any of it is performed.
ghost use Rattle.std.specs.Prelude.{◌≡◌, ◌+◌, ◌<◌, ◌^◌, [], length, take, slice_get, Some, All, IfOk, IfSome};
ghost use Rattle.std.specs.Option.{option_map};
ghost use Rattle.cml_calls.specs.{shown, is_name, names_one};
ghost use Rattle.cml_board.specs.{no_entries, entries_in};
ghost use Rattle.cml_grammar.specs.{makes_feed, gives_name, IsCapacity};
ghost use Rattle.cml_report.specs.{how_many, History, makes_object, is_object, is_feed, is_seated, is_called, number_of, apart_count};
ghost use Rattle.cml_report.specs.{feed_at, declared_count, feed_count, positions_where, positions_from, lane_route, feed_route, route_of};
ghost use Rattle.cml_report.specs.{given_by, object_of, IsKnown, AreNumbers, AreFeedNumbers, AreQueues, AreGivings, NamesObjects};
ghost use Rattle.cml_report.specs.{HasSeats, AsksForPorts, items_of, object_among, route_at, HasLaneRoom, AreBindings, laid_count};

use crate::binding::Binding;
use crate::route::Route;
use cml_board::{Ask, Give, Name, ReplyKind, Shape};
use cml_grammar::{Action, Makes, Script, Step};
use std::alloc::{AllocError, Global};
use std::marker::Model;

/// How many threads a script may have.
pub const THREADS: usize = 64;

/// A script, and where each of its parts is in it.
#[derive(Drop)]
pub struct Plan<'a> {
    script: &'a Script,
    // How many names its lines give.
    names: usize,
    // By name, how many objects are declared before it.
    numbers: Vec<u64>,
    // By name, how many feeds are declared before it.
    feeds: Vec<usize>,
    // By thread, the positions in the script of the steps that its seat performs.
    queues: Vec<Vec<usize>>,
    // By thread, the positions of all its steps.
    turns: Vec<Vec<usize>>,
    // By step, the position of the name that it gives.
    givings: Vec<Option<usize>>,
}

impl<'a> Model for Plan<'a> {
    ghost use Rattle.cml_grammar.specs.Script.{Lines};
    ghost use Rattle.cml_report.specs.Plan.{IsPlanned, items_of};

    ghost Value = { Lines };

    ghost view = { λ p. p.script.now };

    ghost invariant = { λ p. IsPlanned p.script.now p.names p.numbers.items p.feeds.items (items_of p.queues.items)
        (items_of p.turns.items) p.givings.items };
}

impl<'a> Plan<'a> {
    /// Finds out what is known of this script.
    pub fn new(alloc: Global, script: &'a Script) -> Result<Plan<'a>, AllocError>
        ensures script { IfOk result (λ plan. plan ≡ script.now) }
        ensures known { IfOk result (λ plan. IsKnown plan) }
    {
        let numbers = number_objects(alloc, script)?;
        let feeds = number_feeds(alloc, script)?;
        let queues = queue_calls(alloc, script, &feeds)?;
        let turns = queue_turns(alloc, script)?;
        let givings = number_givings(alloc, script)?;
        Ok(Plan {
            script,
            names: script.names().len(),
            numbers,
            feeds,
            queues,
            turns,
            givings,
        })
    }

    /// The script that is planned.
    pub fn script(&self) -> &'a Script
        ensures { result.now ≡ self.now }
    {
        self.script
    }

    /// How many objects are declared.
    pub fn declared(&self) -> usize
        ensures count { result ≡ declared_count self.now }
        ensures few { result < 2 ^ 57 }

        // What is so of each script.
        ensures known { IsKnown self.now }
    {
        count_objects(self.script)
    }

    /// The position of the nth of the steps that the thread's seat performs.
    pub fn step(&self, thread: usize, nth: usize) -> Option<usize>
        requires { thread < 64 }
        ensures { result ≡ slice_get (positions_from self.now (thread + 1) 0 self.now.steps) nth }
    {
        let queue = &self.queues[thread];
        queue.get(nth).copied()
    }

    /// The position of the thread's nth step, however it goes.
    pub fn turn(&self, thread: usize, nth: usize) -> Option<usize>
        requires { thread < 64 }
        ensures { result ≡ slice_get (positions_where (is_seated self.now (thread + 1)) 0 self.now.steps) nth }
    {
        let queue = &self.turns[thread];
        queue.get(nth).copied()
    }

    /// How a step goes.
    pub fn route(&self, step: usize) -> Route
        requires { step < length self.now.steps }
        ensures route { result ≡ route_at self.now step }
        ensures fits { HasLaneRoom result }
    {
        route_of(self.script, &self.feeds, &self.script.steps()[step])
    }

    /// How many steps go by lanes and feeds.
    pub fn apart(&self) -> usize
        ensures { result ≡ apart_count self.now }
    {
        count_apart(self.script, &self.feeds)
    }

    /// How many steps send by lanes.
    pub fn laid(&self) -> usize
        ensures { result ≡ laid_count self.now }
    {
        count_laid(self.script, &self.feeds)
    }

    /// The number of the feed that the name at this position is, if it is one: feeds are counted from 0 in text order.
    pub fn feed(&self, at: usize) -> Option<usize>
        ensures { result ≡ feed_at self.now at }
    {
        feed_at(self.script, &self.feeds, at)
    }

    /// The position of the name that the step gives.
    pub fn given(&self, step: usize) -> Option<usize>
        requires { step < length self.now.steps }
        ensures { result ≡ given_by self.now step }
    {
        self.givings[step]
    }

    /// The object of a declared name, once it is made.
    pub fn number(&self, at: usize) -> Name
        requires { at < length self.now.declarations }
        ensures { result.0 ≡ number_of self.now at }
    {
        Name(self.numbers[at])
    }

    /// The object of a declared name, if `made` objects are made.
    pub fn declared_object(&self, at: usize, made: u64) -> Option<Name>
        requires { at < length self.now.declarations }
        ensures { result ≡ option_map (λ o. record { 0 = o }) (object_among self.now made at) }
    {
        let object = self.number(at);
        (object.0 < made).then_some(object)
    }

    /// A name's object, if `made` objects are made and steps gave their names these bindings.
    pub fn object(&self, at: usize, made: u64, bindings: &[Binding]) -> Option<Name>
        requires { at < length bindings.now }
        ensures { (history : History) → entries_in history ≡ made → AreBindings self.now history bindings.now
            → result ≡ option_map (λ o. record { 0 = o }) (object_of self.now history at) }
    {
        if at < self.script.declarations().len() {
            self.declared_object(at, made)
        } else {
            bindings[at].port()
        }
    }

    /// What steps gave their names before any was performed.
    pub fn unbound(&self, alloc: Global) -> Result<Vec<Binding>, AllocError>
        ensures { IfOk result (λ bindings. AreBindings self.now no_entries bindings.items) }
    {
        vec![in alloc; Binding::Unbound; self.names]
    }
}

/// By name, how many objects are declared before it.
fn number_objects(alloc: Global, script: &Script) -> Result<Vec<u64>, AllocError>
    ensures numbers { IfOk result (λ numbers. AreNumbers script.now numbers.items) }
    ensures named { IfOk result (λ _. NamesObjects script.now) }
{
    let declarations = script.declarations();
    let mut numbers = Vec::new(alloc);
    let mut objects = 0;
    for declaration in declarations {
        numbers.push(objects)?;
        objects += u64::from(makes_object(&declaration.makes));
    }
    Ok(numbers)
}

/// How many objects are declared.
pub fn count_objects(script: &Script) -> usize
    ensures count { result ≡ declared_count script.now }
    ensures few { result < 2 ^ 57 }
{
    let mut objects = 0;
    for declaration in script.declarations() {
        objects += usize::from(makes_object(&declaration.makes));
    }
    objects
}

/// How many feeds are declared.
pub fn count_feeds(script: &Script) -> usize
    ensures { result ≡ feed_count script.now }
{
    let mut feeds = 0;
    for declaration in script.declarations() {
        feeds += usize::from(makes_feed(&declaration.makes));
    }
    feeds
}

pub fn makes_object(makes: &Makes) -> bool
    ensures { result ≡ makes_object makes.now }
{
    match makes {
        Makes::Thread => false,
        Makes::Mailbox | Makes::Channel | Makes::Port(_) | Makes::Feed(_) => true,
        Makes::IVar | Makes::MVar | Makes::MVarInit(_) => true,
    }
}

pub fn makes_feed(makes: &Makes) -> bool
    ensures { result ≡ makes_feed makes.now }
{
    matches!(makes, Makes::Feed(_))
}

/// By name, how many feeds are declared before it.
fn number_feeds(alloc: Global, script: &Script) -> Result<Vec<usize>, AllocError>
    ensures { IfOk result (λ numbers. AreFeedNumbers script.now numbers.items) }
{
    let mut numbers = Vec::new(alloc);
    let mut feeds = 0;
    for declaration in script.declarations() {
        numbers.push(feeds)?;
        feeds += usize::from(makes_feed(&declaration.makes));
    }
    Ok(numbers)
}

/// The number of the feed that the name at this position is. `feeds` has, by name, how many feeds are declared before it.
fn feed_at(script: &Script, feeds: &[usize], at: usize) -> Option<usize>
    requires { AreFeedNumbers script.now feeds.now }
    ensures { result ≡ feed_at script.now at }
{
    let declaration = script.declarations().get(at)?;
    makes_feed(&declaration.makes).then_some(feeds[at])
}

/// How a step of the script goes. `feeds` has, by name, how many feeds are declared before it.
fn route_of(script: &Script, feeds: &[usize], step: &Step) -> Route
    requires { AreFeedNumbers script.now feeds.now }
    ensures route { result ≡ route_of script.now (Some step.now.seat) step.now.action }
    ensures fits { HasLaneRoom result }
{
    match &step.action {
        Action::Give(Give::Send | Give::Cast, at, _) => {
            lane_route(script.lane_of(step.seat, *at))
        }
        Action::Ask(Ask::Poll, at) => feed_route(feed_at(script, feeds, *at)),
        Action::Give(_, _, _) | Action::Ask(_, _) => Route::Seat,
    }
}

/// How many steps go by lanes and feeds. `feeds` has, by name, how many feeds are declared before it.
fn count_apart(script: &Script, feeds: &[usize]) -> usize
    requires { AreFeedNumbers script.now feeds.now }
    ensures { result ≡ apart_count script.now }
{
    let mut apart = 0;
    for step in script.steps() {
        apart += usize::from(route_of(script, feeds, step).is_by_ring());
    }
    apart
}

/// How many steps send by lanes. `feeds` has, by name, how many feeds are declared before it.
fn count_laid(script: &Script, feeds: &[usize]) -> usize
    requires { AreFeedNumbers script.now feeds.now }
    ensures { result ≡ laid_count script.now }
{
    let mut laid = 0;
    for step in script.steps() {
        laid += usize::from(route_of(script, feeds, step).is_by_lane());
    }
    laid
}

fn lane_route(capacity: Option<usize>) -> Route
    requires { IfSome capacity IsCapacity }
    ensures route { result ≡ lane_route capacity }
    ensures fits { HasLaneRoom result }
{
    match capacity {
        Some(capacity) => Route::Lane(capacity),
        None => Route::Seat,
    }
}

fn feed_route(feed: Option<usize>) -> Route
    ensures route { result ≡ feed_route feed }
    ensures fits { HasLaneRoom result }
{
    match feed {
        Some(feed) => Route::Feed(feed),
        None => Route::Seat,
    }
}

/// By step, the position of the name that it gives.
fn number_givings(alloc: Global, script: &Script) -> Result<Vec<Option<usize>>, AllocError>
    ensures givings { IfOk result (λ givings. AreGivings script.now givings.items) }
    ensures asks { IfOk result (λ _. AsksForPorts script.now) }
{
    let mut givings = Vec::new(alloc);
    let mut names = script.declarations().len();
    for step in script.steps() {
        let gives = gives_name(&step.action);
        givings.push(gives.then_some(names))?;
        names += usize::from(gives);
    }
    Ok(givings)
}

fn gives_name(action: &Action) -> bool
    ensures { result ≡ gives_name action.now }
{
    match action {
        Action::Give(_, _, _) => false,
        Action::Ask(ask, _) => names_one(ask.shape()),
    }
}

fn names_one(shape: Shape) -> bool
    ensures { result ≡ names_one (shown shape) }
{
    shape.replies.iter().any(|reply| is_name(*reply))
}

fn is_name(reply: ReplyKind) -> bool
    ensures { result ≡ is_name reply }
{
    matches!(reply, ReplyKind::Made)
}

/// By thread, the positions of the steps that its seat performs.
fn queue_calls(
    alloc: Global,
    script: &Script,
    feeds: &[usize],
) -> Result<Vec<Vec<usize>>, AllocError>
    requires { AreFeedNumbers script.now feeds.now }
    ensures { IfOk result (λ queues. AreQueues (is_called script.now) script.now.steps (items_of queues.items)) }
{
    let steps = script.steps();
    let mut queues = empty_queues(alloc)?;
    for (i, step) in steps.iter().enumerate() {
        if !route_of(script, feeds, step).is_by_ring() {
            queues[step.seat as usize - 1].push(i)?;
        }
    }
    Ok(queues)
}

/// By thread, the positions of all its steps.
fn queue_turns(alloc: Global, script: &Script) -> Result<Vec<Vec<usize>>, AllocError>
    ensures queues { IfOk result (λ queues. AreQueues (is_seated script.now) script.now.steps (items_of queues.items)) }
    ensures seats { IfOk result (λ _. HasSeats script.now) }
{
    let steps = script.steps();
    let mut queues = empty_queues(alloc)?;
    for (i, step) in steps.iter().enumerate() {
        queues[step.seat as usize - 1].push(i)?;
    }
    Ok(queues)
}

fn empty_queues(alloc: Global) -> Result<Vec<Vec<usize>>, AllocError>
    ensures len { IfOk result (λ queues. length queues.items ≡ 64) }
    ensures empty { IfOk result (λ queues. All (λ queue. queue.items ≡ []) queues.items) }
{
    let mut queues = Vec::with_capacity(alloc, THREADS)?;
    for _ in 0..THREADS {
        queues.push_reserved(Vec::new(alloc));
    }
    Ok(queues)
}
