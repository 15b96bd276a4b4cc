//! A script under way, of which any thread may take its next step.
ghost use Rattle.std.specs.Prelude.{◌≡◌, ◌↔◌, IfOk, IsTrue, string_bytes};
ghost use Rattle.cml_board.specs.{no_entries};
ghost use Rattle.cml_report.specs.{IsReportOf, no_rings};

use cml_board::{Board, BoardLog, Call, Name, Refusal, Reply, Response, Text, Who};
use cml_grammar::{Makes, Named, Script, Step};
use cml_report::{
    Ending as Ended, Plan, Played, Stop, THREADS, Tally, call_on, conclude, used_by, want_on,
};
use std::alloc::{AllocError, Global};

/// How many entries the journal takes, as without `--limit` in a replay.
const LIMIT: u64 = 65_536;

/// The object of a name.
#[derive(Clone, Copy, Debug, PartialEq, Eq)]
pub(crate) enum Binding {
    /// None yet: what makes it was not performed.
    Unbound,
    /// The object that was made for the name.
    Made(Name),
    /// The closed port that its step was to copy.
    Closed(Name),
}

impl Binding {
    fn object(self) -> Option<Name> {
        match self {
            Binding::Unbound => None,
            Binding::Made(object) | Binding::Closed(object) => Some(object),
        }
    }
}

/// A script without lanes and feeds under way: its board, and how far each of its threads is.
#[derive(Drop)]
pub(crate) struct Walk<'p, 's> {
    plan: &'p Plan<'s>,
    pub(crate) board: Board<Text, BoardLog<Text>>,
    // By thread, how many of its steps were performed.
    pub(crate) counts: Vec<usize>,
    // By name, its object.
    pub(crate) bindings: Vec<Binding>,
    // Whether all declared objects are made.
    has_begun: bool,
}

impl<'p, 's> Walk<'p, 's> {
    /// Makes the declared objects, as far as the journal takes them.
    pub(crate) fn new(alloc: Global, plan: &'p Plan<'s>) -> Result<Walk<'p, 's>, Ended> {
        let names = plan.script().names().len();
        let mut walk = Walk {
            plan,
            board: Board::new(alloc, LIMIT)?,
            counts: vec![in alloc; 0; count_threads(plan.script())]?,
            bindings: vec![in alloc; Binding::Unbound; names]?,
            has_begun: false,
        };
        walk.has_begun = walk.declare_all()?;
        Ok(walk)
    }

    /// Makes the declared objects in text order. Returns false if the journal was full before all were made.
    fn declare_all(&mut self) -> Result<bool, Ended> {
        for (at, declaration) in self.plan.script().declarations().iter().enumerate() {
            if !self.declare(at, &declaration.makes)? {
                return Ok(false);
            }
        }
        Ok(true)
    }

    /// Makes the object of the name at this position, if it is one. Returns false if the journal is full.
    fn declare(&mut self, at: usize, makes: &Makes) -> Result<bool, Ended> {
        let Some(call) = self.making(makes)? else {
            return Ok(true);
        };
        match self.board.call(Who::Seat(0), call) {
            Response::Reply(Reply::Made(object)) => {
                self.bind(at, Binding::Made(object));
                Ok(true)
            }
            Response::Refused(Refusal::JournalFull, _) => Ok(false),
            Response::Refused(Refusal::NoMemory, _) => Err(Ended::NoMemory),
            _ => Err(self.astray()),
        }
    }

    /// The call that makes this. A thread is no object, and a feed is not made here.
    fn making(&self, makes: &Makes) -> Result<Option<Call<Text>>, AllocError> {
        Ok(match makes {
            Makes::Thread | Makes::Feed(_) => None,
            Makes::Mailbox => Some(Call::NewMailbox),
            Makes::Channel => Some(Call::NewChannel),
            Makes::IVar => Some(Call::NewIVar),
            Makes::MVar => Some(Call::NewMVar),
            Makes::MVarInit(message) => Some(Call::MVarInit(message.clone()?)),
            Makes::Port(channel) => match self.object(*channel) {
                Some(channel) => Some(Call::NewPort(channel)),
                None => None,
            },
        })
    }

    /// The version of the script.
    pub(crate) fn version(&self) -> u64 {
        self.plan.script().version()
    }

    /// How many threads the script has.
    pub(crate) fn threads(&self) -> usize {
        self.counts.len()
    }

    /// The object of the name at this position.
    fn object(&self, at: usize) -> Option<Name> {
        self.bindings.get(at)?.object()
    }

    fn bind(&mut self, at: usize, binding: Binding) {
        if let Some(place) = self.bindings.get_mut(at) {
            *place = binding;
        }
    }

    /// The position of the thread's next step.
    fn next(&self, thread: usize) -> Option<usize> {
        if thread >= THREADS {
            return None;
        }
        self.plan.step(thread, *self.counts.get(thread)?)
    }

    /// The thread's next step.
    pub(crate) fn next_step(&self, thread: usize) -> Option<&'s Step> {
        self.plan.script().steps().get(self.next(thread)?)
    }

    /// Whether a thread has steps left.
    fn has_left(&self) -> bool {
        for thread in 0..self.threads() {
            if self.next(thread).is_some() {
                return true;
            }
        }
        false
    }

    /// Whether the thread has a next step, and the board would answer it now.
    pub(crate) fn is_ready(&self, thread: usize) -> bool {
        let Some(step) = self.next_step(thread) else {
            return false;
        };
        let Some(object) = self.object(used_by(&step.action)) else {
            return false;
        };
        match want_on(&step.action, object) {
            Some(want) => !self.board.waits(want),
            None => true,
        }
    }

    fn is_any_ready(&self) -> bool {
        for thread in 0..self.threads() {
            if self.is_ready(thread) {
                return true;
            }
        }
        false
    }

    /// How the script ends here, if no thread goes on.
    pub(crate) fn stop(&self) -> Option<Stop> {
        if !self.has_begun {
            return Some(Stop::Full);
        }
        if !self.has_left() {
            return Some(Stop::Done);
        }
        if self.board.is_full() {
            return Some(Stop::Full);
        }
        if self.is_any_ready() {
            return None;
        }
        Some(Stop::Stalled)
    }

    /// Performs the thread's next step.
    pub(crate) fn go(&mut self, thread: usize) -> Result<(), Ended> {
        let Some(step) = self.next_step(thread) else {
            return Err(self.astray());
        };
        let Some(object) = self.object(used_by(&step.action)) else {
            return Err(self.astray());
        };
        let call = call_on(&step.action, object)?;
        match self.board.call(Who::Seat(step.seat), call) {
            Response::Reply(reply) => {
                self.bind_next(thread, binding_by(object, &reply));
                self.count(thread);
                Ok(())
            }
            Response::Refused(Refusal::NoMemory, _) => Err(Ended::NoMemory),
            _ => Err(self.astray()),
        }
    }

    /// Gives the name of the thread's next step, if it gives one, this object.
    fn bind_next(&mut self, thread: usize, binding: Binding) {
        if let Some(at) = self.given(thread) {
            self.bind(at, binding);
        }
    }

    /// The position of the name that the thread's next step gives.
    fn given(&self, thread: usize) -> Option<usize> {
        let next = self.next(thread)?;
        if next >= self.plan.script().steps().len() {
            return None;
        }
        self.plan.given(next)
    }

    fn count(&mut self, thread: usize) {
        if let Some(count) = self.counts.get_mut(thread) {
            *count = count.saturating_add(1);
        }
    }

    /// Reports the script as ended here. The journal is audited first, and so is that it may end like this.
    pub(crate) fn report(&self, alloc: Global, stop: Stop) -> Result<Played, Ended>
        ensures stop { IfOk result (λ played. played.stop ≡ stop) }
        ensures report { IfOk result (λ played.
            IsReportOf self.now.plan.now self.now.board.limit self.now.board.history no_rings stop (string_bytes played.report)) }
    {
        if !is_whole(&self.board) {
            return Err(self.astray());
        }
        conclude(
            alloc,
            self.plan.script(),
            &self.board,
            &Tally::no_rings(alloc),
            stop,
        )
    }

    /// What the script and the board can't have. It would be a bug.
    fn astray(&self) -> Ended {
        Ended::NotLawful(self.board.journal().len())
    }
}

/// Whether the board's journal was never cut.
fn is_whole(board: &Board<Text, BoardLog<Text>>) -> bool
    ensures { IsTrue result ↔ (board.now.past ≡ no_entries) }
{
    board.cut_at() == 0
}

/// How many threads a script has.
fn count_threads(script: &Script) -> usize {
    let mut threads: usize = 0;
    for named in script.names().values() {
        if let Named::Thread(seat) = named {
            threads = threads.max(*seat as usize);
        }
    }
    threads
}

/// The object that a reply gives the name of a step on an object: the one that was made, or the closed port itself.
fn binding_by(object: Name, reply: &Reply<Text>) -> Binding {
    match reply {
        Reply::Made(made) => Binding::Made(*made),
        Reply::Closed => Binding::Closed(object),
        Reply::Done | Reply::Got(_) | Reply::Nothing | Reply::Put => Binding::Unbound,
    }
}
