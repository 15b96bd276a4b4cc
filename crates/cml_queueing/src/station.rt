//! The line of customers and the servers that are free: two mailboxes on one board.
ghost use Rattle.std.specs.Prelude.{◌≡◌, IfOk, IfSome, OnOk};
ghost use Rattle.cml_board.specs.declared.entry.Reply.TheVariants.{Got};
ghost use Rattle.cml_board.specs.{no_entries};
ghost use Rattle.cml_queueing.specs.{IsStation, ServesInOrder, Receives, IsAnsweredBy};

use crate::ending::Ending;
use crate::keeper::Keeper;
use cml_board::{Board, BoardLog, Call, Name, Outcome, Reply, Who};
use std::alloc::Global;
use std::marker::Model;

/// The mailbox in which customers wait. Its messages are their numbers: 0, 1, 2 and so on.
pub(crate) const LINE: Name = Name(0);

/// The mailbox in which servers wait that are free. Its messages are their numbers, which are those of their seats.
pub(crate) const FREE: Name = Name(1);

/// Customers come in by the door.
const DOOR: Who = Who::Seat(0);

/// More entries than a run adds between two cuts.
const LIMIT: u64 = 65_536;

/// A board with a line and the free servers, and how many servers there are.
#[derive(Drop)]
pub(crate) struct Station {
    board: Board<u64, BoardLog<u64>>,
    servers: u64,
}

impl Model for Station {
    ghost use Rattle.cml_queueing.specs.Station.{Place, IsStation};

    ghost Value = { Place };

    ghost view = { λ station. record { servers = station.servers; history = station.board.history } };

    ghost invariant = { λ station. IsStation (record { servers = station.servers; history = station.board.history }) };
}

impl Station {
    /// Makes a station with this many servers, none of them free yet, and without customers.
    pub(crate) fn new(alloc: Global, servers: u64) -> Result<Station, Ending>
        ensures { IfOk result (λ station. station.servers ≡ servers) }
    {
        let mut board = Board::new(alloc, LIMIT)?;
        add_mailbox(servers, &mut board)?;
        add_mailbox(servers, &mut board)?;
        Ok(Station { board, servers })
    }

    /// The next customer joins the line.
    #[tactic(auto, using(crate::proofs::StationLemmas::joined))]
    pub(crate) fn join(&mut self) -> Result<(), Ending>
        ensures { self.new.servers ≡ self.old.servers }
    {
        let number = self.board.sent_count(LINE).unwrap_or(0);
        let outcome = self.board.apply(DOOR, Call::Send(LINE, number));
        message_of(outcome)?;
        Ok(())
    }

    /// A server is free from now on.
    #[tactic(auto, using(crate::proofs::StationLemmas::kept))]
    pub(crate) fn rest(&mut self, server: u64) -> Result<(), Ending>
        ensures { self.new.servers ≡ self.old.servers }
    {
        let outcome = self
            .board
            .apply(Who::Seat(server), Call::Send(FREE, server));
        message_of(outcome)?;
        Ok(())
    }

    /// A server takes the next customer. Returns `None` if it would wait. Fails with `Refused` if there is no such server.
    #[tactic(auto, using(crate::proofs::StationLemmas::kept_by_server))]
    pub(crate) fn receive(&mut self, server: u64) -> Result<Option<u64>, Ending>
        ensures servers { self.new.servers ≡ self.old.servers }
        ensures receives { IfOk result (λ received. IfSome received (Receives server self.old self.new)) }
    {
        if server == 0 || server > self.servers {
            return Err(Ending::Refused);
        }
        let outcome = self.board.apply(Who::Seat(server), Call::Recv(LINE));
        message_of(outcome)
    }

    /// Takes the server that has been free the longest. Returns `None` if all are busy.
    #[tactic(auto, using(crate::proofs::StationLemmas::kept))]
    pub(crate) fn wake(&mut self) -> Result<Option<u64>, Ending>
        ensures { self.new.servers ≡ self.old.servers }
    {
        let outcome = self.board.apply(DOOR, Call::Poll(FREE));
        message_of(outcome)
    }

    /// Hands the journal's entries to the keeper, and cuts them away.
    #[tactic(auto, using(crate::proofs::StationLemmas::numbered))]
    pub(crate) fn cut<K: Keeper>(&mut self, keeper: &mut K) -> Result<(), Ending>
        ensures { self.new ≡ self.old }
    {
        let from = self.board.cut_at();
        let entries = self.board.journal();
        keeper.keep(from, entries)?;
        self.board.cut();
        Ok(())
    }

    pub(crate) fn board(&self) -> &Board<u64, BoardLog<u64>> {
        &self.board
    }

    /// Returns how many customers were served. They are the first that came, and were served in the order of their arrival.
    pub(crate) fn served(&self) -> u64
        ensures { ServesInOrder self.now result }
    {
        let _entries = self.board.journal();
        self.board.got_count(LINE).unwrap_or(0)
    }
}

/// Makes a mailbox of a station with this many servers.
#[tactic(auto, using(crate::proofs::StationLemmas::begun, crate::proofs::StationLemmas::kept))]
fn add_mailbox(servers: u64, board: &mut Board<u64, BoardLog<u64>>) -> Result<(), Ending>
    ensures first { board.old.history ≡ no_entries → OnOk result (IsStation (record { servers = servers; history = board.new.history })) }
    ensures later { IsStation (record { servers = servers; history = board.old.history })
        → IsStation (record { servers = servers; history = board.new.history }) }
{
    match board.apply(DOOR, Call::NewMailbox) {
        Outcome::Answered(_) => Ok(()),
        Outcome::WouldWait(_) => Err(Ending::Refused),
        Outcome::Refused(refusal, _) => Err(Ending::from(refusal)),
    }
}

/// Returns the message in the reply. Returns `None` if there is none, or if the call would wait.
#[inline(always)]
fn message_of(outcome: Outcome<u64>) -> Result<Option<u64>, Ending>
    ensures { IfOk result (λ message. IfSome message (λ number. IsAnsweredBy (Got number) outcome)) }
{
    match outcome {
        Outcome::Answered(answer) => Ok(message_in(answer.into_reply())),
        Outcome::WouldWait(_) => Ok(None),
        Outcome::Refused(refusal, _) => Err(Ending::from(refusal)),
    }
}

fn message_in(reply: Reply<u64>) -> Option<u64>
    ensures { IfSome result (λ number. reply ≡ Got number) }
{
    match reply {
        Reply::Got(message) => Some(message),
        _ => None,
    }
}
