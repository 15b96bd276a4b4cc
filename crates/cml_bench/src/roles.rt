//! What the threads of a workload do: calls, turn after turn, on a board or on a switchboard.
use crate::messages::{Numbered, Supply};
use Role::*;
use Verb::{Answer, Ask, Give, Make, Request};
use cml_board::Ask::{NewPort, Recv, Take};
use cml_board::Give::{Cast, Put, Send};
use cml_board::Make::{Channel, MVar, Mailbox};
use cml_board::{Call, Name};

/// `None` if a call failed.
pub type Done = Option<()>;

/// How many threads of each role there are. Receivers come before the threads for which they wait.
pub type Crews = &'static [(u64, Role)];

#[derive(Clone, Copy)]
pub enum Role {
    /// Makes the objects.
    Maker,
    Pair,
    Sender,
    Getter,
    /// Receives what several send, in any order.
    Collector,
    Caster,
    /// Multicasts, and then receives by each of this many ports.
    CastTo(u64),
    /// Receives by a port that no other thread uses.
    Reader,
    Holder,
    Putter,
    Taker,
    /// Receives the token, and sends it to the next thread.
    Passer,
    Client,
    Worker,
    /// Sends, and after each window of messages waits until it may go on.
    Pacer,
    /// Receives, and takes the journal again and again.
    Cutter,
    Filler,
    /// Drains this many lanes, and receives what came.
    Drainer(u64),
    FeedReader,
    /// Multicasts, and pumps this many feeds.
    Pumper(u64),
    /// Drains this many lanes onto a channel, pumps this many feeds from it, and cuts the journal while all are open.
    Soaker(u64, u64),
}

/// A call that makes an object, or one on an object.
#[derive(Clone, Copy)]
pub enum Verb {
    Make(cml_board::Make),
    Ask(cml_board::Ask),
    Give(cml_board::Give),
    /// Sends the number of this mailbox, at which the sender waits for the answer.
    Request,
    /// Sends to the mailbox whose number was received.
    Answer,
}

/// A call on the object with this number. Then a call on each of this many objects, from that number on.
#[derive(Clone, Copy)]
pub struct Turn(Verb, u64, Verb, u64, u64);

/// What one thread does: turns for the numbers from `start` until before `end`.
#[derive(Clone, Copy)]
pub struct Part {
    pub role: Role,
    turn: Turn,
    pub start: u64,
    pub end: u64,
}

/// A caller makes calls, and adds up what it receives.
pub trait Caller {
    /// Makes this call, with this number's message if it gives one. Returns the number that it received, or else this number.
    fn make(&mut self, verb: Verb, name: Name, number: u64) -> Option<u64>;
}

impl Role {
    /// What the thread at this place of `threads` does, where all together make `turns` turns. Each reader makes all of them.
    pub fn part(self, place: u64, threads: u64, turns: u64) -> Part {
        let each = match self {
            Reader => turns,
            _ => turns.checked_div(threads).unwrap_or(0),
        };
        let start = place.saturating_mul(each);
        Part {
            role: self,
            turn: self.turn(place, threads),
            start,
            end: start.saturating_add(each),
        }
    }

    fn turn(self, place: u64, threads: u64) -> Turn {
        let own = place.saturating_add(1);
        let next = own.checked_rem(threads).unwrap_or(0);
        match self {
            Pair => Turn(Give(Send), 0, Ask(Recv), 0, 1),
            Getter | Cutter | Collector | Drainer(_) => Turn(Ask(Recv), 0, Answer, 0, 0),
            Caster | Pumper(_) => Turn(Give(Cast), 0, Answer, 0, 0),
            CastTo(ports) => Turn(Give(Cast), 0, Ask(Recv), 1, ports),
            Reader => Turn(Ask(Recv), own, Answer, 0, 0),
            Holder => Turn(Give(Put), 0, Ask(Take), 0, 1),
            Putter => Turn(Give(Put), 0, Ask(Take), 1, 1),
            Taker => Turn(Ask(Take), 0, Give(Put), 1, 1),
            Passer => Turn(Ask(Recv), place, Give(Send), next, 1),
            Client => Turn(Request, own, Ask(Recv), own, 1),
            Worker => Turn(Ask(Recv), 0, Answer, 0, 1),
            _ => Turn(Give(Send), 0, Answer, 0, 0),
        }
    }

    /// The sum with what was received, where the order changes it, in any order, or without it.
    pub fn add(self, sum: u64, received: u64) -> u64 {
        match self {
            Taker | Worker | Pacer => sum,
            Collector | Drainer(_) | Reader | Passer | Client => sum.wrapping_add(received),
            _ => received.added_to(sum),
        }
    }
}

impl Part {
    /// A turn for each number from `start` until before `end`.
    pub fn perform<C: Caller>(self, caller: &mut C, start: u64, end: u64) -> Done {
        let Turn(verb, name, then, first, count) = self.turn;
        for number in start..end {
            let received = caller.make(verb, Name(name), number)?;
            for name in first..first.saturating_add(count) {
                caller.make(then, Name(name), received)?;
            }
        }
        Some(())
    }
}

impl Verb {
    /// The call on this object, with this number's message if it gives one.
    pub fn call<M: Numbered>(self, supply: &Supply, name: Name, number: u64) -> Option<Call<M>> {
        let (give, name, number) = match self {
            Make(make) => return Some(Call::make(make)),
            Ask(ask) => return Some(Call::ask(ask, name)),
            Give(give) => (give, name, number),
            Request => (Send, Name(0), name.0),
            Answer => (Send, Name(number), number),
        };
        Some(Call::give(give, name, M::of_number(supply, number)?))
    }
}

/// Makes what these threads call on, and sends a token on its way if they pass one.
pub fn make_objects<C: Caller>(crews: &[(u64, Role)], caller: &mut C) -> Done {
    let ((threads, role), (clients, _)) = (crews.first()?, crews.last()?);
    let (first, other, others) = match *role {
        CastTo(ports) => (Channel, Ask(NewPort), ports),
        Reader => (Channel, Ask(NewPort), *threads),
        FeedReader => (Channel, Ask(NewPort), 0),
        Holder => (MVar, Make(MVar), 0),
        Taker => (MVar, Make(MVar), 1),
        Pacer => (Mailbox, Make(Mailbox), 1),
        Passer => (Mailbox, Make(Mailbox), threads.saturating_sub(1)),
        Worker => (Mailbox, Make(Mailbox), *clients),
        _ => (Mailbox, Make(Mailbox), 0),
    };
    caller.make(Make(first), Name(0), 0)?;
    for _ in 0..others {
        caller.make(other, Name(0), 0)?;
    }
    if matches!(role, Passer) {
        caller.make(Give(Send), Name(0), 1)?;
    }
    Some(())
}
