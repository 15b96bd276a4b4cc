//! The calls on mailboxes, by the CML manual's names. Each returns the reply of its answer, and fails as `call` does.
ghost use Rattle.cml_threads.specs.{Replies};

use super::Switchboard;
use crate::seat::Seat;
use cml_board::{Call, Message, Name, Refusal, Reply};
use cml_log::MessageLog;
use std::sync::Wait;
use std::sync::ledger::Ledger;

impl<M: Message, L: MessageLog<M>, Led: Ledger> Switchboard<M, L, Led> {
    /// `Mailbox.mailbox`: makes a mailbox. Replies `Made` with its name.
    pub fn mailbox<R: Wait>(
        &self,
        rt: &R,
        seat: &mut Seat<Led>,
    ) -> Result<Reply<M>, (Refusal, Call<M>)>
        ensures { Replies seat.old seat.new Call.NewMailbox result }
    {
        self.reply(rt, seat, Call::NewMailbox)
    }

    /// `Mailbox.send`: adds a message. Never blocks. Replies `Done`.
    pub fn send<R: Wait>(
        &self,
        rt: &R,
        seat: &mut Seat<Led>,
        mailbox: Name,
        message: M,
    ) -> Result<Reply<M>, (Refusal, Call<M>)>
        ensures { Replies seat.old seat.new (Call.Send mailbox message) result }
    {
        self.reply(rt, seat, Call::Send(mailbox, message))
    }

    /// `Mailbox.recv`, and `Multicast.recv` on a port: takes the next message. Blocks while there is none. Replies `Got`, or
    /// `Closed` on a port that was closed, also if it was closed while this call was blocked.
    pub fn recv<R: Wait>(
        &self,
        rt: &R,
        seat: &mut Seat<Led>,
        object: Name,
    ) -> Result<Reply<M>, (Refusal, Call<M>)>
        ensures { Replies seat.old seat.new (Call.Recv object) result }
    {
        self.reply(rt, seat, Call::Recv(object))
    }

    /// `Mailbox.recvPoll`, and the same on a port: takes the next message. Never blocks. Replies `Got`, or `Nothing` if there
    /// is none, or `Closed` on a closed port.
    pub fn recv_poll<R: Wait>(
        &self,
        rt: &R,
        seat: &mut Seat<Led>,
        object: Name,
    ) -> Result<Reply<M>, (Refusal, Call<M>)>
        ensures { Replies seat.old seat.new (Call.Poll object) result }
    {
        self.reply(rt, seat, Call::Poll(object))
    }
}
