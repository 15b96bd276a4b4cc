//! The calls on multicast channels and their ports, by the CML manual's names. A port is received from by `recv` and
//! `recv_poll`.
ghost use Rattle.cml_threads.specs.{Replies};

use super::Switchboard;
use crate::seat::Seat;
use cml_board::{Call, Message, Name, Refusal, Reply};
use cml_log::MessageLog;
use std::sync::Wait;
use std::sync::ledger::Ledger;

impl<M: Message, L: MessageLog<M>, Led: Ledger> Switchboard<M, L, Led> {
    /// `Multicast.mChannel`: makes a channel. Replies `Made` with its name.
    pub fn m_channel<R: Wait>(
        &self,
        rt: &R,
        seat: &mut Seat<Led>,
    ) -> Result<Reply<M>, (Refusal, Call<M>)>
        ensures { Replies seat.old seat.new Call.NewChannel result }
    {
        self.reply(rt, seat, Call::NewChannel)
    }

    /// `Multicast.multicast`: sends a message to every port of a channel. Never blocks. Replies `Done`.
    pub fn multicast<R: Wait>(
        &self,
        rt: &R,
        seat: &mut Seat<Led>,
        channel: Name,
        message: M,
    ) -> Result<Reply<M>, (Refusal, Call<M>)>
        ensures { Replies seat.old seat.new (Call.Cast channel message) result }
    {
        self.reply(rt, seat, Call::Cast(channel, message))
    }

    /// `Multicast.port`: makes a port, which receives what is multicast from now on. Replies `Made` with its name.
    pub fn port<R: Wait>(
        &self,
        rt: &R,
        seat: &mut Seat<Led>,
        channel: Name,
    ) -> Result<Reply<M>, (Refusal, Call<M>)>
        ensures { Replies seat.old seat.new (Call.NewPort channel) result }
    {
        self.reply(rt, seat, Call::NewPort(channel))
    }

    /// `Multicast.copy`: makes a port at this port's place. Replies `Made`, or `Closed` if this port is closed.
    pub fn copy<R: Wait>(
        &self,
        rt: &R,
        seat: &mut Seat<Led>,
        port: Name,
    ) -> Result<Reply<M>, (Refusal, Call<M>)>
        ensures { Replies seat.old seat.new (Call.CopyPort port) result }
    {
        self.reply(rt, seat, Call::CopyPort(port))
    }

    /// Closes a port: each call that is blocked on it replies `Closed`. Replies `Done`, or `Closed` if it was closed before.
    /// The manual has no such call.
    pub fn close<R: Wait>(
        &self,
        rt: &R,
        seat: &mut Seat<Led>,
        port: Name,
    ) -> Result<Reply<M>, (Refusal, Call<M>)>
        ensures { Replies seat.old seat.new (Call.ClosePort port) result }
    {
        self.reply(rt, seat, Call::ClosePort(port))
    }
}
