//! The calls on i-variables and m-variables, by the CML manual's names. Each fails as `call` does.
ghost use Rattle.cml_threads.specs.{Replies};

use super::Switchboard;
use crate::seat::Seat;
use cml_board::{Call, Message, Name, Refusal, Reply};
use cml_log::MessageLog;
use std::sync::Wait;
use std::sync::ledger::Ledger;

impl<M: Message, L: MessageLog<M>, Led: Ledger> Switchboard<M, L, Led> {
    /// `SyncVar.iVar`: makes an empty i-variable. Replies `Made` with its name.
    pub fn i_var<R: Wait>(
        &self,
        rt: &R,
        seat: &mut Seat<Led>,
    ) -> Result<Reply<M>, (Refusal, Call<M>)>
        ensures { Replies seat.old seat.new Call.NewIVar result }
    {
        self.reply(rt, seat, Call::NewIVar)
    }

    /// `SyncVar.mVar`: makes an empty m-variable. Replies `Made` with its name.
    pub fn m_var<R: Wait>(
        &self,
        rt: &R,
        seat: &mut Seat<Led>,
    ) -> Result<Reply<M>, (Refusal, Call<M>)>
        ensures { Replies seat.old seat.new Call.NewMVar result }
    {
        self.reply(rt, seat, Call::NewMVar)
    }

    /// `SyncVar.mVarInit`: makes an m-variable that holds this message. Replies `Made` with its name.
    pub fn m_var_init<R: Wait>(
        &self,
        rt: &R,
        seat: &mut Seat<Led>,
        message: M,
    ) -> Result<Reply<M>, (Refusal, Call<M>)>
        ensures { Replies seat.old seat.new (Call.MVarInit message) result }
    {
        self.reply(rt, seat, Call::MVarInit(message))
    }

    /// `SyncVar.iPut`: fills an empty variable. Never blocks. Replies `Done`, or `Put` if it is full and stays as it is.
    pub fn i_put<R: Wait>(
        &self,
        rt: &R,
        seat: &mut Seat<Led>,
        variable: Name,
        message: M,
    ) -> Result<Reply<M>, (Refusal, Call<M>)>
        ensures { Replies seat.old seat.new (Call.Put variable message) result }
    {
        self.reply(rt, seat, Call::Put(variable, message))
    }

    /// `SyncVar.iGet`: reads a variable and leaves its message there. Blocks while it is empty. Replies `Got`.
    pub fn i_get<R: Wait>(
        &self,
        rt: &R,
        seat: &mut Seat<Led>,
        variable: Name,
    ) -> Result<Reply<M>, (Refusal, Call<M>)>
        ensures { Replies seat.old seat.new (Call.Get variable) result }
    {
        self.reply(rt, seat, Call::Get(variable))
    }

    /// `SyncVar.iGetPoll`: the same, but never blocks. Replies `Got`, or `Nothing` if the variable is empty.
    pub fn i_get_poll<R: Wait>(
        &self,
        rt: &R,
        seat: &mut Seat<Led>,
        variable: Name,
    ) -> Result<Reply<M>, (Refusal, Call<M>)>
        ensures { Replies seat.old seat.new (Call.GetPoll variable) result }
    {
        self.reply(rt, seat, Call::GetPoll(variable))
    }

    /// `SyncVar.mPut`: fills an empty variable. Never blocks. Replies `Done`, or `Put` if it is full and stays as it is.
    pub fn m_put<R: Wait>(
        &self,
        rt: &R,
        seat: &mut Seat<Led>,
        variable: Name,
        message: M,
    ) -> Result<Reply<M>, (Refusal, Call<M>)>
        ensures { Replies seat.old seat.new (Call.Put variable message) result }
    {
        self.reply(rt, seat, Call::Put(variable, message))
    }

    /// `SyncVar.mTake`: reads and empties an m-variable. Blocks while it is empty. Replies `Got`.
    pub fn m_take<R: Wait>(
        &self,
        rt: &R,
        seat: &mut Seat<Led>,
        variable: Name,
    ) -> Result<Reply<M>, (Refusal, Call<M>)>
        ensures { Replies seat.old seat.new (Call.Take variable) result }
    {
        self.reply(rt, seat, Call::Take(variable))
    }

    /// `SyncVar.mTakePoll`: the same, but never blocks. Replies `Got`, or `Nothing` if the variable is empty.
    pub fn m_take_poll<R: Wait>(
        &self,
        rt: &R,
        seat: &mut Seat<Led>,
        variable: Name,
    ) -> Result<Reply<M>, (Refusal, Call<M>)>
        ensures { Replies seat.old seat.new (Call.TakePoll variable) result }
    {
        self.reply(rt, seat, Call::TakePoll(variable))
    }

    /// `SyncVar.mGet`: reads a variable and leaves its message there. Blocks while it is empty. Replies `Got`.
    pub fn m_get<R: Wait>(
        &self,
        rt: &R,
        seat: &mut Seat<Led>,
        variable: Name,
    ) -> Result<Reply<M>, (Refusal, Call<M>)>
        ensures { Replies seat.old seat.new (Call.Get variable) result }
    {
        self.reply(rt, seat, Call::Get(variable))
    }

    /// `SyncVar.mGetPoll`: the same, but never blocks. Replies `Got`, or `Nothing` if the variable is empty.
    pub fn m_get_poll<R: Wait>(
        &self,
        rt: &R,
        seat: &mut Seat<Led>,
        variable: Name,
    ) -> Result<Reply<M>, (Refusal, Call<M>)>
        ensures { Replies seat.old seat.new (Call.GetPoll variable) result }
    {
        self.reply(rt, seat, Call::GetPoll(variable))
    }

    /// `SyncVar.mSwap`: stores this message in an m-variable and returns what it held, in one step. Blocks while it is empty.
    /// Replies `Got`.
    pub fn m_swap<R: Wait>(
        &self,
        rt: &R,
        seat: &mut Seat<Led>,
        variable: Name,
        message: M,
    ) -> Result<Reply<M>, (Refusal, Call<M>)>
        ensures { Replies seat.old seat.new (Call.Swap variable message) result }
    {
        self.reply(rt, seat, Call::Swap(variable, message))
    }
}
