//! The named forms of calls.
use super::scene::Numbers;
use cml_board::{Call, Name, Refusal, Reply};
use cml_threads::Seat;
use std::sync::Wait;
use std::sync::ledger::Ledger;

/// A named form of a call.
#[derive(Clone, Copy)]
pub enum Form {
    Mailbox,
    Send(Name, u64),
    Recv(Name),
    RecvPoll(Name),
    MChannel,
    Port(Name),
    Multicast(Name, u64),
    Copy(Name),
    Close(Name),
    IVar,
    IPut(Name, u64),
    IGet(Name),
    IGetPoll(Name),
    MVar,
    MVarInit(u64),
    MPut(Name, u64),
    MGet(Name),
    MGetPoll(Name),
    MSwap(Name, u64),
    MTake(Name),
    MTakePoll(Name),
}

/// What a form returns: the reply, or why there is none, and the call.
type Told = Result<Reply<u64>, (Refusal, Call<u64>)>;

// A function with many calls of a switchboard is dear to prove, so each has a few.
impl Form {
    pub fn reply<Led: Ledger, R: Wait>(
        self,
        rt: &R,
        board: &Numbers<Led>,
        seat: &mut Seat<Led>,
    ) -> Told {
        match self {
            Form::MChannel => board.m_channel(rt, seat),
            Form::Port(name) => board.port(rt, seat, name),
            Form::Copy(name) => board.copy(rt, seat, name),
            Form::Close(name) => board.close(rt, seat, name),
            _ => self.of_messages(rt, board, seat),
        }
    }

    fn of_messages<Led: Ledger, R: Wait>(
        self,
        rt: &R,
        board: &Numbers<Led>,
        seat: &mut Seat<Led>,
    ) -> Told {
        match self {
            Form::Send(name, message) => board.send(rt, seat, name, message),
            Form::Multicast(name, message) => board.multicast(rt, seat, name, message),
            Form::Recv(name) => board.recv(rt, seat, name),
            Form::RecvPoll(name) => board.recv_poll(rt, seat, name),
            _ => self.of_i_variables(rt, board, seat),
        }
    }

    fn of_i_variables<Led: Ledger, R: Wait>(
        self,
        rt: &R,
        board: &Numbers<Led>,
        seat: &mut Seat<Led>,
    ) -> Told {
        match self {
            Form::IVar => board.i_var(rt, seat),
            Form::IPut(name, message) => board.i_put(rt, seat, name, message),
            Form::IGet(name) => board.i_get(rt, seat, name),
            Form::IGetPoll(name) => board.i_get_poll(rt, seat, name),
            _ => self.of_m_variables(rt, board, seat),
        }
    }

    fn of_m_variables<Led: Ledger, R: Wait>(
        self,
        rt: &R,
        board: &Numbers<Led>,
        seat: &mut Seat<Led>,
    ) -> Told {
        match self {
            Form::MVar => board.m_var(rt, seat),
            Form::MVarInit(message) => board.m_var_init(rt, seat, message),
            Form::MPut(name, message) => board.m_put(rt, seat, name, message),
            Form::MSwap(name, message) => board.m_swap(rt, seat, name, message),
            _ => self.of_m_values(rt, board, seat),
        }
    }

    fn of_m_values<Led: Ledger, R: Wait>(
        self,
        rt: &R,
        board: &Numbers<Led>,
        seat: &mut Seat<Led>,
    ) -> Told {
        match self {
            Form::MGet(name) => board.m_get(rt, seat, name),
            Form::MGetPoll(name) => board.m_get_poll(rt, seat, name),
            Form::MTake(name) => board.m_take(rt, seat, name),
            Form::MTakePoll(name) => board.m_take_poll(rt, seat, name),
            // The only one that is left is `Mailbox`.
            _ => board.mailbox(rt, seat),
        }
    }
}
