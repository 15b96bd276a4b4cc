//! The calls that make an object, how an entry is added to the journal, and how a call fails for want of memory.
ghost use Rattle.std.specs.Prelude.{◌≡◌, ◌+◌, ◌-◌, ◌<◌, [], ◌∷◌, ◌++◌, length, vec_len, vec_capacity};
ghost use Rattle.cml_board.specs.declared.outcome.Response.TheVariants.{Refused};
ghost use Rattle.cml_board.specs.declared.outcome.Refusal.TheVariants.{NoMemory};
ghost use Rattle.cml_board.specs.{making_call, given_response};

use crate::call::{Call, Name};
use crate::entry::{Entry, Reply};
use crate::object::Form;
use crate::outcome::{Refusal, Response};
use cml_calls::Give;
use cml_log::Key;

/// The calls that make an object and hold no message.
#[derive(Clone, Copy)]
pub enum Making {
    Mailbox,
    Channel,
    /// At the end of this channel.
    Port(Name),
    /// At this open port's place in its channel, by that cursor.
    Copy(Name, Name, Key),
    Variable(Form),
}

impl Making {
    pub fn call<M>(&self) -> Call<M>
        ensures { result ≡ making_call self.now }
    {
        match self {
            Making::Mailbox => Call::NewMailbox,
            Making::Channel => Call::NewChannel,
            Making::Port(channel) => Call::NewPort(*channel),
            Making::Copy(port, _, _) => Call::CopyPort(*port),
            Making::Variable(form) => form.call(),
        }
    }
}

/// Adds an entry to a journal that has room for it.
#[inline]
pub fn note<M>(journal: &mut Vec<Entry<M>>, entry: Entry<M>)
    requires { vec_len journal.old < vec_capacity journal.old }
    ensures entries { journal.new.items ≡ journal.old.items ++ entry ∷ [] }
    ensures spare { vec_capacity journal.old - vec_len journal.old ≡ vec_capacity journal.new - vec_len journal.new + 1 }
{
    journal.push_reserved(entry);
}

/// Returns a call that fails for want of memory.
#[inline]
pub fn denied<M>(call: Call<M>) -> Response<M>
    ensures { result ≡ Refused NoMemory call }
{
    Response::Refused(Refusal::NoMemory, call)
}

/// The response to a call that gives an object a message. If the call fails, its message is here.
#[inline]
pub fn given<M>(give: Give, name: Name, put: Result<(), M>) -> Response<M>
    ensures { result ≡ given_response give name put }
{
    match put {
        Ok(()) => Response::Reply(Reply::Done),
        Err(message) => denied(Call::give(give, name, message)),
    }
}
