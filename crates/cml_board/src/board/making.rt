//! Calls that make or close an object.
ghost use Rattle.std.specs.Prelude.{◌≡◌, true, false, Some, MatchOption, slice_get};
ghost use Rattle.cml_calls.specs.{is_port};
ghost use Rattle.cml_board.specs.{making_call, makes_empty, CanMake, is_a, is_open, Fits, open_port, Performs, HasRoom};

use super::Board;
use super::note::{Making, denied, note};
use super::objects::{add_made, close_port};
use crate::call::{Call, Name};
use crate::entry::{Entry, Reply, Who};
use crate::message::Message;
use crate::object::{Form, Object, Reading};
use crate::outcome::Response;
use cml_calls::Ask;
use cml_log::{Key, MessageLog};

impl<M: Message, L: MessageLog<M>> Board<M, L> {
    /// A call that makes an object which holds no message.
    #[inline(never)]
    pub(super) fn make_by(&mut self, who: Who, call: Call<M>) -> Response<M>
        requires fits { Fits self.old.history call }
        requires room { HasRoom self.old }
        requires makes { makes_empty call ≡ true }
        ensures { Performs L.CHUNK M.SURE self.old self.new who call result }
    {
        match call {
            Call::NewMailbox => self.make(who, Making::Mailbox),
            Call::NewChannel => self.make(who, Making::Channel),
            Call::NewPort(channel) => self.make(who, Making::Port(channel)),
            Call::NewIVar => self.make(who, Making::Variable(Form::Once)),
            Call::NewMVar => self.make(who, Making::Variable(Form::Mutable)),
            _ => unreachable!(),
        }
    }

    /// Makes an object that holds no message.
    pub(super) fn make(&mut self, who: Who, making: Making) -> Response<M>
        requires can { CanMake self.old making }
        requires room { HasRoom self.old }
        ensures { Performs L.CHUNK M.SURE self.old self.new who (making_call making) result }
    {
        let call = making.call();
        let Ok(()) = self.journal.reserve(1) else {
            return denied(call);
        };
        let reply = Name(self.objects.len() as u64);
        let Ok(()) = add_made(&mut self.objects, self.alloc, making) else {
            return denied(call);
        };
        let entry = Entry {
            who,
            call,
            reply: Reply::Made(reply),
        };
        note(&mut self.journal, entry);
        Response::Reply(Reply::Made(reply))
    }

    #[inline(never)]
    pub(super) fn copy_port(&mut self, who: Who, port: Name) -> Response<M>
        requires fits { is_a is_port self.old.history port.0 ≡ true }
        requires room { HasRoom self.old }
        ensures { Performs L.CHUNK M.SURE self.old self.new who (Call.CopyPort port) result }
    {
        match self.cursor(port) {
            None => self.find_closed(who, port, Ask::CopyPort),
            Some((channel, key)) => self.make(who, Making::Copy(port, channel, key)),
        }
    }

    #[inline(never)]
    pub(super) fn close_port(&mut self, who: Who, port: Name) -> Response<M>
        requires fits { is_a is_port self.old.history port.0 ≡ true }
        requires room { HasRoom self.old }
        ensures { Performs L.CHUNK M.SURE self.old self.new who (Call.ClosePort port) result }
    {
        match self.open_port(port) {
            None => self.find_closed(who, port, Ask::ClosePort),
            Some((channel, start, key)) => self.close_open(who, port, channel, start, key),
        }
    }

    /// The channel of an open port, its start, and its cursor there.
    fn open_port(&self, port: Name) -> Option<(Name, u64, Key)>
        requires { is_a is_port self.now.history port.0 ≡ true }
        ensures { MatchOption result (is_open self.now.history port.0 ≡ false)
            (λ found. slice_get self.now.objects port.0 ≡ Some (open_port found.0.0 found.1 found.2)) }
    {
        match self.object(port)? {
            Object::Mailbox(_, _) | Object::Channel(_) | Object::Variable(_, _) => None,
            Object::Port(port) => match port.reading {
                Reading::Open(key) => Some((port.channel, port.start, key)),
                Reading::Closed(_) => None,
            },
        }
    }

    fn close_open(
        &mut self,
        who: Who,
        port: Name,
        channel: Name,
        start: u64,
        key: Key,
    ) -> Response<M>
        requires stands { slice_get self.old.objects port.0 ≡ Some (open_port channel.0 start key) }
        requires room { HasRoom self.old }
        ensures { Performs L.CHUNK M.SURE self.old self.new who (Call.ClosePort port) result }
    {
        let call = Call::ClosePort(port);
        let Ok(()) = self.journal.reserve(1) else {
            return denied(call);
        };
        close_port(&mut self.objects, port, channel, start, key);
        let entry = Entry {
            who,
            call,
            reply: Reply::Done,
        };
        note(&mut self.journal, entry);
        Response::Reply(Reply::Done)
    }
}
