ghost use Rattle.std.specs.Prelude.{◌≡◌, ◌↔◌, true, false, IsTrue, IfOk, OnErr};
ghost use Rattle.std.specs.Option.{option_map};
ghost use Rattle.cml_calls.specs.{shown};
ghost use Rattle.cml_board.specs.{parts_map, parts_of, made_call, given_call, asked_call, object_in, message_of, row_of, has_message};

use crate::message::Message;
use crate::parts::Parts;
use cml_calls::{Ask, Give, Make, Shape, Takers, shape_of_filled};
use std::alloc::{AllocError, Global};

/// An object's name: how many objects were made before it.
#[derive(Clone, Copy, Debug, PartialEq, Eq, Hash)]
pub struct Name(pub u64);

/// A call on a board. Beside each is its name in the CML manual.
#[derive(Debug, Drop)]
pub enum Call<M> {
    /// `Mailbox.mailbox`: makes a mailbox.
    NewMailbox,
    /// `Multicast.mChannel`: makes a channel.
    NewChannel,
    /// `Multicast.port`: makes a port of a channel, which receives what is multicast from now on.
    NewPort(Name),
    /// `Multicast.copy`: makes a port at this port's place, so that it receives what this one has still to receive.
    CopyPort(Name),
    /// Closes a port. The manual has no such call; there, ports are garbage-collected.
    ClosePort(Name),
    /// `SyncVar.iVar`: makes an empty i-variable.
    NewIVar,
    /// `SyncVar.mVar`: makes an empty m-variable.
    NewMVar,
    /// `SyncVar.mVarInit`: makes an m-variable that holds this message.
    MVarInit(M),
    /// `Mailbox.send`: adds a message. Never blocks.
    Send(Name, M),
    /// `Multicast.multicast`: sends a message to every port of a channel.
    Cast(Name, M),
    /// `Mailbox.recv` and `Multicast.recv`: takes the next message. Blocks while there is none.
    Recv(Name),
    /// `Mailbox.recvPoll`, and the same on a port: takes the next message, or returns `Nothing` if there is none.
    Poll(Name),
    /// `SyncVar.iPut` and `SyncVar.mPut`: fills an empty variable. On a full one it returns `Put`, and changes nothing.
    Put(Name, M),
    /// `SyncVar.iGet` and `SyncVar.mGet`: reads a variable and leaves its message there. Blocks while it is empty.
    Get(Name),
    /// `SyncVar.iGetPoll` and `SyncVar.mGetPoll`: the same, but returns `Nothing` if the variable is empty.
    GetPoll(Name),
    /// `SyncVar.mTake`: reads and empties an m-variable. Blocks while it is empty.
    Take(Name),
    /// `SyncVar.mTakePoll`: the same, but returns `Nothing` if the variable is empty.
    TakePoll(Name),
    /// `SyncVar.mSwap`: stores this message in an m-variable and returns what it held. Blocks while it is empty.
    Swap(Name, M),
}

impl<M> Call<M> {
    /// Returns the call that makes this kind of object.
    pub fn make(make: Make) -> Call<M>
        ensures { result ≡ made_call make }
    {
        match make {
            Make::Mailbox => Call::NewMailbox,
            Make::Channel => Call::NewChannel,
            Make::IVar => Call::NewIVar,
            Make::MVar => Call::NewMVar,
        }
    }

    /// Returns the call that gives the object this message.
    #[inline]
    pub fn give(give: Give, name: Name, message: M) -> Call<M>
        ensures { result ≡ given_call give name message }
    {
        match give {
            Give::Send => Call::Send(name, message),
            Give::Cast => Call::Cast(name, message),
            Give::Put => Call::Put(name, message),
            Give::Swap => Call::Swap(name, message),
        }
    }

    /// Returns the call that asks the object this.
    #[inline]
    pub fn ask(ask: Ask, name: Name) -> Call<M>
        ensures { result ≡ asked_call ask name }
    {
        match ask {
            Ask::NewPort => Call::NewPort(name),
            Ask::CopyPort => Call::CopyPort(name),
            Ask::ClosePort => Call::ClosePort(name),
            Ask::Recv => Call::Recv(name),
            Ask::Poll => Call::Poll(name),
            Ask::Get => Call::Get(name),
            Ask::GetPoll => Call::GetPoll(name),
            Ask::Take => Call::Take(name),
            Ask::TakePoll => Call::TakePoll(name),
        }
    }

    /// Takes the call apart.
    #[inline(always)]
    pub(crate) fn parts(&self) -> Parts<&M>
        ensures { parts_map (λ message. message.now) result ≡ parts_of self.now }
    {
        match self {
            Call::NewMailbox => Parts::Make(Make::Mailbox),
            Call::NewChannel => Parts::Make(Make::Channel),
            Call::NewPort(name) => Parts::Ask(Ask::NewPort, *name),
            Call::CopyPort(name) => Parts::Ask(Ask::CopyPort, *name),
            Call::ClosePort(name) => Parts::Ask(Ask::ClosePort, *name),
            Call::NewIVar => Parts::Make(Make::IVar),
            Call::NewMVar => Parts::Make(Make::MVar),
            Call::MVarInit(message) => Parts::Fill(message),
            Call::Send(name, message) => Parts::Give(Give::Send, *name, message),
            Call::Cast(name, message) => Parts::Give(Give::Cast, *name, message),
            Call::Recv(name) => Parts::Ask(Ask::Recv, *name),
            Call::Poll(name) => Parts::Ask(Ask::Poll, *name),
            Call::Put(name, message) => Parts::Give(Give::Put, *name, message),
            Call::Get(name) => Parts::Ask(Ask::Get, *name),
            Call::GetPoll(name) => Parts::Ask(Ask::GetPoll, *name),
            Call::Take(name) => Parts::Ask(Ask::Take, *name),
            Call::TakePoll(name) => Parts::Ask(Ask::TakePoll, *name),
            Call::Swap(name, message) => Parts::Give(Give::Swap, *name, message),
        }
    }

    /// Returns the call's row in the table of calls.
    #[inline(always)]
    pub fn shape(&self) -> Shape
        ensures { shown result ≡ row_of self.now }
    {
        match self.parts() {
            Parts::Make(make) => make.shape(),
            Parts::Fill(_) => shape_of_filled(),
            Parts::Give(give, _, _) => give.shape(),
            Parts::Ask(ask, _) => ask.shape(),
        }
    }

    /// Returns which objects take the call. This is one column of the row, which a board looks at in each call.
    // A board calls this and `object` in each call. To match the variants costs less than to take the call apart.
    #[inline]
    pub fn takers(&self) -> Takers
        ensures { result ≡ (row_of self.now).takers }
    {
        match self {
            Call::NewMailbox
            | Call::NewChannel
            | Call::NewIVar
            | Call::NewMVar
            | Call::MVarInit(_) => { Takers::Nobody }
            Call::NewPort(_) => Ask::NewPort.takers(),
            Call::CopyPort(_) => Ask::CopyPort.takers(),
            Call::ClosePort(_) => Ask::ClosePort.takers(),
            Call::Send(_, _) => Give::Send.takers(),
            Call::Cast(_, _) => Give::Cast.takers(),
            Call::Recv(_) => Ask::Recv.takers(),
            Call::Poll(_) => Ask::Poll.takers(),
            Call::Put(_, _) => Give::Put.takers(),
            Call::Get(_) => Ask::Get.takers(),
            Call::GetPoll(_) => Ask::GetPoll.takers(),
            Call::Take(_) => Ask::Take.takers(),
            Call::TakePoll(_) => Ask::TakePoll.takers(),
            Call::Swap(_, _) => Give::Swap.takers(),
        }
    }

    /// Returns the message that the call gives, if it gives one.
    #[inline(always)]
    pub fn message(&self) -> Option<&M>
        ensures { option_map (λ message. message.now) result ≡ message_of self.now }
    {
        match self.parts() {
            Parts::Fill(message) | Parts::Give(_, _, message) => Some(message),
            Parts::Make(_) | Parts::Ask(_, _) => None,
        }
    }

    /// Returns the object that the call is made on. Returns `None` if it makes a mailbox, a channel or a variable.
    #[inline(always)]
    pub fn object(&self) -> Option<Name>
        ensures { result ≡ object_in self.now }
    {
        match self {
            Call::NewMailbox | Call::NewChannel => None,
            Call::NewIVar | Call::NewMVar | Call::MVarInit(_) => None,
            Call::NewPort(name) | Call::CopyPort(name) | Call::ClosePort(name) => Some(*name),
            Call::Send(name, _) | Call::Cast(name, _) => Some(*name),
            Call::Recv(name) | Call::Poll(name) => Some(*name),
            Call::Put(name, _) | Call::Swap(name, _) => Some(*name),
            Call::Get(name) | Call::GetPoll(name) => Some(*name),
            Call::Take(name) | Call::TakePoll(name) => Some(*name),
        }
    }
}

impl<M: Message> Call<M> {
    /// Says whether two calls are equal.
    pub fn same(&self, other: &Call<M>) -> bool
        ensures { IsTrue result ↔ (self.now ≡ other.now) }
    {
        self.parts().same(&other.parts())
    }

    /// Makes a second call equal to this one. Fails only for want of memory, and only if the call has a message.
    // A board calls this in each call that it returns. To match the variants costs less than to take the call apart.
    #[inline(always)]
    pub fn share(&self, alloc: Global) -> Result<Call<M>, AllocError>
        ensures copy { IfOk result (λ copy. copy ≡ self.now) }
        ensures sure { OnErr result (M.SURE ≡ false) }
        ensures shares { OnErr result (has_message self.now ≡ true) }
    {
        let copy = match self {
            Call::NewMailbox => Call::NewMailbox,
            Call::NewChannel => Call::NewChannel,
            Call::NewPort(name) => Call::NewPort(*name),
            Call::CopyPort(name) => Call::CopyPort(*name),
            Call::ClosePort(name) => Call::ClosePort(*name),
            Call::NewIVar => Call::NewIVar,
            Call::NewMVar => Call::NewMVar,
            Call::MVarInit(message) => Call::MVarInit(message.share(alloc)?),
            Call::Send(name, message) => Call::Send(*name, message.share(alloc)?),
            Call::Cast(name, message) => Call::Cast(*name, message.share(alloc)?),
            Call::Recv(name) => Call::Recv(*name),
            Call::Poll(name) => Call::Poll(*name),
            Call::Put(name, message) => Call::Put(*name, message.share(alloc)?),
            Call::Get(name) => Call::Get(*name),
            Call::GetPoll(name) => Call::GetPoll(*name),
            Call::Take(name) => Call::Take(*name),
            Call::TakePoll(name) => Call::TakePoll(*name),
            Call::Swap(name, message) => Call::Swap(*name, message.share(alloc)?),
        };
        Ok(copy)
    }
}
