//! What a row of the table says of a call.
ghost use Rattle.std.specs.Prelude.{◌≡◌};
ghost use Rattle.cml_calls.specs.{admits};

use crate::kind::Kind;

/// The objects that take a call.
#[derive(Clone, Copy, Debug, PartialEq, Eq)]
pub enum Takers {
    /// The call makes an object, and needs no other.
    Nobody,
    Mailboxes,
    Channels,
    Ports,
    MVars,
    /// Mailboxes and ports.
    Receivers,
    /// I-variables and m-variables.
    Variables,
}

impl Takers {
    /// Says whether an object of this kind takes the call.
    #[inline(always)]
    pub fn has(self, kind: Kind) -> bool
        ensures { result ≡ admits self kind }
    {
        match self {
            Takers::Nobody => false,
            Takers::Mailboxes => kind == Kind::Mailbox,
            Takers::Channels => kind == Kind::Channel,
            Takers::Ports => kind == Kind::Port,
            Takers::MVars => kind == Kind::MVar,
            Takers::Receivers => kind.is_receiver(),
            Takers::Variables => kind.is_variable(),
        }
    }
}

/// A kind of reply to an accepted call.
#[derive(Clone, Copy, Debug, PartialEq, Eq)]
pub enum ReplyKind {
    Done,
    /// An object was made, and its name comes back.
    Made,
    /// A message comes back.
    Got,
    /// A poll found nothing.
    Nothing,
    /// The variable was full before.
    Put,
    /// The port was closed before.
    Closed,
}

/// A row of the table: the facts about one call.
#[derive(Clone, Copy, Debug)]
pub struct Shape {
    /// Its number for callers in C.
    pub number: u32,
    /// Its word in scripts, reports, journals and tables of calls.
    pub word: &'static str,
    pub takers: Takers,
    /// The replies that it may have.
    pub replies: &'static [ReplyKind],
    /// Whether it may block.
    pub blocks: bool,
}
