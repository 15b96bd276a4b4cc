//! The kinds of objects.

/// The kind of an object.
#[derive(Clone, Copy, Debug, PartialEq, Eq, Hash)]
pub enum Kind {
    Mailbox,
    Channel,
    Port,
    IVar,
    MVar,
}

impl Kind {
    ghost use Rattle.std.specs.Prelude.{◌≡◌};
    ghost use Rattle.cml_calls.specs.Kinds.{is_receiver, is_source, is_variable};

    /// Says whether messages are received from an object of this kind.
    pub fn is_receiver(self) -> bool
        ensures { result ≡ is_receiver self }
    {
        match self {
            Kind::Mailbox | Kind::Port => true,
            Kind::Channel | Kind::IVar | Kind::MVar => false,
        }
    }

    /// Says whether messages are sent to an object of this kind, or multicast on it.
    pub fn is_source(self) -> bool
        ensures { result ≡ is_source self }
    {
        match self {
            Kind::Mailbox | Kind::Channel => true,
            Kind::Port | Kind::IVar | Kind::MVar => false,
        }
    }

    /// Says whether an object of this kind is a variable: it holds one message or is empty.
    pub fn is_variable(self) -> bool
        ensures { result ≡ is_variable self }
    {
        match self {
            Kind::IVar | Kind::MVar => true,
            Kind::Mailbox | Kind::Channel | Kind::Port => false,
        }
    }
}
