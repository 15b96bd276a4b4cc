//! The objects of the names that steps give.
ghost use Rattle.std.specs.Prelude.{◌≡◌, ◌<◌, length, IfSome};
ghost use Rattle.std.specs.Option.{option_map};
ghost use Rattle.cml_report.specs.{bound_by, closed_by, port_bound, port_made, with_binding};

use cml_board::{Call, Name, Reply, Text};

/// The object of a name that a step gives.
#[derive(Clone, Copy, Debug, PartialEq, Eq)]
pub enum Binding {
    /// Nothing yet: its step was not performed.
    Unbound,
    /// The port that its step made.
    Made(Name),
    /// The closed port that its step was to copy.
    Closed(Name),
}

impl Binding {
    /// The binding that its step's call and the reply give the name.
    fn by(call: &Call<Text>, reply: &Reply<Text>) -> Binding
        ensures { result ≡ bound_by call.now reply.now }
    {
        match reply {
            Reply::Made(name) => Binding::Made(*name),
            Reply::Closed => closed_by(call),
            Reply::Done | Reply::Got(_) | Reply::Nothing | Reply::Put => Binding::Unbound,
        }
    }

    /// Returns the name's port.
    pub fn port(self) -> Option<Name>
        ensures { result ≡ option_map (λ o. record { 0 = o }) (port_bound self) }
    {
        match self {
            Binding::Unbound => None,
            Binding::Made(name) | Binding::Closed(name) => Some(name),
        }
    }

    /// Returns the port that was made for the name.
    pub fn made(self) -> Option<Name>
        ensures { result ≡ option_map (λ o. record { 0 = o }) (port_made self) }
    {
        match self {
            Binding::Unbound | Binding::Closed(_) => None,
            Binding::Made(name) => Some(name),
        }
    }
}

fn closed_by(call: &Call<Text>) -> Binding
    ensures { result ≡ closed_by call.now }
{
    match call {
        Call::CopyPort(port) => Binding::Closed(*port),
        _ => Binding::Unbound,
    }
}

/// Keeps what a step's call and its reply give the name at this position.
pub fn bind(
    bindings: &mut Vec<Binding>,
    given: Option<usize>,
    call: &Call<Text>,
    reply: &Reply<Text>,
)
    requires { IfSome given (λ at. at < length bindings.old.items) }
    ensures { bindings.new.items ≡ with_binding bindings.old.items given (bound_by call.now reply.now) }
{
    if let Some(at) = given {
        bindings[at] = Binding::by(call, reply);
    }
}
