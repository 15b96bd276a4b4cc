ghost use Rattle.std.specs.Prelude.{◌≡◌, MatchOption};
ghost use Rattle.cml_calls.specs.{Kind};
ghost use Rattle.cml_lanes.specs.{way_call, way_kind, NoLane};

use cml_board::{Call, Kind, Name};

/// How a lane's messages go to its target.
#[derive(Clone, Copy, Debug, PartialEq, Eq)]
pub enum Way {
    Send,
    Cast,
}

impl Way {
    /// The way of a lane to an object of this kind, or `None` if that takes no lane.
    pub fn to(kind: Kind) -> Option<Way>
        ensures { MatchOption result (NoLane kind) (λ way. way_kind way ≡ kind) }
    {
        match kind {
            Kind::Mailbox => Some(Way::Send),
            Kind::Channel => Some(Way::Cast),
            Kind::Port | Kind::IVar | Kind::MVar => None,
        }
    }

    /// The call that moves a message this way.
    pub fn call<M>(self, target: Name, message: M) -> Call<M>
        ensures { result ≡ way_call self target message }
    {
        match self {
            Way::Send => Call::Send(target, message),
            Way::Cast => Call::Cast(target, message),
        }
    }
}
