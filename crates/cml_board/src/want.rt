ghost use Rattle.std.specs.Prelude.{◌≡◌};
ghost use Rattle.cml_board.specs.{want_in};

use crate::call::{Call, Name};

/// What a blocked call waits for: the kind of call and its object. The message of a swap stays with its caller.
#[derive(Clone, Copy, Debug, PartialEq, Eq, Hash)]
pub enum Want {
    Recv(Name),
    Get(Name),
    Take(Name),
    Swap(Name),
}

impl<M> Call<M> {
    /// Returns what the call waits for if it blocks. Returns `None` for a call that never blocks.
    pub fn want(&self) -> Option<Want>
        ensures { result ≡ want_in self.now }
    {
        match self {
            Call::Recv(name) => Some(Want::Recv(*name)),
            Call::Get(name) => Some(Want::Get(*name)),
            Call::Take(name) => Some(Want::Take(*name)),
            Call::Swap(name, _) => Some(Want::Swap(*name)),
            _ => None,
        }
    }
}
