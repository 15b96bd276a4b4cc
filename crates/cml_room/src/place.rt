ghost use Rattle.std.specs.Prelude.{◌≡◌};
ghost use Rattle.cml_room.specs.{state_by};

use crate::notice::Notice;
use crate::state::State;
use cml_board::Want;

/// What the room knows of a seat.
#[derive(Clone, Copy)]
pub enum Place {
    Free,
    Waiting(Waiter),
    Left,
}

/// A seat that waits.
#[derive(Clone, Copy)]
pub struct Waiter {
    pub want: Want,
    /// The source of what it waits for: a port's channel, or any other object itself.
    pub source: u64,
    pub notice: Notice,
}

impl Place {
    #[inline]
    pub fn state(self) -> State
        ensures { result ≡ state_by self }
    {
        match self {
            Place::Free => State::Free,
            Place::Waiting(waiter) => State::Parked(waiter.want),
            Place::Left => State::Left,
        }
    }
}
