//! Whether a call would wait.
ghost use Rattle.std.specs.Prelude.{◌≡◌, ◌↔◌, Some, None, IsTrue};
ghost use Rattle.cml_board.specs.{Fits, answer, Waits, held_by};

use super::Board;
use crate::call::{Call, Name};
use crate::message::Message;
use crate::want::Want;
use cml_calls::Kind;
use cml_log::MessageLog;

impl<M: Message, L: MessageLog<M>> Board<M, L> {
    /// Says whether the call's object is there and takes the call, and the call would block now. It does not ask whether the
    /// journal is full.
    pub fn would_wait(&self, call: &Call<M>) -> bool
        ensures { IsTrue result ↔ (Fits self.now.history call.now × (answer self.now.history call.now ≡ None)) }
    {
        match call.want() {
            Some(want) => self.waits(want),
            None => false,
        }
    }

    /// Says whether the object is there and takes a call with this want, and such a call would block now. It does not ask
    /// whether the journal is full.
    pub fn waits(&self, want: Want) -> bool
        ensures { IsTrue result ↔ Waits self.now.history want }
    {
        match want {
            Want::Recv(name) => self.owed_count(name) == Some(0),
            Want::Get(name) => self.is_empty(name),
            Want::Take(name) | Want::Swap(name) => {
                self.kind(name) == Some(Kind::MVar) && self.is_empty(name)
            }
        }
    }

    /// Whether the object is a variable that holds nothing.
    fn is_empty(&self, name: Name) -> bool
        ensures { IsTrue result ↔ (held_by self.now.history name.0 ≡ Some None) }
    {
        matches!(self.held(name), Some(None))
    }
}
