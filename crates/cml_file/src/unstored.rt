//! What a call returned that is not stored yet.
ghost use Rattle.std.specs.Prelude.{◌≡◌, ◌≤◌, []};
ghost use Rattle.cml_file.specs.{IsUnstored};

use crate::failed::Failed;
use crate::fault::Fault;
use crate::filing::Filing;

/// What a call returned whose entry is not stored yet. It can't be dropped, and is taken out only beside a file in which all is
/// stored, or as what a call failed with. So no code returns it before.
pub(crate) struct Unstored<T> {
    value: T,
}

impl<T> Unstored<T> {
    pub(crate) fn of(value: T) -> Unstored<T>
        ensures { result.value ≡ value }
    {
        Unstored { value }
    }

    /// Returns it, once all that was taken of the journal is stored.
    pub(crate) fn stored<M>(self, filing: &Filing<M>) -> T
        requires taken { filing.now.pending.items ≡ [] }
        requires stored { filing.now.store.accepted ≤ filing.now.store.stored }
        ensures { result ≡ self.value }
    {
        let Unstored { value } = self;
        value
    }

    /// Says that it is not stored, and returns it so.
    pub(crate) fn failed<C>(self, fault: Fault) -> Failed<C, T>
        ensures { IsUnstored self.value result }
    {
        let Unstored { value } = self;
        Failed::Unstored(fault, value)
    }
}
