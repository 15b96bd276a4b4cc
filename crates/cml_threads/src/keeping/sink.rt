ghost use Rattle.std.specs.Prelude.{◌≡◌, List, [], ◌++◌, OnOk};
ghost use Rattle.cml_board.specs.{Entry};

use cml_board::Entry;

/// Takes the entries of full journals: writes them to a file, sends them to another machine, or drops them.
///
/// A sink of a file counts the entries that it wrote. It writes each list at the file's end, by `write_piece` of `cml_journal`,
/// and adds it to its `GhostEntries`.
pub trait Sink<M>: Drop {
    type Error: Drop;

    /// All entries that it took, oldest first.
    ghost taken: { Self → List (Entry M) };

    /// Takes entries, oldest first. If it fails, it leaves those in the list that it didn't take, and gets them again later. So
    /// a sink that can't tell how many it has taken takes all of them or none: a file is cut to what it had.
    fn take(&mut self, entries: &mut Vec<Entry<M>>) -> Result<(), Self::Error>
        ensures each { taken self.new ++ entries.new.items ≡ taken self.old ++ entries.old.items }
        ensures all { OnOk result (entries.new.items ≡ []) };
}
