//! The machine of an exchange: a file beside, which begins with a short text, takes a journal's name.
ghost use Rattle.std.specs.Prelude.{◌≡◌, ◌↔◌, IsTrue};
ghost use Rattle.cml_store.specs.declared.exchange.Way.TheVariants.{Over, Left};
ghost use Rattle.cml_store.specs.Exchange.{begun, place, counted, covers, move_begun, move_asked, move_ended, cancelled};

use crate::stage::Stage;
use crate::store::Store;
use std::marker::Model;

/// How far the new file has come to the name of the old one.
#[derive(Clone, Copy, Debug, PartialEq, Eq)]
pub enum Way {
    /// It is beside, and is given each line of the old one.
    Beside,
    /// It is being renamed, so a kill or a loss of power may leave the name with either file.
    Renaming,
    /// It has the name, but maybe in memory alone.
    Renamed,
    /// Its folder is being synced.
    Naming,
    /// It has the name on the disk. The old file may be let go.
    Over,
    /// It was cancelled. The old file has the name.
    Left,
    /// The folder's sync has failed: only another opening heals the file.
    Lost,
}

/// What is to be done next.
#[derive(Clone, Copy, Debug, PartialEq, Eq)]
pub enum Move {
    /// Nothing, until both files have more, or the step under way has ended.
    Nothing,
    /// Give the new file the name of the old one.
    Rename,
    /// Sync the folder that has the name.
    SyncFolder,
}

/// An exchange of an old file for a new one. Both have a store of their own, and are given each line while it is under way.
#[derive(Clone, Copy)]
pub struct Exchange {
    taken: u64,
    short: u64,
    way: Way,
}

impl Model for Exchange {
    ghost use Rattle.cml_store.specs.Exchange.{Crossing};

    ghost Value = { Crossing };

    ghost view = { λ e. record { taken = e.taken; short = e.short; way = e.way } };

    ghost inverse = { λ e. record { taken = e.taken; short = e.short; way = e.way } };
}

impl Exchange {
    /// Begins an exchange. The new file begins with a text of `short` bytes, which stands for the first `taken` bytes of the old one.
    pub fn new(taken: u64, short: u64) -> Exchange
        ensures { result ≡ begun taken short }
    {
        Exchange {
            taken,
            short,
            way: Way::Beside,
        }
    }

    /// Begins the next step, if none is under way. The new file is renamed once it has all that the old one has on the disk, and all
    /// that is stored there.
    pub fn begin(&mut self, old: &Store, new: &Store) -> Move
        ensures state { self.new ≡ move_begun old.now new.now self.old }
        ensures step { result ≡ move_asked old.now new.now self.old }
    {
        match self.way {
            Way::Beside if self.covers(old, new) => {
                self.way = Way::Renaming;
                Move::Rename
            }
            Way::Renamed => {
                self.way = Way::Naming;
                Move::SyncFolder
            }
            _ => Move::Nothing,
        }
    }

    /// Returns whether the new file may have the name: a loss of power or a kill finds no less in it.
    fn covers(&self, old: &Store, new: &Store) -> bool
        ensures { result ≡ covers self.now old.now new.now }
    {
        matches!(old.stage(), Stage::Open)
            && matches!(new.stage(), Stage::Open)
            && self.short <= new.synced()
            && old.synced() <= self.place(new.synced())
            && old.stored() <= self.place(new.stored())
    }

    /// Returns the place of the old file that a place of the new one stands for.
    fn place(&self, mark: u64) -> u64
        ensures { result ≡ place self.now mark }
    {
        self.taken.saturating_add(mark.saturating_sub(self.short))
    }

    /// Ends the step. If the renaming failed, the old file keeps the name, and the exchange is over.
    pub fn end(&mut self, done: bool)
        ensures { self.new ≡ move_ended done self.old }
    {
        match (self.way, done) {
            (Way::Renaming, true) => self.way = Way::Renamed,
            (Way::Renaming, false) => self.way = Way::Left,
            (Way::Naming, true) => self.way = Way::Over,
            (Way::Naming, false) => self.way = Way::Lost,
            _ => {}
        }
    }

    /// Cancels the exchange, if no step has begun. Returns whether the new file may be removed.
    pub fn cancel(&mut self) -> bool
        ensures state { self.new ≡ cancelled self.old }
        ensures removed { IsTrue result ↔ (self.new.way ≡ Left) }
    {
        if matches!(self.way, Way::Beside) {
            self.way = Way::Left;
        }
        matches!(self.way, Way::Left)
    }

    /// Returns how many bytes of the old file a kill keeps, in whichever file has the name then. Once the exchange is over, they
    /// are counted as if the old file went on.
    pub fn stored(&self, old: &Store, new: &Store) -> u64
        ensures { result ≡ counted self.now old.now.stored new.now.stored }
    {
        self.counted(old.stored(), new.stored())
    }

    /// Returns the same of a loss of power. A sync is acknowledged only so far.
    pub fn synced(&self, old: &Store, new: &Store) -> u64
        ensures { result ≡ counted self.now old.now.synced new.now.synced }
    {
        self.counted(old.synced(), new.synced())
    }

    /// Returns how far a mark counts.
    fn counted(&self, old: u64, new: u64) -> u64
        ensures { result ≡ counted self.now old new }
    {
        match self.way {
            Way::Beside | Way::Left => old,
            Way::Renaming | Way::Renamed | Way::Naming | Way::Lost => old.min(self.place(new)),
            Way::Over => self.place(new),
        }
    }

    /// Returns whether the old file may be let go, and lines are stored in the new one alone.
    pub fn may_leave_old(&self) -> bool
        ensures { IsTrue result ↔ (self.now.way ≡ Over) }
    {
        matches!(self.way, Way::Over)
    }

    /// Returns how far the new file has come.
    pub fn way(&self) -> Way
        ensures { result ≡ self.now.way }
    {
        self.way
    }
}
