//! The machine of a journal's file.
ghost use Rattle.std.specs.Prelude.{◌≡◌, ◌⊎◌, ◌≤◌, ◌<◌, ◌+◌, ◌-◌, ◌*◌, ◌^◌, ◌↔◌, IsTrue, OnOk, OnErr, IfOk, true, false, Err};
ghost use Rattle.cml_store.specs.declared.stage.Stage.TheVariants.{Open};
ghost use Rattle.cml_store.specs.declared.step.Step.TheVariants.{Sync};
ghost use Rattle.cml_store.specs.declared.step.Unaccepted.TheVariants.{Closed, Full, NoRoom};
ghost use Rattle.cml_store.specs.Machine.{opened_at, refused, is_open, accepted_by, storing_begun, store_asked, growth_begun, growth_asked, work_ended, storing_ended, syncing_begun, sync_asked, syncing_ended};

use crate::stage::{Stage, Work};
use crate::step::{Step, Unaccepted};
use std::marker::Model;

/// The most bytes of a text.
const MOST: u64 = 1 << 62;

/// The most bytes that are accepted and not synced.
pub const LIMIT: u64 = 1 << 26;

/// How much longer than its text a file is grown.
pub const GROWTH: u64 = 1 << 22;

/// What is to be done to a journal's file, and how much of its text is stored and synced. Stored bytes survive a kill of the process,
/// synced ones a loss of power too.
#[derive(Clone, Copy)]
pub struct Store {
    accepted: u64,
    stored: u64,
    synced: u64,
    /// The file is at least this long.
    grown: u64,
    work: Work,
    /// The sync under way counts for the bytes up to this place.
    syncing: Option<u64>,
    stage: Stage,
}

impl Model for Store {
    ghost use Rattle.std.specs.Prelude.{◌≤◌, ◌^◌};
    ghost use Rattle.cml_store.specs.Machine.{State};

    ghost Value = { State };

    ghost view = { λ s.
        record {
          accepted = s.accepted;
          stored = s.stored;
          synced = s.synced;
          grown = s.grown;
          work = s.work;
          syncing = s.syncing;
          stage = s.stage;
        } };

    ghost invariant = { λ s. s.accepted ≤ 2 ^ 62 };

    ghost inverse = { λ s.
        record {
          accepted = s.accepted;
          stored = s.stored;
          synced = s.synced;
          grown = s.grown;
          work = s.work;
          syncing = s.syncing;
          stage = s.stage;
        } };
}

impl Store {
    /// Makes the store of a file that was read: it has `size` bytes, of which recovery keeps the first `kept`.
    pub fn opened(kept: u64, size: u64) -> Store
        requires { kept ≤ 2 ^ 62 }
        ensures { result ≡ opened_at LIMIT kept size }
    {
        let sure = kept.saturating_sub(LIMIT);
        Store {
            accepted: kept,
            stored: sure,
            synced: sure,
            grown: size,
            work: Work::Idle,
            syncing: None,
            stage: Stage::Dirty,
        }
    }

    /// Makes the store of a file that is no journal. It asks for nothing.
    pub fn refused() -> Store
        ensures { result ≡ refused }
    {
        Store {
            accepted: 0,
            stored: 0,
            synced: 0,
            grown: 0,
            work: Work::Idle,
            syncing: None,
            stage: Stage::Lost,
        }
    }

    /// Accepts as many bytes more. Returns their ticket: they are stored or synced once that mark is at least the ticket.
    pub fn accept(&mut self, bytes: u64) -> Result<u64, Unaccepted>
        ensures ok { OnOk result (self.new ≡ accepted_by bytes self.old) }
        ensures ticket { IfOk result (λ ticket. ticket ≡ self.old.accepted + bytes) }
        ensures err { OnErr result (self.new ≡ self.old) }

        ensures closed { (result ≡ Err Closed) ↔ (is_open self.old.stage ≡ false) }
        ensures room { OnOk result (self.old.accepted + bytes ≤ self.old.synced + LIMIT) }
        ensures full { result ≡ Err Full → (bytes ≤ LIMIT) × (self.old.synced + LIMIT < self.old.accepted + bytes) }
        ensures no_room { result ≡ Err NoRoom → (LIMIT < bytes) ⊎ (MOST < self.old.accepted + bytes) }
    {
        if !matches!(self.stage, Stage::Open) {
            return Err(Unaccepted::Closed);
        }
        if bytes > LIMIT || bytes > MOST - self.accepted {
            return Err(Unaccepted::NoRoom);
        }
        let ticket = self.accepted + bytes;
        if ticket.saturating_sub(LIMIT) > self.synced {
            return Err(Unaccepted::Full);
        }
        self.accepted = ticket;
        Ok(ticket)
    }

    /// Begins the next step on the file's bytes, if none is under way: `Cut`, `Grow` or `Store`. If the file is being closed, the
    /// last step cuts off the zeros behind the text.
    pub fn begin_store(&mut self, closing: bool) -> Step
        ensures state { self.new ≡ storing_begun closing GROWTH self.old }
        ensures step { result ≡ store_asked closing GROWTH self.old }
    {
        match self.stage {
            Stage::Dirty => {
                self.stage = Stage::Trimming;
                Step::Cut(self.accepted)
            }
            Stage::Trimmed if self.stored < self.accepted => {
                self.stage = Stage::Rewriting;
                Step::Store(self.stored, self.accepted)
            }
            Stage::Open => self.begin_work(closing),
            _ => Step::Nothing,
        }
    }

    /// Begins the next step on an open file's bytes.
    fn begin_work(&mut self, closing: bool) -> Step
        requires { self.old.stage ≡ Open }
        ensures state { self.new ≡ storing_begun closing GROWTH self.old }
        ensures step { result ≡ store_asked closing GROWTH self.old }
    {
        if !matches!(self.work, Work::Idle) {
            return Step::Nothing;
        }
        if self.stored < self.accepted {
            if self.grown < self.accepted {
                self.work = Work::Growing(self.accepted + GROWTH);
                return Step::Grow(self.accepted + GROWTH);
            }
            self.work = Work::Storing(self.accepted);
            return Step::Store(self.stored, self.accepted);
        }
        if closing && self.synced >= self.accepted && self.accepted < self.grown {
            self.work = Work::Cutting(self.accepted);
            return Step::Cut(self.accepted);
        }
        Step::Nothing
    }

    /// Begins to grow an open file to this length, if it is shorter and no step on its bytes is under way. Mapped memory needs this
    /// room before bytes are accepted.
    pub fn begin_growth(&mut self, to: u64) -> Step
        ensures state { self.new ≡ growth_begun to self.old }
        ensures step { result ≡ growth_asked to self.old }
    {
        if !matches!(self.stage, Stage::Open) || !matches!(self.work, Work::Idle) {
            return Step::Nothing;
        }
        if self.grown >= to || self.accepted > to {
            return Step::Nothing;
        }
        self.work = Work::Growing(to);
        Step::Grow(to)
    }

    /// Ends the step on the file's bytes. A store that was cut short is not done: it begins again at the same place.
    pub fn end_store(&mut self, done: bool)
        ensures { self.new ≡ storing_ended done self.old }
    {
        match (self.stage, done) {
            (Stage::Trimming, true) => {
                self.grown = self.accepted;
                self.stage = Stage::Trimmed;
            }
            (Stage::Trimming, false) => self.stage = Stage::Dirty,
            (Stage::Rewriting, true) => {
                self.stored = self.accepted;
                self.stage = Stage::Trimmed;
            }
            (Stage::Rewriting, false) => self.stage = Stage::Trimmed,
            (Stage::Open | Stage::Lost, _) => self.end_work(done),
            _ => {}
        }
    }

    /// Ends the step on an open file's bytes.
    fn end_work(&mut self, done: bool)
        ensures { self.new ≡ work_ended self.old.work done self.old }
    {
        match (self.work, done) {
            (Work::Cutting(to), true) | (Work::Growing(to), true) => self.grown = to,
            (Work::Cutting(to), false) => self.grown = self.grown.min(to),
            (Work::Storing(to), true) => self.stored = to,
            _ => {}
        }
        self.work = Work::Idle;
    }

    /// Begins a sync, if there is something to sync and no sync is under way: `Sync` or `SyncFolder`. It counts for what is stored by
    /// now.
    pub fn begin_sync(&mut self) -> Step
        ensures state { self.new ≡ syncing_begun self.old }
        ensures step { result ≡ sync_asked self.old }
    {
        match self.stage {
            Stage::Trimmed if self.stored >= self.accepted => {
                self.stage = Stage::Settling;
                Step::Sync
            }
            Stage::Unnamed => {
                self.stage = Stage::Naming;
                Step::SyncFolder
            }
            Stage::Open if self.syncing.is_none() && self.synced < self.stored => {
                self.syncing = Some(self.stored);
                Step::Sync
            }
            _ => Step::Nothing,
        }
    }

    /// Ends the sync. After one that failed, an open file is lost: only another opening heals it.
    pub fn end_sync(&mut self, done: bool)
        ensures { self.new ≡ syncing_ended done self.old }
    {
        match (self.stage, done) {
            (Stage::Settling, true) => self.stage = Stage::Unnamed,
            (Stage::Settling, false) => {
                self.stored = self.synced;
                self.stage = Stage::Dirty;
            }
            (Stage::Naming, true) => {
                self.synced = self.accepted;
                self.stage = Stage::Open;
            }
            (Stage::Naming, false) => self.stage = Stage::Lost,
            (Stage::Open, _) => self.end_open_sync(done),
            _ => {}
        }
    }

    /// Ends the sync of an open file.
    fn end_open_sync(&mut self, done: bool)
        requires { self.old.stage ≡ Open }
        ensures { self.new ≡ syncing_ended done self.old }
    {
        let Some(to) = self.syncing else {
            return;
        };
        self.syncing = None;
        if done {
            self.synced = to;
        } else {
            self.stage = Stage::Lost;
        }
    }

    /// Returns whether half of the bytes that may be unsynced are, so that a sync had better begin.
    pub fn wants_sync(&self) -> bool
        ensures { IsTrue result ↔ ((is_open self.now.stage ≡ true) × (sync_asked self.now ≡ Sync)
            × (LIMIT ≤ 2 * (self.now.stored - self.now.synced))) }
    {
        matches!(self.stage, Stage::Open)
            && self.syncing.is_none()
            && self.stored.saturating_sub(self.synced) >= LIMIT / 2
    }

    /// Returns how long the file is at least, once it is open.
    pub fn grown(&self) -> u64
        ensures { result ≡ self.now.grown }
    {
        self.grown
    }

    /// Returns how many bytes were accepted.
    pub fn accepted(&self) -> u64
        ensures { result ≡ self.now.accepted }
    {
        self.accepted
    }

    /// Returns how many bytes are stored, once the file is open.
    pub fn stored(&self) -> u64
        ensures { result ≡ self.now.stored }
    {
        self.stored
    }

    /// Returns how many bytes are synced, once the file is open.
    pub fn synced(&self) -> u64
        ensures { result ≡ self.now.synced }
    {
        self.synced
    }

    /// Returns the stage that the file has come to.
    pub fn stage(&self) -> Stage
        ensures { result ≡ self.now.stage }
    {
        self.stage
    }
}
