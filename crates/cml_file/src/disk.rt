//! A journal's file of std, to which the steps of the machine are done. No contract says what a file does.
ghost use Rattle.std.specs.Prelude.{◌≡◌, ◌≤◌, OnOk, [], true};
ghost use Rattle.cml_store.specs.Machine.{is_open};

use crate::fault::Fault;
use crate::filing::Filing;
use cml_journal::Written;
use cml_store::{Stage, Step};
use std::fs::File;
use std::io::{self, ErrorKind};
use std::os::unix::fs::FileExt;

/// A journal's file, and the folder that has its name.
#[derive(Drop)]
pub(crate) struct Disk {
    pub(crate) file: File,
    pub(crate) folder: File,
}

/// How far the steps go.
#[derive(Clone, Copy, Debug, PartialEq, Eq)]
enum Until {
    Stored,
    Synced,
    /// Synced, and the zeros after the text are cut off.
    Closed,
}

impl Disk {
    /// Stores all text. If it fails, what is not stored stays in memory.
    pub(crate) fn store<M: Written>(&self, filing: &mut Filing<M>) -> Result<(), Fault>
        ensures stored { OnOk result (filing.new.store.accepted ≤ filing.new.store.stored) }
        ensures pending { filing.new.pending.items ≡ filing.old.pending.items }
    {
        self.drive(filing, Until::Stored)?;
        let store = &filing.store;
        if store.stage() != Stage::Open || store.stored() < store.accepted() {
            return Err(Fault::Lost);
        }
        filing.forget();
        Ok(())
    }

    /// Stores and syncs all text.
    pub(crate) fn sync<M: Written>(&self, filing: &mut Filing<M>) -> Result<(), Fault>
        ensures stored { OnOk result (filing.new.store.accepted ≤ filing.new.store.stored) }
        ensures synced { OnOk result (filing.new.store.accepted ≤ filing.new.store.synced) }
        ensures pending { filing.new.pending.items ≡ filing.old.pending.items }
    {
        self.drive(filing, Until::Synced)?;
        self.check_synced(filing)
    }

    /// Stores and syncs all text, and cuts off the zeros after it.
    pub(crate) fn close<M: Written>(&self, filing: &mut Filing<M>) -> Result<(), Fault>
        ensures stored { OnOk result (filing.new.store.accepted ≤ filing.new.store.stored) }
        ensures synced { OnOk result (filing.new.store.accepted ≤ filing.new.store.synced) }
        ensures pending { filing.new.pending.items ≡ filing.old.pending.items }
    {
        self.drive(filing, Until::Closed)?;
        self.check_synced(filing)
    }

    /// Adds lines to a text that has all been synced, and syncs them. The file is made only so long that they fit.
    pub(crate) fn add<M: Written>(&self, filing: &mut Filing<M>, lines: &[u8]) -> Result<(), Fault>
        ensures pending { filing.new.pending.items ≡ filing.old.pending.items }
    {
        let to = filing.store.accepted().saturating_add(lines.len() as u64);
        let step = filing.store.begin_growth(to);
        self.do_work(filing, step)?;
        filing.add(lines)?;
        self.sync(filing)
    }

    fn check_synced<M: Written>(&self, filing: &mut Filing<M>) -> Result<(), Fault>
        ensures stored { OnOk result (filing.new.store.accepted ≤ filing.new.store.stored) }
        ensures synced { OnOk result (filing.new.store.accepted ≤ filing.new.store.synced) }
        ensures pending { filing.new.pending.items ≡ filing.old.pending.items }
    {
        let store = &filing.store;
        let is_stored = store.stored() >= store.accepted() && store.synced() >= store.accepted();
        if store.stage() != Stage::Open || !is_stored {
            return Err(Fault::Lost);
        }
        filing.forget();
        Ok(())
    }

    /// Does the steps that the machine asks for, until it asks for none or one fails.
    fn drive<M: Written>(&self, filing: &mut Filing<M>, until: Until) -> Result<(), Fault>
        ensures pending { filing.new.pending.items ≡ filing.old.pending.items }
    {
        for _ in 0..u64::MAX {
            let is_done = match filing.store.begin_store(until == Until::Closed) {
                Step::Nothing if until == Until::Stored => true,
                Step::Nothing => self.do_sync(filing)?,
                step => self.do_work(filing, step)?,
            };
            if is_done {
                break;
            }
        }
        Ok(())
    }

    /// Does a step on the file's bytes, and says that there may be more.
    fn do_work<M: Written>(&self, filing: &mut Filing<M>, step: Step) -> Result<bool, Fault>
        ensures pending { filing.new.pending.items ≡ filing.old.pending.items }
    {
        let told = self.perform(filing, step);
        filing.store.end_store(told.is_ok());
        told?;
        Ok(false)
    }

    /// Syncs, and says whether there was nothing to sync.
    fn do_sync<M: Written>(&self, filing: &mut Filing<M>) -> Result<bool, Fault>
        ensures pending { filing.new.pending.items ≡ filing.old.pending.items }
    {
        let step = filing.store.begin_sync();
        let told = self.perform(filing, step);
        filing.store.end_sync(told.is_ok());
        told?;
        Ok(step == Step::Nothing)
    }

    fn perform<M: Written>(&self, filing: &Filing<M>, step: Step) -> io::Result<()> {
        match step {
            Step::Nothing => Ok(()),
            Step::Cut(to) | Step::Grow(to) => self.file.set_len(to),
            Step::Store(from, to) => match filing.text(from, to) {
                Some(text) => self.file.write_all_at(text, from),
                None => Err(io::Error::from(ErrorKind::InvalidInput)),
            },
            Step::Sync => self.file.sync_data(),
            Step::SyncFolder => self.folder.sync_all(),
        }
    }
}
