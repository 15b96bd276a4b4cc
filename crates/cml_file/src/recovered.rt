//! What is recovered of a journal's file.
use crate::disk::Disk;
use crate::fault::{Fault, Unopened};
use crate::filing::Filing;
use crate::finding::{find, read, save};
use crate::judging::{Judged, judge};
use crate::lines::head_of;
use cml_board::{Message, Restored};
use cml_journal::Written;
use cml_log::MessageLog;
use std::alloc::Global;
use std::fs::File;
use std::rt::Files;

/// The journal of the board takes so many entries until they are stored. Their lines are never more than may be unsynced.
const ENTRIES: u64 = 60;

/// A line has at most so many bytes, and more are saved before they are cut off.
const LINE_MOST: usize = 4_194_304;

/// A text has at most so many bytes.
const TEXT_MOST: usize = 1 << 62;

/// What is recovered of a journal's file that was opened, and is locked for this process. `KeptSwitchboard::of` goes on with it.
#[derive(Drop)]
pub struct Recovered<M: Message, L: MessageLog<M>> {
    restored: Restored<M, L>,
    filing: Filing<M>,
    disk: Disk,
    entries: u64,
    cut: usize,
    saved: Option<String>,
}

impl<M: Message + Written, L: MessageLog<M>> Recovered<M, L> {
    /// Opens a journal's file, or makes it. All of it is on disk then, and a torn end is cut off. It is read into memory.
    ///
    /// Errors: `Refused`, `Busy`, or a failure of the system. A file that is refused is not changed by a byte.
    pub fn open<R: Files<File = File>>(
        rt: &R,
        alloc: Global,
        path: &str,
    ) -> Result<Recovered<M, L>, Unopened> {
        let (mut disk, path) = find(rt, alloc, path)?;
        let bytes = read(alloc, &mut disk.file)?;
        let judged = judge(alloc, &bytes, ENTRIES)?;
        let mut saved = None;
        if judged.cut > LINE_MOST {
            let end = judged.kept.saturating_add(judged.cut);
            let rest = bytes.get(judged.kept..end).unwrap_or(&bytes);
            saved = Some(save(rt, alloc, &disk.folder, path.as_str(), rest)?);
        }
        Ok(Recovered::mended(alloc, disk, bytes, judged, saved)?)
    }

    /// Cuts and syncs the file, and begins a piece if its text needs one.
    fn mended(
        alloc: Global,
        disk: Disk,
        bytes: Vec<u8>,
        judged: Judged<M, L>,
        saved: Option<String>,
    ) -> Result<Recovered<M, L>, Fault> {
        let size = bytes.len() as u64;
        let mut text = bytes;
        text.truncate(judged.kept);
        if text.len() > TEXT_MOST {
            return Err(Fault::NoRoom);
        }
        let mut filing = Filing::opened(alloc, text, size);
        disk.sync(&mut filing)?;
        let head = head_of::<M>(alloc, judged.more, judged.entries)?;
        if !head.is_empty() {
            disk.add(&mut filing, head.as_bytes())?;
        }
        Ok(Recovered {
            restored: judged.restored,
            filing,
            disk,
            entries: judged.entries,
            cut: judged.cut,
            saved,
        })
    }

    /// Returns how many entries the journal has.
    pub fn entries(&self) -> u64 {
        self.entries
    }

    /// Returns how many bytes were cut off: a torn line, or more after a loss of power.
    pub fn cut(&self) -> usize {
        self.cut
    }

    /// Returns the path of the file that has what was cut off, if that was more than a line.
    pub fn saved(&self) -> Option<&str> {
        self.saved.as_deref()
    }

    pub(crate) fn into_parts(self) -> (Restored<M, L>, Filing<M>, Disk) {
        let Recovered {
            restored,
            filing,
            disk,
            entries: _,
            cut: _,
            saved: _,
        } = self;
        (restored, filing, disk)
    }
}
