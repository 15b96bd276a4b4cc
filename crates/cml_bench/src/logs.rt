//! A log with eight cursors, without a journal. It takes the same memory however long it is used.
use crate::messages::Numbered;
use crate::roles::Done;
use crate::{Run, Runtime, Timed};
use cml_log::{Key, MessageLog};
use std::io;
use std::io::ErrorKind::OutOfMemory;
use std::time::Instant;

const CURSORS: u64 = 8;

/// A log with its cursors, and a sum over the messages that were read, which their order changes.
#[derive(Drop)]
struct OnLog<L: MessageLog<u64>> {
    log: L,
    keys: Vec<Key>,
    sum: u64,
}

/// N times a push, and then a read by each cursor.
pub fn time<L: MessageLog<u64>, R: Runtime>(run: &Run<R>, subject: &'static str) -> io::Result<()> {
    let (mut log, mut keys) = (L::new(run.alloc)?, Vec::new(run.alloc));
    for _ in 0..CURSORS {
        keys.push(log.open_cursor()?)?;
    }
    let mut on = OnLog { log, keys, sum: 0 };
    let start = Instant::now(run.rt)?;
    on.perform(run.count).ok_or(OutOfMemory)?;
    let time = start.elapsed(run.rt)?;
    let calls = run.count.saturating_mul(1 + CURSORS);
    run.tell(on.sum, &[Timed(subject, time, calls)])
}

impl<L: MessageLog<u64>> OnLog<L> {
    fn perform(&mut self, count: u64) -> Done {
        for message in 0..count {
            if self.log.next() >= u64::MAX - 1 || self.log.push(message).is_err() {
                return None;
            }
            self.read_by_each();
        }
        Some(())
    }

    /// Reads the next message of each cursor that is open and has one to read.
    fn read_by_each(&mut self) {
        for key in &self.keys {
            if self.log.is_open(*key) && self.log.owed(*key) > 0 {
                let message = self.log.peek(*key).copied().unwrap_or(0);
                self.sum = message.added_to(self.sum);
                self.log.advance(*key);
            }
        }
    }
}
