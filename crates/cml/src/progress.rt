//! How a person at a terminal sees that a long journal is being read.

use std::io::{self, IsTerminal, Read};
use std::time::{Duration, Instant};

/// Who hears how many bytes are read so far.
pub(crate) trait Hearer {
    fn hear(&mut self, bytes: u64);
}

/// A reader that says how much it has read.
#[derive(Drop)]
pub(crate) struct Heard<R: Drop, H: Drop> {
    reader: R,
    hearer: H,
    bytes: u64,
}

impl<R: Read + Drop, H: Hearer + Drop> Heard<R, H> {
    pub(crate) fn new(reader: R, hearer: H) -> Heard<R, H> {
        Heard {
            reader,
            hearer,
            bytes: 0,
        }
    }
}

impl<R: Read + Drop, H: Hearer + Drop> Read for Heard<R, H> {
    ghost remaining = { λ heard. R.remaining heard.reader };

    fn read(&mut self, room: &mut [u8]) -> io::Result<usize> {
        let count = self.reader.read(room)?;
        self.bytes = self.bytes.wrapping_add(count as u64);
        self.hearer.hear(self.bytes);
        Ok(count)
    }
}

/// A person who reads standard error, if that is a terminal. It is written to once a second.
#[derive(Drop)]
pub(crate) struct Person<'a> {
    rt: &'a HostRuntime,
    told: Option<Instant>,
}

impl<'a> Person<'a> {
    pub(crate) fn new(rt: &'a HostRuntime) -> Person<'a> {
        let told = if rt.stderr().is_terminal() {
            Instant::now(rt).ok()
        } else {
            None
        };
        Person { rt, told }
    }

    /// Whether a second has gone by since the person was told, and then counts from now on.
    fn is_due(&mut self) -> bool {
        let (Some(told), Ok(now)) = (self.told, Instant::now(self.rt)) else {
            return false;
        };
        if now.duration_since(told) < Duration::from_secs(1) {
            return false;
        }
        self.told = Some(now);
        true
    }
}

impl Hearer for Person<'_> {
    fn hear(&mut self, bytes: u64) {
        if self.told.is_some() && self.is_due() {
            let megabytes = bytes / 1_000_000;
            let _unheard = eprintln!(self.rt; "cml: {megabytes} MB read");
        }
    }
}
