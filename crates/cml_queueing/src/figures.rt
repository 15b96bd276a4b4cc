//! What is measured of a run.
ghost use Rattle.std.specs.Prelude.{◌≡◌, ◌+◌, ◌<◌, ◌^◌};

use crate::decimal::{quotient, write_line};
use crate::demand::SERVICE;
use std::alloc::AllocError;

/// Sums over the customers whose service has begun. Times are in ticks.
#[derive(Clone, Copy)]
pub(crate) struct Figures {
    pub(crate) served: u64,
    pub(crate) waited: u128,
    pub(crate) busy: u128,
    pub(crate) longest: u64,
}

impl Figures {
    pub(crate) const NONE: Figures = Figures {
        served: 0,
        waited: 0,
        busy: 0,
        longest: 0,
    };

    /// Adds a customer who waited so long, and whose service takes so long.
    pub(crate) fn add(&mut self, waited: u64, service: u64)
        ensures waited { self.old.waited + waited < 2 ^ 128 → self.new.waited ≡ self.old.waited + waited }
        ensures busy { self.old.busy + service < 2 ^ 128 → self.new.busy ≡ self.old.busy + service }
    {
        self.waited = self.waited.saturating_add(u128::from(waited));
        self.busy = self.busy.saturating_add(u128::from(service));
    }

    /// Notes how many customers wait.
    pub(crate) fn note_line(&mut self, waiting: u64) {
        self.longest = self.longest.max(waiting);
    }

    /// Adds the lines of a run that took so long, with this many servers and calls.
    pub(crate) fn write(
        &self,
        text: &mut String,
        servers: u64,
        time: u64,
        calls: u64,
    ) -> Result<(), AllocError> {
        let (served, longest) = (self.served, self.longest);
        let services = u128::from(served).saturating_mul(u128::from(SERVICE));
        let capacity = u128::from(servers).saturating_mul(u128::from(time));
        write!(text, "served: {served}\n")?;
        write_line(text, "mean wait", quotient(self.waited, services))?;
        write_line(text, "utilisation", quotient(self.busy, capacity))?;
        write!(text, "largest queue: {longest}\ncalls: {calls}\n")
    }
}
