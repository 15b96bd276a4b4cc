//! What is simulated: how many servers and customers, how fast they are, and the seed.
ghost use Rattle.std.specs.Prelude.{IfOk};
ghost use Rattle.cml_queueing.specs.{IsAsked};

use crate::asked::Asked;
use crate::decimal::{MILLION, millionths_in};
use crate::ending::Ending;

/// The mean service time in ticks of simulated time.
pub(crate) const SERVICE: u64 = 4_294_967_296;

/// The longest simulated time that is expected, a quarter of what a clock of 64 bits has.
const LONGEST: u128 = 4_611_686_018_427_387_904;

#[derive(Clone, Copy)]
pub(crate) struct Demand {
    pub(crate) servers: u64,
    pub(crate) customers: u64,
    pub(crate) seed: u64,
    /// The mean time from one arrival to the next, in ticks.
    pub(crate) gap: u64,
}

/// How many customers arrive in a unit of time, and how many one server serves in it, both in millionths.
#[derive(Clone, Copy)]
struct Rates {
    arrivals: u64,
    service: u64,
}

impl Demand {
    /// Fails with `NoLoad` or `NoDecimal` if the load or a rate is missing or no number. Fails with `Overload` if the line would
    /// grow without end, and with `TooLong` if the clock would end before the simulation.
    pub(crate) fn of(asked: &Asked<'_>) -> Result<Demand, Ending>
        ensures { IfOk result (IsAsked asked.now) }
    {
        let rates = rates_of(asked)?;
        if u128::from(rates.arrivals)
            >= u128::from(asked.servers).saturating_mul(u128::from(rates.service))
        {
            return Err(Ending::Overload);
        }
        let gap = rates.gap();
        if u128::from(gap).saturating_mul(u128::from(asked.customers)) > LONGEST {
            return Err(Ending::TooLong);
        }
        Ok(Demand {
            servers: asked.servers,
            customers: asked.customers,
            seed: asked.seed,
            gap,
        })
    }
}

impl Rates {
    /// Returns the mean time from one arrival to the next in ticks, rounded.
    fn gap(self) -> u64 {
        let arrivals = u128::from(self.arrivals);
        let services = u128::from(SERVICE).saturating_mul(u128::from(self.service));
        let gap = services.saturating_add(arrivals / 2).checked_div(arrivals);
        u64::try_from(gap.unwrap_or(0)).unwrap_or(u64::MAX)
    }
}

fn rates_of(asked: &Asked<'_>) -> Result<Rates, Ending> {
    if let Some(load) = asked.load {
        let load = decimal_in("--load", load)?;
        return Ok(Rates {
            arrivals: load.saturating_mul(asked.servers),
            service: MILLION,
        });
    }
    let (Some(arrivals), Some(service)) = (asked.arrivals, asked.service) else {
        return Err(Ending::NoLoad);
    };
    Ok(Rates {
        arrivals: decimal_in("--arrivals", arrivals)?,
        service: decimal_in("--service", service)?,
    })
}

/// Reads the value of an option. Fails with `NoDecimal` if it is no number or 0.
fn decimal_in(option: &'static str, text: &str) -> Result<u64, Ending> {
    match millionths_in(text) {
        Some(millionths) if millionths > 0 => Ok(millionths),
        _ => Err(Ending::NoDecimal(option)),
    }
}
