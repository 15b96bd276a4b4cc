//! The events of a run, in the order of simulated time.
ghost use Rattle.std.specs.Prelude.{◌≡◌, ◌+◌, ◌<◌, ◌^◌, IfOk};
ghost use Rattle.cml_queueing.specs.{ServesInOrder, KeepsDemand};

use crate::demand::Demand;
use crate::ending::Ending;
use crate::exponential::exponential;
use crate::figures::Figures;
use crate::keeper::Keeper;
use crate::station::Station;
use rand::rngs::SmallRng;
use rand_core::SeedableRng;
use std::alloc::Global;
use std::cmp::Reverse;
use std::collections::{BinaryHeap, VecDeque};
use std::marker::Model;

/// A server ends its service at this time.
#[derive(Clone, Copy, Debug, PartialEq, Eq, PartialOrd, Ord)]
struct Departure {
    time: u64,
    server: u64,
}

/// A station with what happens there. Times are in ticks since the beginning.
#[derive(Drop)]
pub(crate) struct Simulation {
    station: Station,
    demand: Demand,
    random: SmallRng,
    time: u64,
    next_arrival: u64,
    to_arrive: u64,
    /// When each customer in the line arrived.
    arrivals: VecDeque<u64>,
    departures: BinaryHeap<Reverse<Departure>>,
    figures: Figures,
}

impl Model for Simulation {
    ghost use Rattle.cml_queueing.specs.Stations.{Course};

    ghost Value = { Course };

    ghost view = { λ simulation. record { customers = simulation.demand.customers; place = simulation.station } };
}

impl Simulation {
    /// Makes a simulation in which all servers are free and the first customer is still to come.
    pub(crate) fn new(alloc: Global, demand: Demand) -> Result<Simulation, Ending>
        ensures customers { IfOk result (λ simulation. simulation.customers ≡ demand.customers) }
        ensures servers { IfOk result (λ simulation. simulation.place.servers ≡ demand.servers) }
    {
        let mut random = SmallRng::seed_from_u64(demand.seed);
        let next_arrival = gap(&mut random, demand.gap);
        Ok(Simulation {
            station: Station::new(alloc, demand.servers)?,
            demand,
            random,
            time: 0,
            next_arrival,
            to_arrive: demand.customers,
            arrivals: VecDeque::new(alloc),
            departures: BinaryHeap::new(alloc),
            figures: Figures::NONE,
        })
    }

    /// Each server says that it is free.
    pub(crate) fn open(&mut self) -> Result<(), Ending>
        ensures { KeepsDemand self.old self.new }
    {
        for server in 0..self.demand.servers {
            self.station.rest(server.saturating_add(1))?;
        }
        Ok(())
    }

    /// Performs the next event. Returns whether there was one.
    pub(crate) fn step(&mut self) -> Result<bool, Ending>
        ensures { KeepsDemand self.old self.new }
    {
        if self.is_arrival_next() {
            self.arrive()?;
            return Ok(true);
        }
        match self.departures.pop() {
            Some(Reverse(departure)) => {
                self.time = departure.time;
                self.go_on(departure.server)?;
                Ok(true)
            }
            None => Ok(false),
        }
    }

    fn is_arrival_next(&self) -> bool {
        match self.departures.peek() {
            _ if self.to_arrive == 0 => false,
            Some(Reverse(departure)) => self.next_arrival < departure.time,
            None => true,
        }
    }

    /// A customer joins the line, and wakes a server if one is free.
    fn arrive(&mut self) -> Result<(), Ending>
        ensures { KeepsDemand self.old self.new }
    {
        self.time = self.next_arrival;
        self.to_arrive = self.to_arrive.saturating_sub(1);
        self.station.join()?;
        self.arrivals.push_back(self.time)?;
        if let Some(server) = self.station.wake()? {
            self.go_on(server)?;
        }
        self.figures.note_line(self.arrivals.len() as u64);
        let gap = gap(&mut self.random, self.demand.gap);
        self.next_arrival = self.time.saturating_add(gap);
        Ok(())
    }

    /// A server takes the next customer, or is free if none waits.
    fn go_on(&mut self, server: u64) -> Result<(), Ending>
        ensures { KeepsDemand self.old self.new }
    {
        match self.station.receive(server)? {
            Some(_customer) => self.serve(server),
            None => self.station.rest(server),
        }
    }

    /// A server begins to serve the customer who has waited longest.
    fn serve(&mut self, server: u64) -> Result<(), Ending>
        ensures { KeepsDemand self.old self.new }
    {
        let arrived = self.arrivals.pop_front().unwrap_or(self.time);
        let service = exponential(&mut self.random);
        let departure = begin(&mut self.figures, self.time, arrived, service, server);
        self.departures.push(Reverse(departure))?;
        Ok(())
    }

    pub(crate) fn station(&self) -> &Station {
        &self.station
    }

    /// Hands the journal's entries to the keeper, and cuts them away.
    pub(crate) fn cut<K: Keeper>(&mut self, keeper: &mut K) -> Result<(), Ending>
        ensures { self.new ≡ self.old }
    {
        self.station.cut(keeper)
    }

    /// Returns the time of the last event.
    pub(crate) fn time(&self) -> u64 {
        self.time
    }

    pub(crate) fn demand(&self) -> &Demand
        ensures { result.now.customers ≡ self.now.customers }
    {
        &self.demand
    }

    /// Returns what was measured so far.
    pub(crate) fn figures(&self) -> Figures
        ensures { ServesInOrder self.now.place result.served }
    {
        Figures {
            served: self.station.served(),
            ..self.figures
        }
    }
}

/// Counts a customer whose service begins at this time and takes so long, and returns the server's departure.
fn begin(figures: &mut Figures, time: u64, arrived: u64, service: u64, server: u64) -> Departure
    ensures server { result.server ≡ server }
    ensures time { time + service < 2 ^ 64 → result.time ≡ time + service }
    ensures busy { figures.old.busy + service < 2 ^ 128 → figures.new.busy ≡ figures.old.busy + service }
{
    figures.add(time.saturating_sub(arrived), service);
    Departure {
        time: time.saturating_add(service),
        server,
    }
}

/// Draws the time from one arrival to the next, whose mean is this many ticks.
fn gap(random: &mut SmallRng, mean: u64) -> u64 {
    let gap = u128::from(exponential(random)).saturating_mul(u128::from(mean)) >> 32;
    u64::try_from(gap).unwrap_or(u64::MAX)
}
