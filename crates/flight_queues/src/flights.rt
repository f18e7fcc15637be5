//! Copies between switches.
//!
//! Layer: rows and packets; public. Called by `copies` here, and by many crates. Clauses of world_journal name it.
ghost use Rattle.std.specs.Prelude.{◌≡◌, ◌<◌, nat_eq, length, Some, None, List, slice_get};
ghost use Rattle.std.specs.HashMap.{get};
ghost use Rattle.packet_tracer.specs.declared.flight.Flight.{Flight as FlightValue};
ghost use Rattle.flight_queues.specs.Merged.{IsKept, merged};

use crate::copies::Copies;
use crate::numbered::Mark;
use crate::queue::Queue;
use packet_tracer::Flight;
use std::alloc::{AllocError, Global};
use std::collections::{HashMap, VecDeque};
use std::marker::Model;

mod numbers;

/// The copies in flight, in the order in which they were sent: a queue for each switch, merged by the numbers that the
/// copies got when they were sent. Clauses see them as a list.
#[derive(Drop)]
pub struct Flights {
    alloc: Global,
    // which of the queues is that of a switch
    places: HashMap<u64, usize>,
    queues: Vec<Queue>,
    // by rising number, where each copy is
    marks: VecDeque<Mark>,
    // the number of the copy that is sent next, which is greater than all others
    next: u64,
}

impl Model for Flights {
    ghost use Rattle.std.specs.Prelude.{List, nat_eq};
    ghost use Rattle.std.specs.HashMap.{get};
    ghost use Rattle.packet_tracer.specs.declared.flight.Flight.{Flight as FlightValue};

    ghost Value = { List FlightValue };

    ghost use Rattle.flight_queues.specs.Merged.{IsKept, merged};

    ghost view = { λ f. merged f.queues.items f.marks.items };

    ghost invariant = { λ f. IsKept (get nat_eq f.places) f.queues.items f.marks.items f.next };
}

impl Flights {
    ghost use Rattle.std.specs.Prelude.{◌++◌, [], option_map, OnOk, OnErr};
    ghost use Rattle.std.specs.List.{filter, list_any, remove};
    ghost use Rattle.flight_queues.specs.Merged.{carries, queue_copies, stands_at};

    /// None.
    pub fn new(alloc: Global) -> Flights
        ensures { result ≡ [] }
    {
        Flights::starting_at(alloc, 0)
    }

    /// None, and the first one that comes gets this number.
    pub fn starting_at(alloc: Global, next: u64) -> Flights
        ensures { result ≡ [] }
    {
        Flights {
            alloc,
            places: HashMap::new(alloc),
            queues: Vec::new(alloc),
            marks: VecDeque::new(alloc),
            next,
        }
    }

    /// How many there are.
    pub fn len(&self) -> usize
        ensures { result ≡ length self.now }
    {
        self.marks.len()
    }

    /// The copy at a place.
    pub fn get(&self, place: usize) -> Option<&Flight>
        ensures { option_map (λ f. f.now) result ≡ slice_get self.now place }
    {
        let mark = self.marks.get(place)?;
        Some(self.queues[mark.place].flight(mark.number))
    }

    /// All of them, in order.
    pub fn iter(&self) -> Copies<'_>
        ensures flights { result.flights.now ≡ self.now }
        ensures place { result.place ≡ 0 }
    {
        Copies {
            flights: self,
            place: 0,
        }
    }

    /// The queue of a switch, if a copy ever came to it: the copies that came to it and are in flight.
    pub fn queue(&self, switch: u64) -> Option<&Queue>
        ensures { queue_copies (option_map (λ q. q.now) result) ≡ filter (stands_at switch) self.now }
    {
        let place = self.places.get(&switch)?;
        Some(&self.queues[*place])
    }

    /// Whether a copy carries this stamp.
    pub fn carry(&self, stamp: u16) -> bool
        ensures { result ≡ list_any (carries stamp) self.now }
    {
        self.iter().any(|flight| flight.tag.id() == Some(stamp))
    }

    /// The copy at a place goes, and these come after all others.
    pub fn replace(&mut self, place: usize, next: Vec<Flight>) -> Result<(), AllocError>
        requires { place < length self.old }
        ensures ok { OnOk result (self.new ≡ remove self.old place ++ next.items) }
        ensures err { OnErr result (self.new ≡ self.old) }
    {
        self.append(next)?;
        self.remove(place);
        Ok(())
    }

    /// These come after all others.
    pub fn append(&mut self, next: Vec<Flight>) -> Result<(), AllocError>
        ensures ok { OnOk result (self.new ≡ self.old ++ next.items) }
        ensures err { OnErr result (self.new ≡ self.old) }
    {
        let before = self.len();
        for flight in next {
            if let Err(fault) = self.push(flight) {
                self.truncate(before);
                return Err(fault);
            }
        }
        Ok(())
    }
}
