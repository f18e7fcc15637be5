//! The copies in flight, one after another.
//!
//! Layer: rows and packets; public. Called by `flights`.
use crate::flights::Flights;
use packet_tracer::Flight;

/// Goes over the copies in flight, in the order in which they were sent.
#[derive(Drop)]
pub struct Copies<'a> {
    pub(crate) flights: &'a Flights,
    pub(crate) place: usize,
}

impl<'a> Iterator for Copies<'a> {
    ghost use Rattle.std.specs.Prelude.{drop};
    ghost use Rattle.std.specs.Iterator.{YieldsFirstRef, item_count};

    type Item = &'a Flight;

    ghost next_gives = { YieldsFirstRef (λ s. drop s.place s.flights.now) };

    ghost remaining = { item_count (λ s. drop s.place s.flights.now) };

    fn next(&mut self) -> Option<&'a Flight> {
        if self.place >= self.flights.len() {
            return None;
        }
        let flight = self.flights.get(self.place);
        self.place += 1;
        flight
    }
}
