//! Numbers of copies.
//!
//! Layer: rows and packets; public. Called by `flights`, `numbers` and `queue`. Clauses of world_journal name it.
use packet_tracer::Flight;

/// A copy with its number: a later one has a greater number.
#[derive(Debug, Drop)]
pub struct NumberedFlight {
    pub number: u64,
    pub flight: Flight,
}

/// Where a copy is found: its number, and the place of its queue.
#[derive(Clone, Copy, Debug)]
pub struct Mark {
    pub number: u64,
    pub place: usize,
}
