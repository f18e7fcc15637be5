//! Laws of hops, each the contract of a call that does nothing.
//!
//! Layer: rows and packets; public. No crate here calls it.
ghost use Rattle.packet_tracer.specs.Laws.{HopsKeepFutures, HopsPart, WalksAreWays};

/// If the rows of its port answer a copy as the policy does, a hop leaves the copy's futures as they are:
/// they are the histories that the hop finishes, and the futures of the copies that go on.
pub fn hops_keep_futures()
    ensures { HopsKeepFutures }
{}

/// If the rows of its port answer a copy as the policy does, a hop finishes no history twice. Then also no copy that
/// goes on has its history in the past of another's or of a finished one.
pub fn hops_part()
    ensures { HopsPart }
{}

/// The histories of a walk begin with its packet, and all their packets are in range.
pub fn walks_are_ways()
    ensures { WalksAreWays }
{}
