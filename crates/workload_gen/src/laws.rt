//! Laws of workloads, each the contract of a call that does nothing.
//!
//! Layer: the world; public. Called by `driving`.
ghost use Rattle.workload_gen.specs.Laws.{RunsEnd};

use world_core::{has_room, no_dead_end};

/// Every drawn run of a number's document ends with all updates done: they have not halted, each packet has come in
/// once, and no copy is in flight. Each hop takes a copy one switch nearer to its destination, so none takes the limit.
pub fn runs_end()
    ensures { RunsEnd }
{
    has_room();
    no_dead_end();
}
