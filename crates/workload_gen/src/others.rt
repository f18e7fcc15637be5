//! How many events can happen that are at no switch, kept from turn to turn.
//!
//! Layer: the world; private. Called by `drawing`.
ghost use Rattle.std.specs.Prelude.{◌≡◌, IsTrue};
ghost use Rattle.world_core.specs.Steps.{Step};
ghost use Rattle.world_core.specs.Worlds.{WorldValue};
ghost use Rattle.world_core.specs.declared.event.Event.{Event as EventValue};
ghost use Rattle.workload_gen.specs.Counts.{AreOthers, ChangesOneSwitch};
ghost use Rattle.workload_gen.specs.Draws.{left_by};

use crate::counting::{count_hops, count_last};
use document_text::PacketLine;
use world_core::{ControllerEvent, Event, World};

/// How many hops can happen, and how many of these three: the next packet comes in, an update begins, a drain is
/// reported. The first count is at most 2^64 - 1, the second one at most 3.
#[derive(Clone, Copy)]
pub(crate) struct OtherCounts {
    pub(crate) hops: u64,
    pub(crate) last: u64,
}

impl OtherCounts {
    /// Counts them, while these packets are still to come in.
    pub(crate) fn count(world: &World, packets: &[PacketLine]) -> OtherCounts
        ensures { AreOthers world.now packets.now result.hops result.last }
    {
        OtherCounts {
            hops: count_hops(world),
            last: count_last(world, packets),
        }
    }

    /// The counts after an event that has led to this world, and left these packets. A quiet one has changed none.
    pub(crate) fn after(self, quiet: bool, world: &World, packets: &[PacketLine]) -> OtherCounts
        requires { IsTrue quiet → AreOthers world.now packets.now self.hops self.last }
        ensures { AreOthers world.now packets.now result.hops result.last }
    {
        if quiet {
            return self;
        }
        OtherCounts::count(world, packets)
    }
}

/// Whether an event changes only a switch, its channels and what the coordinator has sent to it.
pub(crate) fn is_quiet(event: &Event) -> bool
    ensures { IsTrue result → ChangesOneSwitch event.now }
{
    matches!(
        event,
        Event::Switch(_) | Event::Controller(ControllerEvent::Send(_))
    )
}
