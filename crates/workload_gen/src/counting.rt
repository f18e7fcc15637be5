//! How many events can happen.
//!
//! Layer: the world; private. Called by `finding`, `others` and `tally`.
ghost use Rattle.std.specs.Prelude.{◌≡◌, ◌↔◌, IsTrue, length, slice_get};
ghost use Rattle.std.specs.Int.{from_bool};
ghost use Rattle.world_core.specs.declared.event.ControllerEvent.TheVariants as of_controller;
ghost use Rattle.world_core.specs.declared.event.Event.TheVariants as event;
ghost use Rattle.world_core.specs.Settling.{hops_from};
ghost use Rattle.world_core.specs.Steps.{IsEnabled};
ghost use Rattle.workload_gen.specs.Counts.{IsCount};
ghost use Rattle.workload_gen.specs.Draws.{arrival, due, pending_at, report, tried_at, tried_last};

use document_text::PacketLine;
use world_core::World;

/// How many events can happen at a switch. The count stops at the greatest number of 64 bits.
pub(crate) fn count_at(world: &World, place: usize) -> u64
    ensures { IsCount world.now (tried_at world.now place) result }
{
    let hears = u64::from(world.may_be_heard(place));
    let replies = u64::from(world.may_reply(place));
    let takes = u64::from(world.may_take(place));
    let sends = u64::from(world.may_send(place));
    pending_at(world, place).saturating_add(hears + replies + takes + sends)
}

/// How many flow mods are pending at a switch.
pub(crate) fn pending_at(world: &World, place: usize) -> u64
    ensures { result ≡ pending_at (slice_get world.now.fleet.wired place) }
{
    if place >= world.switch_count() {
        return 0;
    }
    world.switch(place).pending() as u64
}

/// How many copies in flight may take another hop.
pub(crate) fn count_hops(world: &World) -> u64
    ensures { IsCount world.now (hops_from 0 (length world.now.flights)) result }
{
    let mut count = 0;
    for place in 0..world.flights().len() {
        count += u64::from(world.may_hop(place));
    }
    count
}

/// How many there are of these three: the next packet can come in, an update can begin, a drain can be reported.
pub(crate) fn count_last(world: &World, packets: &[PacketLine]) -> u64
    ensures { IsCount world.now (tried_last packets.now world.now) result }
{
    let arrives = u64::from(arrives(world, packets));
    let begins = u64::from(begins(world));
    let drains = u64::from(drains(world));
    arrives + begins + drains
}

/// Whether the first of these packets can come in.
pub(crate) fn arrives(world: &World, packets: &[PacketLine]) -> bool
    ensures { IsCount world.now (arrival packets.now) (from_bool result) }
{
    match packets.first() {
        Some(line) => world.may_arrive(&line.packet, line.tag),
        None => false,
    }
}

/// Whether an update can begin.
pub(crate) fn begins(world: &World) -> bool
    ensures { IsTrue result ↔ IsEnabled world.now (event.Controller of_controller.Begin) }
{
    world.coordinator().may_begin()
}

/// Whether the report that is waited for can come.
pub(crate) fn drains(world: &World) -> bool
    ensures { IsCount world.now (report (due world.now.fleet.control)) (from_bool result) }
{
    match due(world) {
        Some(stamp) => world.may_be_drained(stamp),
        None => false,
    }
}

/// The stamp of which the report is waited for.
pub(crate) fn due(world: &World) -> Option<u16>
    ensures { result ≡ due world.now.fleet.control }
{
    world.coordinator().leaving()
}
