//! What the workers that bring packets in ask of a run.
//!
//! Layer: runs; public. Called by `asked_moves`, `moves` and `updates` here, and by fleet_workers.
ghost use Rattle.std.specs.Prelude.{◌≡◌, ℕ, IfOk, IfSome, IfNone, OnErr};
ghost use Rattle.world_core.specs.declared.event.Event.TheVariants as event;
ghost use Rattle.world_core.specs.declared.event.PacketEvent.TheVariants as of_packet;
ghost use Rattle.world_core.specs.Steps.{IsEnabled};
ghost use Rattle.world_journal.specs.Journals.{switches};
ghost use Rattle.world_journal.specs.Makers.{IsTraffic};
ghost use Rattle.world_journal.specs.Moves.{ComesIn, HopsOn};
ghost use Rattle.world_journal.specs.Calls.{IsUnmoved};

use crate::name::RunName;
use crate::run::Run;
use crate::seat::Seat;
use outside_net::Link;
use std::alloc::{AllocError, Global};
use world_core::{Event, PacketEvent, StepError, StepFault, World};

/// What came of a call.
#[derive(Clone, Copy, Debug, PartialEq, Eq)]
pub enum StepOutcome {
    /// A step was made.
    Step,
    /// There is none now.
    Nothing,
    /// There is none any more.
    Stop,
}

impl<L: RunName, E: Link> Run<L, E> {
    /// Lets the packet at a place of the lines come in. There is no more to do at a place after the last one, or
    /// if the run was closed.
    pub fn come_in(
        &mut self,
        alloc: Global,
        seat: &mut Seat<L>,
        place: usize,
    ) -> Result<StepOutcome, AllocError>
        requires { IsTraffic (switches L.start) seat.old.worker }
        ensures seat { IsUnmoved seat.old.worker seat.new.worker seat.old.share.parts seat.new.share.parts }
        ensures answer { IfOk result (ComesIn seat.old.worker L.lines place self.old self.new) }
        ensures memory { OnErr result (self.new ≡ self.old) }
    {
        if self.is_closed() {
            return Ok(StepOutcome::Stop);
        }
        match self.has_arrived(place) {
            None => Ok(StepOutcome::Stop),
            Some(true) => Ok(StepOutcome::Nothing),
            Some(false) => match self.arrive(alloc, seat, place) {
                Ok(()) => Ok(StepOutcome::Step),
                Err(StepError::Fault(StepFault::NotEnabled)) => Ok(StepOutcome::Nothing),
                Err(StepError::Memory) => Err(AllocError),
            },
        }
    }

    /// Lets the first copy that may take another hop take it. There is no more to do if the run was closed.
    pub fn hop_on(&mut self, alloc: Global, seat: &mut Seat<L>) -> Result<StepOutcome, AllocError>
        requires { IsTraffic (switches L.start) seat.old.worker }
        ensures seat { IsUnmoved seat.old.worker seat.new.worker seat.old.share.parts seat.new.share.parts }
        ensures answer { IfOk result (HopsOn seat.old.worker self.old self.new) }
        ensures memory { OnErr result (self.new ≡ self.old) }
    {
        if self.is_closed() {
            return Ok(StepOutcome::Stop);
        }
        let Some(place) = first_hop(self.world()) else {
            return Ok(StepOutcome::Nothing);
        };
        match self.step(alloc, seat, Event::Packet(PacketEvent::Hop(place))) {
            Ok(()) => Ok(StepOutcome::Step),
            Err(StepError::Fault(StepFault::NotEnabled)) => Ok(StepOutcome::Nothing),
            Err(StepError::Memory) => Err(AllocError),
        }
    }
}

// The first copy that may take another hop.
fn first_hop(world: &World) -> Option<usize>
    ensures some { IfSome result (λ place. IsEnabled world.now (event.Packet (of_packet.Hop place))) }
    ensures none { IfNone result ((k : ℕ) → ¬ IsEnabled world.now (event.Packet (of_packet.Hop k))) }
{
    for place in 0..world.flights().len() {
        if world.enabled(&Event::Packet(PacketEvent::Hop(place))) {
            return Some(place);
        }
    }
    None
}
