//! How a run ends.
//!
//! Layer: runs; private. Called by `run`.
ghost use Rattle.std.specs.Prelude.{◌≡◌, ◌↔◌, IfOk, IsTrue, true};
ghost use Rattle.world_journal.specs.Arriving.{AreSpent, IsLast, IsSettled};

use super::{Run, RunError};
use crate::held::BookedWorld;
use crate::name::RunName;
use crate::seat::Seat;
use outside_net::Link;
use update_coordinator::Phase;
use world_core::World;

impl<L: RunName, E: Link> Run<L, E> {
    ghost use Rattle.std.specs.Prelude.{◌<◌, false, true, Err, IfErr, IfOk, length};
    ghost use Rattle.world_journal.specs.Arriving.{HaveAllCome, IsOver};
    ghost use Rattle.world_journal.specs.Runs.{HasEnded};

    /// Whether each packet has come in once.
    pub fn all_came(&self) -> bool
        ensures { IsTrue result ↔ HaveAllCome L.lines self.now.held.world }
    {
        self.left == 0
    }

    /// Whether it is over: the coordinator has halted or the last policy handles all packets, each packet has come in
    /// once, and no copy may take another hop. After a halt packets go on to their end.
    pub fn is_over(&self) -> bool
        ensures { IsTrue result ↔ IsOver L.lines self.now.held.world }
    {
        let world = self.held.world();
        self.all_came() && is_settled(world) && are_spent(world)
    }

    /// Whether it was closed or is over.
    pub fn has_ended(&self) -> bool
        ensures { IsTrue result ↔ HasEnded L.lines self.now }
    {
        self.closed || self.is_over()
    }

    /// Whether all seats were laid back, and the run is closed or over.
    pub fn is_done(&self) -> bool
        ensures { IsTrue result ↔ ((self.now.back ≡ L.all) × HasEnded L.lines self.now) }
    {
        self.back == self.all && self.has_ended()
    }

    /// The journal, and the caller's seat with all parts again; nothing if the run was closed.
    pub fn finish(self) -> Result<(BookedWorld<L, E>, Seat<L>), RunError>
        requires back { self.back ≡ L.all }
        requires all { (L.all ≡ L.parts) × (0 < L.all) }
        requires over { HasEnded L.lines self }
        ensures held { IfOk result (λ r. r.0 ≡ self.held) }
        ensures parts { IfOk result (λ r. (r.1.worker ≡ 0) × (r.1.share.parts ≡ L.parts)) }
        ensures steps { IfOk result (λ r. r.1.share.amount ≡ length r.0.journal) }
        ensures over { IfOk result (λ r. IsOver L.lines r.0.world) }
        ensures not_closed { IfOk result (λ _. self.closed ≡ false) }
        ensures fault { IfErr result (λ f. (f ≡ RunError.Memory) × (self.closed ≡ true)) }
    {
        let Run {
            held,
            lines: _lines,
            arrived: _arrived,
            left: _left,
            closed,
            laid,
            back: _back,
            all: _all,
            to_waits: _to_waits,
            back_waits: _back_waits,
            sessions: _sessions,
            to_told: _to_told,
            back_told: _back_told,
            to_ends: _to_ends,
            back_ends: _back_ends,
        } = self;
        if closed {
            return Err(RunError::Memory);
        }
        let mut held = held;
        let mut seat = Seat::whole(laid);
        held.audit(&mut seat);
        Ok((held, seat))
    }
}

/// Whether the last policy handles all packets, and none before it drains.
pub(crate) fn is_last(world: &World) -> bool
    ensures { IsTrue result ↔ IsLast world.now }
{
    let coordinator = world.coordinator();
    match coordinator.phase() {
        Phase::Idle(policy) => {
            policy == world.version_count() && coordinator.draining().is_empty()
        }
        _ => false,
    }
}

// Whether there is no more to update.
fn is_settled(world: &World) -> bool
    ensures { IsTrue result ↔ IsSettled world.now }
{
    world.coordinator().halt().is_some() || is_last(world)
}

// Whether no copy may take another hop.
fn are_spent(world: &World) -> bool
    ensures { IsTrue result ↔ AreSpent world.now }
{
    let most = world.hops();
    world.flights().iter().all(|flight| flight.hops >= most)
}
