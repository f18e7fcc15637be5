//! What lies under the one lock of a run.
//!
//! Layer: runs; public. Called by many modules here, and by fleet_workers and thread_commands.
ghost use Rattle.std.specs.Prelude.{◌≡◌, None, slice_get, true};

use crate::entry::Entry;
use crate::held::BookedWorld;
use crate::line::Line;
use crate::name::RunName;
use crate::seat::Seat;
use outside_net::Link;
use std::alloc::AllocError;
use std::marker::Model;
use std::sync::ledger::Share;
use thiserror::Error;
use world_core::{Event, World};

mod ending;
mod making;
mod marks;
mod steps;

pub(crate) use ending::is_last;

/// Why a run gave no journal.
#[derive(Clone, Copy, Debug, PartialEq, Eq, Error)]
pub enum RunFault {
    /// A thread could not be made.
    #[error("a thread could not be made")]
    NoThread,
    /// A pair of ends could not be made.
    #[error("a pair of ends could not be made")]
    NetFault,
}

/// A run has a fault, or memory ran out.
#[derive(Clone, Copy, Debug, PartialEq, Eq, Error)]
pub enum RunError {
    #[error("{0}")]
    Fault(RunFault),
    #[error("out of memory")]
    Memory,
}

impl From<AllocError> for RunError {
    ghost use Rattle.std.specs.Prelude.{◌≡◌};
    ghost use Rattle.world_journal.specs.declared.run.RunError.TheVariants.{Memory};

    ghost from_gives = { λ _ e. e ≡ Memory };

    fn from(_: AllocError) -> Self {
        RunError::Memory
    }
}

/// A journal with its world; which of the packets that `L` names have come in, each once; whether the run was closed;
/// and the seats that were laid back. Of each switch it has the number of its present session, how many messages were
/// told at either side in it, and the new ends that are laid out for its workers.
pub struct Run<L: RunName, E: Link> {
    pub(crate) held: BookedWorld<L, E>,
    lines: Vec<Line>,
    arrived: Vec<bool>,
    left: usize,
    closed: bool,
    laid: Share<L>,
    back: u64,
    all: u64,
    pub(crate) to_waits: Vec<bool>,
    pub(crate) back_waits: Vec<bool>,
    pub(crate) sessions: Vec<u32>,
    pub(crate) to_told: Vec<u64>,
    pub(crate) back_told: Vec<u64>,
    pub(crate) to_ends: Vec<Option<E>>,
    pub(crate) back_ends: Vec<Option<E>>,
}

impl<L: RunName, E: Link> Drop for Run<L, E> {
    fn drop(self) {
        let Run {
            held: _held,
            lines: _lines,
            arrived: _arrived,
            left: _left,
            closed: _closed,
            laid: _laid,
            back: _back,
            all: _all,
            to_waits: _to_waits,
            back_waits: _back_waits,
            sessions: _sessions,
            to_told: _to_told,
            back_told: _back_told,
            to_ends: _to_ends,
            back_ends: _back_ends,
        } = self;
    }
}

impl<L: RunName, E: Link> Model for Run<L, E> {
    ghost use Rattle.std.specs.Prelude.{◌≡◌, length};
    ghost use Rattle.world_journal.specs.Arriving.{HaveArrived, unmarked};
    ghost use Rattle.world_journal.specs.Journals.{switches};
    ghost use Rattle.world_journal.specs.Runs.{HasCounts, HasSessions, RunValue};
    ghost use Rattle.nk_syntax.specs.contracts.pol.Pol as pols;
    ghost use Rattle.std.specs.Coded.{codes};

    ghost Value = { RunValue E };

    // a policy holds itself, so its code is named
    ghost coded = { Prim.hlevel (codes, pols.the_row.coded) };

    ghost view = { λ r. record {
      held = r.held;
      arrived = r.arrived.items;
      closed = r.closed;
      back = r.back;
      to_waits =
          r.to_waits.items;
      back_waits = r.back_waits.items;
      to_ends = r.to_ends.items;
      back_ends = r.back_ends.items;
    } };

    ghost invariant = { λ r. (r.lines.items ≡ L.lines) × HaveArrived L.lines r.arrived.items r.held.world.arrivals ×
        (r.left ≡ unmarked r.arrived.items) × (r.laid.parts ≡ r.back) × (r.all ≡ L.all) ×
        (length r.to_waits.items ≡ switches L.start) × (length r.back_waits.items ≡ switches L.start) ×
        HasSessions (switches L.start) E.named E.received r.held.journal r.sessions.items r.to_ends.items
        r.back_ends.items × HasCounts (switches L.start) r.held.journal r.to_told.items r.back_told.items };
}

impl<L: RunName, E: Link> Run<L, E> {
    ghost use Rattle.std.specs.Prelude.{◌<◌, ◌+◌, true};
    ghost use Rattle.world_core.specs.Steps.{Runs};
    ghost use Rattle.world_journal.specs.Journals.{switches, events_of};

    /// The world.
    pub fn world(&self) -> &World
        ensures { result.now ≡ self.now.held.world }
    {
        self.held.world()
    }

    /// The journal, which led to the world.
    pub fn journal(&self) -> &[Entry]
        ensures journal { result.now ≡ self.now.held.journal }
        ensures history { Runs L.start (events_of self.now.held.journal) self.now.held.world }
    {
        self.held.journal()
    }

    /// How many switches there are.
    pub fn switch_count(&self) -> usize
        ensures here { result ≡ switches self.now.held.world }
        ensures start { result ≡ switches L.start }
    {
        self.held.switch_count()
    }

    /// Makes every worker stop: memory ran out, or a thread or a pair could not be made.
    pub fn close(&mut self)
        ensures { self.new ≡ record self.old { closed = true } }
    {
        self.closed = true;
    }

    /// Whether it was closed.
    pub fn is_closed(&self) -> bool
        ensures { result ≡ self.now.closed }
    {
        self.closed
    }

    /// Takes a worker's seat back.
    pub fn lay(&mut self, seat: Seat<L>)
        requires { seat.share.parts ≡ 1 }
        ensures back { self.old.back < L.all → self.new.back ≡ self.old.back + 1 }
        ensures rest { self.new ≡ record self.old { back = self.new.back } }
    {
        if self.back < self.all {
            seat.lay(&mut self.laid);
            self.back += 1;
        }
    }
}
