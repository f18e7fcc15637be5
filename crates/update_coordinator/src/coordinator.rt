//! The coordinator, and the phases that it goes through.
//!
//! Layer: updates; public. Called by many modules here, and by many crates.
ghost use Rattle.std.specs.Prelude.{IfOk, ◌≡◌, length, option_map};

use crate::cause::Cause;
use crate::peer::Peer;
use crate::phase::{Admission, Phase};
use crate::starting::{cursors_of, peers_of, rounds_of, spans_of, stamps_of};
use barrier_tracker::Tracker;
use nk_values::Rows;
use std::alloc::{AllocError, Global};
use std::marker::Model;
use update_plan::{Cursor, Span};

mod beginning;

/// Takes switches from one policy to the next, phase by phase (SIGCOMM 2012, section 5.1). It keeps the rows of all
/// policies, and reads each flow mod off them when it is sent. Clauses see the phase, why it is halted, the rows of
/// each policy, the switches, the replies of the batch, and how many sessions may still be lost without a halt. They
/// see how many stamps there are if drains overlap, and of how many policies all rows are gone again.
pub struct Coordinator {
    pub(crate) phase: Phase,
    pub(crate) halt: Option<Cause>,
    pub(crate) versions: Vec<Rows>,
    // How many rounds each update has.
    pub(crate) rounds: Vec<usize>,
    // The stamp of each policy.
    pub(crate) stamps: Vec<u16>,
    pub(crate) peers: Vec<Peer>,
    // Where the ports of each switch stand in the rows.
    pub(crate) spans: Vec<Span>,
    // Where the batch of each switch is read on.
    pub(crate) cursors: Vec<Cursor>,
    pub(crate) replies: Tracker,
    pub(crate) rejoins: usize,
    pub(crate) overlap: Option<u16>,
    // Of how many policies, from the first on, all rows are gone again.
    pub(crate) swept: usize,
}

impl Drop for Coordinator {
    fn drop(self) {
        let Coordinator {
            phase: _phase,
            halt: _halt,
            versions: _versions,
            rounds: _rounds,
            stamps: _stamps,
            peers: _peers,
            spans: _spans,
            cursors: _cursors,
            replies: _replies,
            rejoins: _rejoins,
            overlap: _overlap,
            swept: _swept,
        } = self;
    }
}

impl Model for Coordinator {
    ghost use Rattle.update_coordinator.specs.Controls.{Control, control_of};
    ghost use Rattle.update_coordinator.specs.Kept.{IsControl, AreNoted};
    ghost use Rattle.update_coordinator.specs.Reading.{AreRead};

    ghost Value = { Control };

    ghost view = { λ c. control_of c.phase c.halt c.versions.items c.peers.items c.replies c.rejoins c.overlap
        c.swept };

    ghost invariant = { λ c. IsControl
        (control_of c.phase c.halt c.versions.items c.peers.items c.replies c.rejoins c.overlap
        c.swept) ×
        AreNoted c.versions.items c.rounds.items c.stamps.items ×
        AreRead (control_of c.phase c.halt c.versions.items c.peers.items c.replies c.rejoins c.overlap
        c.swept) c.spans.items c.cursors.items };
}

impl Coordinator {
    ghost use Rattle.std.specs.List.{AllByRecursion};
    ghost use Rattle.std.specs.Prelude.{◌≤◌};
    ghost use Rattle.policy_rows.specs.Limits.{AreWithinLimits, AreWritable};
    ghost use Rattle.update_coordinator.specs.Phases.{entry};
    ghost use Rattle.update_coordinator.specs.Starts.{initial_control};

    /// A coordinator of the updates to these policies, one after the other, at the switches with these numbers, of
    /// which `rejoins` sessions may be lost without a halt. With `overlap`, the number of stamps that go round, an
    /// update may begin while packets of policies before the current one are on their way.
    pub fn new(
        alloc: Global,
        versions: Vec<Rows>,
        switches: &[u16],
        rejoins: usize,
        overlap: Option<u16>,
    ) -> Result<Coordinator, AllocError>
        requires count { length versions.items ≤ 64 }
        requires limits { AllByRecursion AreWithinLimits versions.items }
        requires writable { AllByRecursion AreWritable versions.items }
        requires rejoins { rejoins ≤ 1000 }
        ensures { IfOk result (λ c. c ≡ initial_control versions.items switches.now rejoins overlap) }
    {
        Ok(Coordinator {
            phase: Phase::Opening,
            halt: None,
            rounds: rounds_of(alloc, &versions)?,
            stamps: stamps_of(alloc, &versions)?,
            spans: spans_of(alloc, &versions, switches)?,
            versions,
            peers: peers_of(alloc, switches)?,
            cursors: cursors_of(alloc, switches.len())?,
            replies: Tracker::new(alloc, switches.len())?,
            rejoins,
            overlap,
            swept: 0,
        })
    }

    /// The rows of the policies, from the first on.
    pub fn versions(&self) -> &[Rows]
        ensures { result.now ≡ self.now.versions }
    {
        &self.versions
    }

    /// How many switches there are.
    pub fn switch_count(&self) -> usize
        ensures { result ≡ length self.now.peers }
    {
        self.peers.len()
    }

    /// Where the updates stand. A halt keeps the phase.
    pub fn phase(&self) -> Phase
        ensures { result ≡ self.now.phase }
    {
        self.phase
    }

    /// Why they are halted, if they are.
    pub fn halt(&self) -> Option<&Cause>
        ensures { option_map (λ c. c.now) result ≡ self.now.halt }
    {
        self.halt.as_ref()
    }

    /// The entry of a packet that comes in now.
    pub fn entry(&self) -> Admission
        ensures { result ≡ entry self.now.phase }
    {
        self.phase.entry()
    }
}
