//! A worker's place in a run.
//!
//! Layer: runs; public. Called by many modules here, and by fleet_workers.
ghost use Rattle.std.specs.Prelude.{◌≡◌, ◌<◌, ◌+◌, ◌≤◌};
ghost use Rattle.world_journal.specs.Calls.{IsWorker, place_of, role_of, side_of};
ghost use Rattle.world_journal.specs.Journals.{switches};
ghost use Rattle.world_journal.specs.Makers.{WorksAt};

use crate::name::RunName;
use std::sync::ledger::Share;
use update_coordinator::Side;

/// What a worker does in a run.
#[derive(Clone, Copy, Debug, PartialEq, Eq)]
pub enum Role {
    /// It begins the updates: the caller of the run.
    Caller,
    /// It works at one side of the switch at a place: as its session, or as the switch.
    At(Side, usize),
    /// It brings packets in.
    Traffic,
}

/// A worker's number and role, and its share of the ledger of its run: the amount of the share is the number of steps
/// that the worker made.
#[derive(Drop)]
pub struct Seat<L: RunName> {
    pub(crate) worker: usize,
    pub(crate) role: Role,
    pub(crate) share: Share<L>,
    ghost some: { 0 < share.parts },
    ghost does: { role ≡ role_of (switches L.start) worker },
}

impl<L: RunName> Seat<L> {
    /// The worker's number.
    pub fn worker(&self) -> usize
        ensures { result ≡ self.now.worker }
    {
        self.worker
    }

    /// What the worker does.
    pub fn role(&self) -> Role
        ensures { result ≡ self.now.role }
    {
        self.role
    }

    /// The side and the place of the switch that the worker works at.
    pub(crate) fn at(&self) -> (Side, usize)
        requires { IsWorker (switches L.start) self.now.worker }
        ensures side { result.0 ≡ side_of (switches L.start) self.now.worker }
        ensures place { result.1 ≡ place_of (switches L.start) self.now.worker }
        ensures works { WorksAt (switches L.start) self.now.worker result.0 result.1 }
    {
        match self.role {
            Role::At(side, s) => (side, s),
            Role::Caller => unreachable!(),
            Role::Traffic => unreachable!(),
        }
    }

    /// One of two or more parts, for a worker that has made no step.
    pub fn split_off(&mut self, worker: usize, role: Role) -> Seat<L>
        requires parts { 2 ≤ self.old.share.parts }
        requires does { role ≡ role_of (switches L.start) worker }
        ensures worker { (result.worker ≡ worker) × (result.role ≡ role) }
        ensures parts { result.share.parts ≡ 1 }
        ensures amount { result.share.amount ≡ 0 }
        ensures left { self.new.share.parts + 1 ≡ self.old.share.parts }
        ensures same { (self.new.worker ≡ self.old.worker) × (self.new.share.amount ≡ self.old.share.amount) }
    {
        Seat {
            worker,
            role,
            share: self.share.split_off(1, 0),
        }
    }

    /// Takes the parts and the steps of another seat over.
    pub fn join(&mut self, other: Seat<L>)
        ensures parts { self.new.share.parts ≡ self.old.share.parts + other.share.parts }
        ensures amount { self.new.share.amount ≡ self.old.share.amount + other.share.amount }
        ensures worker { self.new.worker ≡ self.old.worker }
        ensures within { self.new.share.parts ≤ L.parts }
    {
        let Seat {
            worker: _worker,
            role: _role,
            share,
        } = other;
        self.share.merge(share);
    }

    /// A share of the same ledger with no part.
    pub(crate) fn nothing(&mut self) -> Share<L>
        ensures share { (result.parts ≡ 0) × (result.amount ≡ 0) }
        ensures same { (self.new.worker ≡ self.old.worker) × (self.new.share.parts ≡ self.old.share.parts) ×
            (self.new.share.amount ≡ self.old.share.amount) }
    {
        self.share.empty()
    }

    /// Gives its parts and steps up to a share.
    pub(crate) fn lay(self, pile: &mut Share<L>)
        ensures parts { pile.new.parts ≡ pile.old.parts + self.share.parts }
        ensures amount { pile.new.amount ≡ pile.old.amount + self.share.amount }
    {
        let Seat {
            worker: _worker,
            role: _role,
            share,
        } = self;
        pile.merge(share);
    }

    /// The caller's seat, with this share.
    pub(crate) fn whole(share: Share<L>) -> Seat<L>
        requires { 0 < share.parts }
        ensures worker { result.worker ≡ 0 }
        ensures share { result.share ≡ share }
    {
        Seat {
            worker: 0,
            role: Role::Caller,
            share,
        }
    }
}
