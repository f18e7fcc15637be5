//! What lies under the one lock of a run: the run beside the pen that posts its steps.
//!
//! Layer: runs; public. Called by many modules here, and by fleet_workers.
ghost use Rattle.std.specs.Prelude.{◌≡◌, ◌<◌, [], false, length, IfOk, IfErr};
ghost use Rattle.watch_laws.specs.Watching.{ArePosts, IsPosted};
ghost use Rattle.world_journal.specs.Arriving.{IsOver};
ghost use Rattle.world_journal.specs.Journals.{events_of};
ghost use Rattle.world_journal.specs.Runs.{HasEnded};
ghost use Rattle.world_journal.specs.Watching.{MayPost, StaysOrCloses};

use crate::held::BookedWorld;
use crate::name::RunName;
use crate::poster::Poster;
use crate::run::{Run, RunError};
use crate::seat::Seat;
use outside_net::Link;
use std::marker::Model;

/// A run beside the pen of its board. Each post says where the run stood after as many entries of its journal as it
/// counts, and the newest counts all of them unless the run was closed.
pub struct WatchedRun<L: RunName, P: Poster, E: Link> {
    pub(crate) run: Run<L, E>,
    pub(crate) pen: P,
}

impl<L: RunName, P: Poster, E: Link> Drop for WatchedRun<L, P, E> {
    fn drop(self) {
        let WatchedRun {
            run: _run,
            pen: _pen,
        } = self;
    }
}

impl<L: RunName, P: Poster, E: Link> Model for WatchedRun<L, P, E> {
    ghost use Rattle.std.specs.Prelude.{◌≡◌, false};
    ghost use Rattle.nk_syntax.specs.contracts.pol.Pol as pols;
    ghost use Rattle.std.specs.Coded.{codes};
    ghost use Rattle.watch_laws.specs.Watching.{ArePosts, IsPosted};
    ghost use Rattle.world_journal.specs.Journals.{events_of};
    ghost use Rattle.world_journal.specs.Watching.{WatchedValue};

    ghost Value = { WatchedValue E };

    // a policy holds itself, so its code is named
    ghost coded = { Prim.hlevel (codes, pols.the_row.coded) };

    ghost view = { λ w. record { run = w.run; posts = P.posts w.pen } };

    ghost invariant = { λ w. ArePosts L.start (events_of w.run.held.journal) (P.posts w.pen) ×
        (w.run.closed ≡ false → IsPosted (events_of w.run.held.journal) (P.posts w.pen)) };
}

impl<L: RunName, P: Poster, E: Link> WatchedRun<L, P, E> {
    /// A run that has made no step, beside a pen that has posted nothing.
    pub fn new(run: Run<L, E>, pen: P) -> WatchedRun<L, P, E>
        requires journal { run.held.journal ≡ [] }
        requires pen { P.posts pen ≡ [] }
        ensures run { result.run ≡ run }
        ensures posts { result.posts ≡ [] }
    {
        WatchedRun { run, pen }
    }

    /// What `Run::finish` gives, with the pen, whose newest post then counts all entries.
    pub fn finish(self) -> Result<(BookedWorld<L, E>, Seat<L>, P), RunError>
        requires back { self.run.back ≡ L.all }
        requires all { (L.all ≡ L.parts) × (0 < L.all) }
        requires over { HasEnded L.lines self.run }
        ensures held { IfOk result (λ r. r.0 ≡ self.run.held) }
        ensures parts { IfOk result (λ r. (r.1.worker ≡ 0) × (r.1.share.parts ≡ L.parts)) }
        ensures steps { IfOk result (λ r. r.1.share.amount ≡ length r.0.journal) }
        ensures over { IfOk result (λ r. IsOver L.lines r.0.world) }
        ensures posts { IfOk result (λ r. ArePosts L.start (events_of r.0.journal) (P.posts r.2)) }
        ensures posted { IfOk result (λ r. IsPosted (events_of r.0.journal) (P.posts r.2)) }
        ensures fault { IfErr result (λ f. f ≡ RunError.Memory) }
    {
        let WatchedRun { run, pen } = self;
        let (held, seat) = run.finish()?;
        Ok((held, seat, pen))
    }
}

// Posts where a run stands, if its newest post counts fewer entries. If the post is refused, it closes the run.
pub(crate) fn post_step<L: RunName, P: Poster, E: Link>(run: &mut Run<L, E>, pen: &mut P)
    requires { ArePosts L.start (events_of run.old.held.journal) (P.posts pen.old) }
    ensures stays { StaysOrCloses run.old run.new }
    ensures pen { MayPost run.old (P.posts pen.old) (P.posts pen.new) }
    ensures posts { ArePosts L.start (events_of run.new.held.journal) (P.posts pen.new) }
    ensures posted { run.new.closed ≡ false → IsPosted (events_of run.new.held.journal) (P.posts pen.new) }
    ensures still { IsPosted (events_of run.old.held.journal) (P.posts pen.old) → (run.new ≡ run.old) ×
        (P.posts pen.new ≡ P.posts pen.old) }
{
    let count = run.journal().len() as u64;
    if pen.newest().count >= count {
        return;
    }
    let coordinator = run.world().coordinator();
    let phase = coordinator.phase();
    let halted = coordinator.halt().is_some();
    if pen.post(count, phase, halted).is_err() {
        run.close();
    }
}
