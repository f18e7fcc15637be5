//! What the caller and the workers that bring packets in ask of the run that lies under the lock, with the post of the
//! step that was made. If the run was taken out, nothing happens and whoever asks is to stop.
//!
//! Layer: runs; private. Called by `moves`.
ghost use Rattle.std.specs.Prelude.{◌≡◌, IfOk, OnErr};
ghost use Rattle.world_journal.specs.Asking.{OnRun};
ghost use Rattle.world_journal.specs.Calls.{IsUnmoved};
ghost use Rattle.world_journal.specs.Journals.{switches};
ghost use Rattle.world_journal.specs.Makers.{IsCaller, IsTraffic};
ghost use Rattle.world_journal.specs.Moves.{ComesIn, HopsOn, Rejoins, Updates};
ghost use Rattle.world_journal.specs.Runs.{IsNewPair};
ghost use Rattle.world_journal.specs.declared.moves.StepOutcome.TheVariants as did;
ghost use Rattle.world_journal.specs.declared.updates.Update.TheVariants as update;

use crate::moves::StepOutcome;
use crate::name::RunName;
use crate::poster::Poster;
use crate::seat::Seat;
use crate::updates::{Absence, Update};
use crate::watched::{WatchedRun, post_step};
use outside_net::Link;
use std::alloc::{AllocError, Global};

// What the caller is to do next.
pub(crate) fn update_of<L: RunName, P: Poster, E: Link>(
    run: &mut Option<WatchedRun<L, P, E>>,
    alloc: Global,
    seat: &mut Seat<L>,
) -> Result<Update, AllocError>
    requires { IsCaller seat.old.worker }
    ensures seat { IsUnmoved seat.old.worker seat.new.worker seat.old.share.parts seat.new.share.parts }
    ensures answer { IfOk result
        (λ u. OnRun (λ old new. Updates (switches L.start) seat.old.worker L.lines old new u) (u ≡ update.Stop) run.old
        run.new) }
    ensures memory { OnErr result (run.new ≡ run.old) }
{
    match run {
        None => Ok(Update::Stop),
        Some(there) => {
            let update = there.run.update(alloc, seat)?;
            post_step(&mut there.run, &mut there.pen);
            Ok(update)
        }
    }
}

// Makes a switch return over a new pair.
pub(crate) fn rejoin_of<L: RunName, P: Poster, E: Link>(
    run: &mut Option<WatchedRun<L, P, E>>,
    alloc: Global,
    seat: &mut Seat<L>,
    absence: Absence,
    pair: (E, E),
) -> Result<StepOutcome, AllocError>
    requires caller { IsCaller seat.old.worker }
    requires named { (E.named pair.0 ≡ absence.name) × (E.named pair.1 ≡ absence.name) }
    requires fresh { IsNewPair E.received pair }
    ensures seat { IsUnmoved seat.old.worker seat.new.worker seat.old.share.parts seat.new.share.parts }
    ensures answer { IfOk result
        (λ d. OnRun (λ old new. Rejoins (switches L.start) seat.old.worker absence pair old new d) (d ≡ did.Stop)
        run.old run.new) }
    ensures memory { OnErr result (run.new ≡ run.old) }
{
    match run {
        None => Ok(StepOutcome::Stop),
        Some(there) => {
            let did = there.run.rejoin(alloc, seat, absence, pair)?;
            post_step(&mut there.run, &mut there.pen);
            Ok(did)
        }
    }
}

// Lets the packet at a place of the lines come in.
pub(crate) fn come_in_of<L: RunName, P: Poster, E: Link>(
    run: &mut Option<WatchedRun<L, P, E>>,
    alloc: Global,
    seat: &mut Seat<L>,
    place: usize,
) -> Result<StepOutcome, AllocError>
    requires { IsTraffic (switches L.start) seat.old.worker }
    ensures seat { IsUnmoved seat.old.worker seat.new.worker seat.old.share.parts seat.new.share.parts }
    ensures answer { IfOk result
        (λ d. OnRun (λ old new. ComesIn seat.old.worker L.lines place old new d) (d ≡ did.Stop) run.old run.new) }
    ensures memory { OnErr result (run.new ≡ run.old) }
{
    match run {
        None => Ok(StepOutcome::Stop),
        Some(there) => {
            let did = there.run.come_in(alloc, seat, place)?;
            post_step(&mut there.run, &mut there.pen);
            Ok(did)
        }
    }
}

// Lets a copy take a hop.
pub(crate) fn hop_on_of<L: RunName, P: Poster, E: Link>(
    run: &mut Option<WatchedRun<L, P, E>>,
    alloc: Global,
    seat: &mut Seat<L>,
) -> Result<StepOutcome, AllocError>
    requires { IsTraffic (switches L.start) seat.old.worker }
    ensures seat { IsUnmoved seat.old.worker seat.new.worker seat.old.share.parts seat.new.share.parts }
    ensures answer { IfOk result
        (λ d. OnRun (λ old new. HopsOn seat.old.worker old new d) (d ≡ did.Stop) run.old run.new) }
    ensures memory { OnErr result (run.new ≡ run.old) }
{
    match run {
        None => Ok(StepOutcome::Stop),
        Some(there) => {
            let did = there.run.hop_on(alloc, seat)?;
            post_step(&mut there.run, &mut there.pen);
            Ok(did)
        }
    }
}
