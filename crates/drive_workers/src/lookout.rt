//! The board of a drive, and who reads it.
//!
//! Layer: switches outside; public. Called by `closed` and `crew`.
ghost use Rattle.std.specs.Prelude.{◌≡◌};
ghost use Rattle.drive_workers.specs.Faults.{StartsAs};

use crate::crew::start_one;
use crate::fault::DriveError;
use board_readers::{Board, BoardName, Ending, Eye, Onlooker, Pen, Progress};
use outside_net::Spawner;
use std::alloc::{AllocError, Global};
use std::sync::{Arc, Wait};
use std::time::Clock;

/// A board that is read: what posts on it, and the ending by which its reader pauses.
#[derive(Drop)]
pub struct OpenBoard<P, R> {
    pub pen: P,
    pub ending: Ending<R>,
}

// A board that is open, and an eye of it.
pub(crate) fn open_board<R: Wait + Clock + Clone + Drop, L: BoardName>(
    rt: &R,
    alloc: Global,
    board: Board,
) -> Result<(OpenBoard<Pen<L, R>, R>, Vec<Eye<L>>), AllocError>
    requires board { board ≡ L.book }
{
    let (pen, eyes) = board.named::<L, R>(alloc, rt.clone()?, 1)?;
    let ending = Ending::new(rt.clone()?, alloc)?;
    Ok((OpenBoard { pen, ending }, eyes))
}

// Starts a reader for an onlooker that wants to be told.
pub(crate) fn start_progress<
    R: Wait + Clock + Clone + Drop + Send + 'static,
    L: BoardName + Send + Sync + 'static,
    G: Onlooker + Drop + Send + Sync + 'static,
    T: Spawner,
>(
    ending: &Ending<R>,
    eyes: Vec<Eye<L>>,
    last: usize,
    onlooker: &Arc<G>,
    threads: &mut T,
) -> Result<(), DriveError>
    ensures { StartsAs (T.faults threads.old) (T.faults threads.new) result }
{
    let mut eyes = eyes;
    let Some(eye) = eyes.pop() else {
        return Ok(());
    };
    if !onlooker.looks_on() {
        return Ok(());
    }
    let ending = ending.again()?;
    let onlooker = Arc::try_clone(onlooker)?;
    start_one(threads, Progress::new(ending, eye, last, onlooker))
}
