//! The board of a run, and who reads it.
//!
//! Layer: runs; public. Called by `closed` here, and by thread_commands.
ghost use Rattle.std.specs.Prelude.{◌≡◌, ◌≢◌, ◌≤◌, [], IfOk, Err};
ghost use Rattle.outside_io.specs.Causes.{Rose};
ghost use Rattle.board_readers.specs.Sights.{AreSeen};

use crate::fleet::start_one;
use board_readers::{Ending, Onlooker, Progress, SightDesk, Watcher, newest_alone};
use outside_net::Spawner;
use status_board::{Board, BoardName, Eye, Note, Pen, Post};
use std::alloc::{AllocError, Global};
use std::sync::{Arc, Wait};
use std::time::Clock;
use world_journal::{RunError, RunFault};

/// What readers of a run's board are to know, and to do.
#[derive(Clone, Copy, Debug, PartialEq, Eq)]
pub struct Lookout {
    /// The number of the last policy.
    pub last: usize,
    /// Whether one reader keeps what it sees.
    pub keeps: bool,
}

// The pen of a board, an eye for each of two readers, and the ending by which they pause.
pub(crate) fn open_board<R: Wait + Clock + Clone + Drop, L: BoardName>(
    rt: &R,
    alloc: Global,
    board: Board,
) -> Result<(Pen<L, R>, Vec<Eye<L>>, Ending<R>), AllocError>
    requires board { board ≡ L.book }
    ensures pen { IfOk result (λ r. r.0 ≡ []) }
{
    let (pen, eyes) = board.named::<L, R>(alloc, rt.clone()?, 2)?;
    let ending = Ending::new(rt.clone()?, alloc)?;
    Ok((pen, eyes, ending))
}

// Starts a reader for an onlooker that wants to be told, and one that keeps what it sees, if one is to: where it lays
// that.
pub(crate) fn start_readers<
    R: Wait + Clock + Clone + Drop + Send + 'static,
    L: BoardName + Send + Sync + 'static,
    G: Onlooker + Drop + Send + Sync + 'static,
    T: Spawner,
>(
    alloc: Global,
    ending: &Ending<R>,
    eyes: Vec<Eye<L>>,
    lookout: Lookout,
    onlooker: &Arc<G>,
    threads: &mut T,
) -> Result<Option<SightDesk<R, L>>, RunError>
    ensures later { T.faults threads.old ≤ T.faults threads.new }
    ensures no_thread { result ≡ Err (RunError.Fault RunFault.NoThread) →
        Rose (T.faults threads.old) (T.faults threads.new) }
    ensures no_net { result ≢ Err (RunError.Fault RunFault.NetFault) }
{
    let mut eyes = eyes;
    if onlooker.looks_on() {
        start_progress(ending, eyes.pop(), lookout.last, onlooker, threads)?;
    }
    if lookout.keeps {
        start_watcher(alloc, ending, eyes.pop(), lookout.last, threads)
    } else {
        Ok(None)
    }
}

// Starts the reader that tells an onlooker. With no eye there is none.
fn start_progress<
    R: Wait + Clock + Clone + Drop + Send + 'static,
    L: BoardName + Send + Sync + 'static,
    G: Onlooker + Drop + Send + Sync + 'static,
    T: Spawner,
>(
    ending: &Ending<R>,
    eye: Option<Eye<L>>,
    last: usize,
    onlooker: &Arc<G>,
    threads: &mut T,
) -> Result<(), RunError>
    ensures later { T.faults threads.old ≤ T.faults threads.new }
    ensures no_thread { result ≡ Err (RunError.Fault RunFault.NoThread) →
        Rose (T.faults threads.old) (T.faults threads.new) }
    ensures no_net { result ≢ Err (RunError.Fault RunFault.NetFault) }
{
    let Some(eye) = eye else {
        return Ok(());
    };
    let ending = ending.again()?;
    let onlooker = Arc::try_clone(onlooker)?;
    start_one(threads, Progress::new(ending, eye, last, onlooker))
}

// Starts the reader that keeps what it sees: where it lays that. With no eye there is none.
fn start_watcher<
    R: Wait + Clock + Clone + Drop + Send + 'static,
    L: BoardName + Send + Sync + 'static,
    T: Spawner,
>(
    alloc: Global,
    ending: &Ending<R>,
    eye: Option<Eye<L>>,
    last: usize,
    threads: &mut T,
) -> Result<Option<SightDesk<R, L>>, RunError>
    ensures later { T.faults threads.old ≤ T.faults threads.new }
    ensures no_thread { result ≡ Err (RunError.Fault RunFault.NoThread) →
        Rose (T.faults threads.old) (T.faults threads.new) }
    ensures no_net { result ≢ Err (RunError.Fault RunFault.NetFault) }
{
    let Some(eye) = eye else {
        return Ok(None);
    };
    let (desk, own) = desks(alloc, ending)?;
    start_one(threads, Watcher::new(own, eye, last))?;
    Ok(Some(desk))
}

// A desk for what is seen, and the same one for the worker.
fn desks<R: Wait + Clock + Clone + Drop, L: BoardName>(
    alloc: Global,
    ending: &Ending<R>,
) -> Result<(SightDesk<R, L>, SightDesk<R, L>), AllocError> {
    let desk = SightDesk::new(alloc, ending.again()?)?;
    let own = desk.again()?;
    Ok((desk, own))
}

// What was seen of a board with these posts, and last the newest of them, which stands alone if nobody kept any.
pub(crate) fn seen_of<R: Wait + Clock + Drop, L: BoardName>(
    alloc: Global,
    desk: Option<SightDesk<R, L>>,
    all: &Note<L>,
) -> Result<Vec<Post>, AllocError>
    ensures { IfOk result (λ posts. AreSeen all.now posts.items) }
{
    match desk {
        Some(desk) => desk.take()?.finish(alloc, all),
        None => newest_alone(alloc, all),
    }
}
