//! A drive that names itself.
//!
//! Layer: switches outside; public. Called by `over`.
ghost use Rattle.std.specs.Prelude.{◌≡◌, vec_len, length, IfOk, None};
ghost use Rattle.drive_journal.specs.Drives.{IsOver};
ghost use Rattle.drive_journal.specs.Journals.{AreWritable, IsSteered};
ghost use Rattle.drive_journal.specs.Losses.{HaltsAtLoss};
ghost use Rattle.drive_workers.specs.Ends.{AreEnds};
ghost use Rattle.drive_workers.specs.Faults.{RunCause};

use crate::crew::drive_fleet;
use crate::fault::DriveError;
use crate::lookout::{open_board, start_progress};
use board_readers::{Board, BoardName, Onlooker};
use drive_journal::{DriveName, DriveState, Steering};
use outside_net::{Net, Reporter, Spawner};
use std::alloc::Global;
use std::marker::Brand;
use std::sync::Wait;
use std::time::Clock;
use update_coordinator::Coordinator;
use worker_desk::{Gate, Host};

/// Drives outside switches from this start until it is over, with a worker for each end. Gives the coordinator, the
/// journal that led to it, the reports that were kept for drains, and the end that was kept if it has halted. The gate
/// is told meanwhile how far the drive is, if it wants to be. The net of the host is not used.
pub fn run_drive<
    R: Wait + Clock + Clone + Drop + Send + 'static,
    N: Net,
    T: Spawner,
    G: Gate + Onlooker + Send + Sync + 'static,
    Q: Reporter,
>(
    alloc: Global,
    coordinator: Coordinator,
    ends: Vec<N::End>,
    host: &mut Host<R, N, T, G>,
    reporter: &mut Q,
) -> Result<(Coordinator, Vec<Steering>, Vec<Q::Receipt>, Vec<N::End>), DriveError>
where
    N::End: 'static,
    Q::Receipt: Send + 'static,
    requires runs { coordinator.halt ≡ None }
    requires losses { HaltsAtLoss coordinator }
    requires count { vec_len ends ≡ length coordinator.peers }
    requires ends { AreEnds N.End.named N.End.received ends.items }
    ensures journal { IfOk result
        (λ r. IsSteered N.End.named N.End.faults N.End.received Q.Receipt.stamped coordinator r.0 r.1.items r.2.items
        r.3.items) }
    ensures writable { IfOk result (λ r. AreWritable r.1.items) }
    ensures over { IfOk result (λ r. IsOver r.0) }
    ensures cause { RunCause (T.faults host.old.threads) (T.faults host.new.threads) (Q.faults reporter.old)
        (Q.faults reporter.new) result }
    ensures net { host.new.net ≡ host.old.net }
{
    let board = Board::new();
    run_named::<Brand, R, N, T, G, Q>(alloc, board, coordinator, ends, host, reporter)
}

fn run_named<
    L: DriveName + BoardName + Send + Sync + 'static,
    R: Wait + Clock + Clone + Drop + Send + 'static,
    N: Net,
    T: Spawner,
    G: Gate + Onlooker + Send + Sync + 'static,
    Q: Reporter,
>(
    alloc: Global,
    board: Board,
    coordinator: Coordinator,
    ends: Vec<N::End>,
    host: &mut Host<R, N, T, G>,
    reporter: &mut Q,
) -> Result<(Coordinator, Vec<Steering>, Vec<Q::Receipt>, Vec<N::End>), DriveError>
where
    N::End: 'static,
    Q::Receipt: Send + 'static,
    requires start { coordinator ≡ L.start }
    requires board { board ≡ L.book }
    requires runs { coordinator.halt ≡ None }
    requires losses { HaltsAtLoss coordinator }
    requires count { vec_len ends ≡ length L.start.peers }
    requires ends { AreEnds N.End.named N.End.received ends.items }
    ensures journal { IfOk result
        (λ r. IsSteered N.End.named N.End.faults N.End.received Q.Receipt.stamped L.start r.0 r.1.items r.2.items
        r.3.items) }
    ensures writable { IfOk result (λ r. AreWritable r.1.items) }
    ensures over { IfOk result (λ r. IsOver r.0) }
    ensures cause { RunCause (T.faults host.old.threads) (T.faults host.new.threads) (Q.faults reporter.old)
        (Q.faults reporter.new) result }
    ensures net { host.new.net ≡ host.old.net }
{
    let last = coordinator.versions().len();
    let held = DriveState::<L, N::End, Q::Receipt>::make(alloc, coordinator)?;
    let (board, eyes) = open_board::<R, L>(&host.rt, alloc, board)?;
    let mut board = board;
    start_progress(&board.ending, eyes, last, &host.gate, &mut host.threads)?;
    match drive_fleet(alloc, held, ends, &mut board, host, reporter) {
        Ok(held) => Ok(held.parts()),
        Err(error) => {
            board.ending.tell();
            host.threads.finish();
            Err(error)
        }
    }
}
