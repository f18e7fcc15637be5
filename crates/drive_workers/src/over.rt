//! A drive over a net.
//!
//! Layer: switches outside; public. Called by drive_command.
ghost use Rattle.std.specs.Prelude.{◌≡◌, ◌<◌, ◌^◌, length, IfOk, None};
ghost use Rattle.drive_journal.specs.Losses.{HaltsAtLoss};
ghost use Rattle.drive_workers.specs.Driven.{IsDriven};
ghost use Rattle.drive_workers.specs.Faults.{DriveCause};

use crate::closed::run_drive;
use crate::ends::{meet_ends, port_at};
use crate::fault::{DriveError, DriveFault};
use crate::kept::take_back;
use board_readers::Onlooker;
use drive_journal::{Steering, a_lost_session_is_last};
use outside_net::{Net, NetError, NetFault, Reporter, Spawner};
use std::alloc::Global;
use std::sync::Wait;
use std::time::Clock;
use update_coordinator::Coordinator;
use worker_desk::{Gate, Host};

/// Drives outside switches from this start until it is over. Each comes in at the port of its place on this machine,
/// and whoever reports drains at the port after these. It gives the coordinator and the journal that led to it.
pub fn drive_over<
    R: Wait + Clock + Clone + Drop + Send + 'static,
    N: Net,
    T: Spawner,
    G: Gate + Onlooker + Send + Sync + 'static,
    Q: Reporter,
>(
    alloc: Global,
    coordinator: Coordinator,
    first: u16,
    host: &mut Host<R, N, T, G>,
    reporter: &mut Q,
) -> Result<(Coordinator, Vec<Steering>), DriveError>
where
    N::End: 'static,
    Q::Receipt: Send + 'static,
    requires runs { coordinator.halt ≡ None }
    requires losses { HaltsAtLoss coordinator }
    requires switches { length coordinator.peers < 2 ^ 32 }
    ensures driven { IfOk result
        (λ r. IsDriven Q.Receipt.stamped (N.broken host.old.net) (N.broken host.new.net) coordinator r.0 r.1.items) }
    ensures cause { DriveCause (N.faults host.old.net) (N.faults host.new.net) (T.faults host.old.threads)
        (T.faults host.new.threads) (Q.faults reporter.old) (Q.faults reporter.new) result }
{
    a_lost_session_is_last();
    let count = coordinator.switch_count() as u32;
    let Ok(()) = reporter.listen(port_at(first, count)) else {
        return Err(DriveError::Fault(DriveFault::Report));
    };
    let ends = match meet_ends(alloc, &mut host.net, first, count) {
        Ok(ends) => ends,
        Err(NetError::Fault(NetFault::Broken)) => return Err(DriveError::Fault(DriveFault::Net)),
        Err(NetError::Memory) => return Err(DriveError::Memory),
    };
    match run_drive(alloc, coordinator, ends, host, reporter) {
        Ok((coordinator, journal, _reports, kept)) => {
            take_back(&mut host.net, kept);
            Ok((coordinator, journal))
        }
        Err(error) => Err(error),
    }
}
