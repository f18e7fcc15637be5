//! The caller's own part of a drive.
//!
//! Layer: switches outside; public. Called by `crew`.
ghost use Rattle.drive_workers.specs.Faults.{AskCause};

use crate::fault::{DriveError, DriveFault};
use board_readers::{BoardName, Pen};
use drive_journal::{CallerTask, DriveDesk, DriveName};
use outside_net::{Link, Receipt, ReportFailure, Reporter};
use std::alloc::AllocError;
use std::sync::Wait;
use std::time::Clock;

/// Begins updates, and takes the reports of drains, until the drive is closed or over. Where the drive stands is posted
/// at each pass. It answers a fault if the reporter failed, or out of memory.
pub fn steer<R: Wait + Clock + Drop, L: DriveName, E: Link, Q: Reporter, J: BoardName>(
    desk: &DriveDesk<R, L, E, Q::Receipt>,
    reporter: &mut Q,
    pen: &mut Pen<J, R>,
) -> Result<(), DriveError>
    ensures { AskCause (Q.faults reporter.old) (Q.faults reporter.new) result }
{
    for _ in desk.runtime().forever() {
        let next = desk.update();
        post_stand(desk, pen);
        match next {
            Ok(CallerTask::Stop) => return Ok(()),
            Ok(CallerTask::Step) | Ok(CallerTask::Nothing) => {}
            Ok(CallerTask::Wait(stamp)) => ask(desk, reporter, stamp)?,
            Err(AllocError) => return Err(DriveError::Memory),
        }
    }
    unreachable!()
}

// Posts where a drive stands, if it has made an event since the newest post. What cannot be posted is not told: a drive
// goes on without its onlookers.
fn post_stand<R: Wait + Clock + Drop, L: DriveName, E: Link, Q: Receipt, J: BoardName>(
    desk: &DriveDesk<R, L, E, Q>,
    pen: &mut Pen<J, R>,
) {
    let Some(stand) = desk.stand() else {
        return;
    };
    if pen.newest().count < stand.count {
        drop(pen.post(stand.count, stand.phase, stand.halted));
    }
}

// Asks for the report of a stamp, and takes it if it came.
fn ask<R: Wait + Clock + Drop, L: DriveName, E: Link, Q: Reporter>(
    desk: &DriveDesk<R, L, E, Q::Receipt>,
    reporter: &mut Q,
    stamp: u16,
) -> Result<(), DriveError>
    ensures cause { AskCause (Q.faults reporter.old) (Q.faults reporter.new) result }
{
    match reporter.wait(stamp) {
        Ok(Some(receipt)) => {
            desk.drained(receipt)?;
            Ok(())
        }
        Ok(None) => {
            desk.pause();
            Ok(())
        }
        Err(ReportFailure) => Err(DriveError::Fault(DriveFault::Report)),
    }
}
