//! What a worker of a drive asks and tells under the one lock.
//!
//! Layer: switches outside; private. Adds calls to `DriveDesk`.
ghost use Rattle.std.specs.Prelude.{◌<◌, None, length};

use crate::drive_desk::DriveDesk;
use crate::moment::moment_of;
use crate::name::DriveName;
use crate::seat::DriveSeat;
use outside_net::{Link, Receipt};
use std::alloc::AllocError;
use std::sync::Wait;
use std::time::Clock;
use worker_desk::{Desk, IdleTask, TellResult, WorkerTask};

impl<R: Wait + Clock + Drop, L: DriveName, E: Link, Q: Receipt> Desk for DriveDesk<R, L, E, Q> {
    type Seat = DriveSeat;

    type End = E;

    ghost seated = { λ s. s.place < length L.start.peers };

    ghost place = { λ s. s.place };

    ghost place_of = { λ name. name };

    ghost given = { λ s. None };

    ghost told = { λ s. None };

    ghost notices = { λ s. None };

    ghost kept = { λ s. None };

    fn give(&self, seat: &mut DriveSeat) -> Result<WorkerTask<E>, AllocError> {
        let mut guard = self.drive.lock(&self.rt);
        let given = match &mut *guard {
            None => Ok(WorkerTask::Stop),
            Some(drive) => drive.give(self.alloc, seat.place),
        };
        if !is_idle(&given) {
            return given;
        }
        if seat.heard {
            seat.heard = false;
            return Ok(WorkerTask::Expect { made: None });
        }
        if self.rest(guard) {
            return Ok(WorkerTask::Expect { made: None });
        }
        given
    }

    fn tell(&self, seat: &mut DriveSeat, bytes: &[u8], end: E, k: u64) -> TellResult<E> {
        let mut guard = self.drive.lock(&self.rt);
        let before = moment_of(&guard);
        let told = match &mut *guard {
            None => TellResult::Back { end, made: None },
            Some(drive) => {
                seat.heard = !drive.awaits(seat.place);
                drive.tell(self.alloc, seat.place, bytes, end, k)
            }
        };
        let after = moment_of(&guard);
        drop(guard);
        if before != after {
            self.bell.notify_all();
        }
        told
    }

    fn lost(&self, seat: &mut DriveSeat, end: E) -> TellResult<E> {
        let told = match &mut *self.drive.lock(&self.rt) {
            None => TellResult::Back { end, made: None },
            Some(drive) => drive.lost(seat.place, end),
        };
        self.bell.notify_all();
        told
    }

    fn shut(&self, seat: &mut DriveSeat) -> IdleTask<E> {
        let guard = self.drive.lock(&self.rt);
        let shut = match &*guard {
            None => IdleTask::Stop,
            Some(drive) => drive.shut(seat.place),
        };
        if matches!(shut, IdleTask::Nothing) {
            self.rest(guard);
        }
        shut
    }

    fn close(&self, _seat: &mut DriveSeat) {
        self.close_all();
    }
}

// Whether there was nothing to do.
fn is_idle<E>(given: &Result<WorkerTask<E>, AllocError>) -> bool {
    matches!(given, Ok(WorkerTask::Nothing { made: None }))
}
