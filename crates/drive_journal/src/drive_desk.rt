//! The one lock of a drive.
//!
//! Layer: switches outside; public. Called by `desk_calls` here, and by drive_workers.
ghost use Rattle.std.specs.Prelude.{IfSome};
ghost use Rattle.drive_journal.specs.Drives.{IsOver};

use crate::drive::Drive;
use crate::moment::{is_done, stand_of};
use crate::name::DriveName;
use crate::refused::Rejection;
use crate::steered::DriveState;
use crate::updates::CallerTask;
use outside_net::{Link, Receipt};
use status_board::Post;
use std::alloc::{AllocError, Global};
use std::sync::{Arc, Condvar, Mutex, MutexGuard, Wait};
use std::thread;
use std::time::{Clock, Duration};

/// A drive under its one lock, as its workers share it. Each call locks once and asks the drive; what it answers is
/// stated of the drive's own call of that name. A worker that is told there is nothing to do waits, with the lock given
/// up, until a phase begins. After a second it is to receive for a moment, so that it hears what its switch sends
/// unasked. After a message that nobody asked for it is to receive once more before it waits, so a switch that sends
/// much is heard without a pause.
pub struct DriveDesk<R, L: DriveName, E: Link, Q: Receipt> {
    pub(crate) rt: R,
    pub(crate) alloc: Global,
    pub(crate) drive: Arc<Mutex<Option<Drive<L, E, Q>>>>,
    pub(crate) bell: Arc<Condvar>,
}

impl<R: Drop, L: DriveName, E: Link, Q: Receipt> Drop for DriveDesk<R, L, E, Q> {
    fn drop(self) {
        let DriveDesk {
            rt: _rt,
            alloc: _alloc,
            drive: _drive,
            bell: _bell,
        } = self;
    }
}

// How long a worker with nothing to do waits, in milliseconds.
const REST: u64 = 1000;

// How long the caller waits before it asks for a report again, in milliseconds.
const PAUSE: u64 = 10;

impl<R: Wait + Clock + Drop, L: DriveName, E: Link, Q: Receipt> DriveDesk<R, L, E, Q> {
    /// Locks a drive up.
    pub fn new(
        rt: R,
        alloc: Global,
        drive: Drive<L, E, Q>,
    ) -> Result<DriveDesk<R, L, E, Q>, AllocError> {
        Ok(DriveDesk {
            rt,
            alloc,
            drive: Arc::new(alloc, Mutex::new(Some(drive)))?,
            bell: Arc::new(alloc, Condvar::new())?,
        })
    }

    /// The same lock, for another worker.
    pub fn again(&self) -> Result<DriveDesk<R, L, E, Q>, AllocError>
    where
        R: Clone,
    {
        Ok(DriveDesk {
            rt: self.rt.clone()?,
            alloc: self.alloc,
            drive: Arc::try_clone(&self.drive)?,
            bell: Arc::try_clone(&self.bell)?,
        })
    }

    /// The runtime that its calls wait by.
    pub fn runtime(&self) -> &R {
        &self.rt
    }

    /// The allocator of its calls.
    pub fn alloc(&self) -> Global {
        self.alloc
    }

    /// Where the drive stands now, as it can be posted: none if its journal was taken out.
    pub fn stand(&self) -> Option<Post> {
        stand_of(&self.drive.lock(&self.rt))
    }

    /// Begins the next update, or says what the caller is to do. It waits if there is nothing to do.
    pub fn update(&self) -> Result<CallerTask, AllocError> {
        let mut guard = self.drive.lock(&self.rt);
        let next = match &mut *guard {
            None => Ok(CallerTask::Stop),
            Some(drive) => drive.update(),
        };
        match next {
            Ok(CallerTask::Nothing) => {
                self.rest(guard);
            }
            Ok(CallerTask::Step) => {
                drop(guard);
                self.bell.notify_all();
            }
            _ => {}
        }
        next
    }

    /// Waits a moment for a phase, with the lock given up.
    pub fn pause(&self) {
        self.rest_for(self.drive.lock(&self.rt), PAUSE);
    }

    /// Takes the report of a drain. It comes to nothing if the drive has halted.
    pub fn drained(&self, receipt: Q) -> Result<(), AllocError> {
        let done = match &mut *self.drive.lock(&self.rt) {
            None => Ok(()),
            Some(drive) => match drive.drained(receipt) {
                Err(Rejection::Memory(_)) => Err(AllocError),
                _ => Ok(()),
            },
        };
        self.bell.notify_all();
        done
    }

    /// Makes every worker stop.
    pub fn close_all(&self) {
        match &mut *self.drive.lock(&self.rt) {
            None => {}
            Some(drive) => drive.close(),
        }
        self.bell.notify_all();
    }

    /// Waits until the drive is closed or over, and takes its journal out: none if it was closed.
    pub fn finish(&self) -> Option<DriveState<L, E, Q>>
        ensures { IfSome result (λ h. IsOver h.control) }
    {
        for _ in self.rt.forever() {
            let mut guard = self.drive.lock(&self.rt);
            if is_done(&guard) {
                if let Some(drive) = guard.take() {
                    return if drive.is_closed() {
                        None
                    } else {
                        Some(drive.finish())
                    };
                }
            }
            drop(guard);
            thread::yield_now();
        }
        unreachable!()
    }

    // Waits for a phase with the lock given up, and says whether none began in this time.
    pub(crate) fn rest(&self, guard: MutexGuard<'_, Option<Drive<L, E, Q>>>) -> bool {
        self.rest_for(guard, REST)
    }

    // Waits for a phase, at most `most` milliseconds, and says whether none began in this time.
    fn rest_for(&self, guard: MutexGuard<'_, Option<Drive<L, E, Q>>>, most: u64) -> bool {
        let (guard, rested) = self
            .bell
            .wait_timeout(&self.rt, guard, Duration::from_millis(most));
        drop(guard);
        rested.timed_out()
    }
}
