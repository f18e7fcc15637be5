//! The worker of an outside switch, as a job.
//!
//! Layer: switches outside; public. Called by `crew`.
ghost use Rattle.std.specs.Prelude.{◌≡◌, ◌<◌, length, true};
ghost use Rattle.drive_workers.specs.Ends.{IsEndOf};

use drive_journal::{DriveDesk, DriveName, DriveSeat};
use outside_net::{Job, Link, Receipt};
use std::sync::{Arc, Wait};
use std::time::Clock;
use worker_desk::Gate;
use worker_post::{Post, WorkerName};

/// A worker with the place of its switch and its end.
#[derive(Drop)]
pub struct DriveWorker<R: Wait + Clock + Drop, L: DriveName, E: Link, Q: Receipt, G: Gate> {
    desk: DriveDesk<R, L, E, Q>,
    place: usize,
    end: E,
    gate: Arc<G>,
    ghost seated: { place < length L.start.peers },
    ghost met: { IsEndOf E.named E.received place end },
}

impl<R: Wait + Clock + Drop, L: DriveName, E: Link, Q: Receipt, G: Gate> DriveWorker<
    R,
    L,
    E,
    Q,
    G,
> {
    /// The worker of the switch at this place, with its end.
    pub fn new(
        desk: DriveDesk<R, L, E, Q>,
        place: usize,
        end: E,
        gate: Arc<G>,
    ) -> DriveWorker<R, L, E, Q, G>
        requires place { place < length L.start.peers }
        requires end { IsEndOf E.named E.received place end }
    {
        DriveWorker {
            desk,
            place,
            end,
            gate,
        }
    }
}

// Works until it is to stop.
fn run_worker<R: Wait + Clock + Drop, L: DriveName, E: Link, Q: Receipt, G: Gate>(
    post: &Post<'_, DriveDesk<R, L, E, Q>, G>,
    place: usize,
    end: E,
)
    requires place { place < length L.start.peers }
    requires end { IsEndOf E.named E.received place end }
{
    let mut seat = DriveSeat::new(place);
    drop(post.work(post.desk.runtime(), &mut seat, end));
}

impl<
    R: Wait + Clock + Drop + Send + 'static,
    L: DriveName + Send + Sync + 'static,
    E: Link + Send + 'static,
    Q: Receipt + Send + 'static,
    G: Gate + Send + Sync + 'static,
> Job for DriveWorker<R, L, E, Q, G> {
    fn run(self) {
        let DriveWorker {
            desk,
            place,
            end,
            gate,
        } = self;
        let post = Post {
            alloc: desk.alloc(),
            desk: &desk,
            gate: &*gate,
            who: WorkerName {
                worker: place.saturating_add(1),
                session: true,
            },
        };
        run_worker(&post, place, end);
    }
}
