//! A spawner that refuses some starts.
//!
//! Layer: runs; public. Called by nkctl_cases.
use crate::spawner::{Spawner, StartError, StartFault};
use std::thread::JoinHandle;

/// Another spawner, but for the starts that are to be refused.
#[derive(Drop)]
pub struct RefusingSpawner<T> {
    inner: T,
    starts: u64,
    failing: Vec<u64>,
    faults: u64,
}

impl<T> RefusingSpawner<T> {
    ghost use Rattle.std.specs.Prelude.{◌≡◌};
    ghost use Rattle.outside_net.specs.Threads.{refusing_faults, refusing_inner, refusing_starts, refusing_failing};

    /// A spawner that refuses the starts of these numbers, counted from 1.
    pub fn new(inner: T, failing: Vec<u64>) -> RefusingSpawner<T>
        ensures faults { refusing_faults result ≡ 0 }
        ensures inner { refusing_inner result ≡ inner }
        ensures starts { refusing_starts result ≡ 0 }
        ensures failing { refusing_failing result ≡ failing.items }
    {
        RefusingSpawner {
            inner,
            starts: 0,
            failing,
            faults: 0,
        }
    }
}

impl<T: Spawner> Spawner for RefusingSpawner<T> {
    ghost use Rattle.std.specs.Prelude.{◌≡◌, ◌<◌, ◌≤◌, OnOk};
    ghost use Rattle.outside_io.specs.Causes.{Rose};
    ghost use Rattle.outside_net.specs.Causes.{StartCause};
    ghost use Rattle.outside_net.specs.Told.{next_count};
    ghost use Rattle.outside_net.specs.Threads.{refusing_faults, refusing_inner, refusing_starts, refusing_failing};
    ghost use Rattle.outside_net.specs.Threads.{StartIsToFail};

    type Handle = T::Handle;

    ghost faults = { λ s. s.faults };

    ghost held = { λ s. T.held s.inner };

    ghost room = { λ s. T.room s.inner };

    fn handle(&self) -> &T::Handle {
        self.inner.handle()
    }

    // Refuses the listed starts, and else those that the other spawner refuses.
    fn prepare(&mut self) -> Result<(), StartError>
        ensures cause { StartCause (refusing_faults self.old) (refusing_faults self.new) result }
        ensures room { OnOk result (0 < T.room (refusing_inner self.new)) }
        ensures held { T.held (refusing_inner self.new) ≡ T.held (refusing_inner self.old) }
        ensures refuses { StartIsToFail self.old → (result ≡ Err (StartError.Fault StartFault.NoThread)) ×
            (refusing_inner self.new ≡ refusing_inner self.old) }
        ensures passes { ¬ (StartIsToFail self.old) →
            StartCause (T.faults (refusing_inner self.old)) (T.faults (refusing_inner self.new)) result }
        ensures starts { refusing_starts self.new ≡ next_count (refusing_starts self.old) }
        ensures failing { refusing_failing self.new ≡ refusing_failing self.old }
    {
        self.starts = self.starts.saturating_add(1);
        if self.failing.contains(&self.starts) {
            self.count();
            return Err(StartError::Fault(StartFault::NoThread));
        }
        match self.inner.prepare() {
            Ok(()) => Ok(()),
            Err(StartError::Fault(StartFault::NoThread)) => {
                self.count();
                Err(StartError::Fault(StartFault::NoThread))
            }
            Err(StartError::Memory) => Err(StartError::Memory),
        }
    }

    fn keep(&mut self, running: JoinHandle<()>) {
        self.inner.keep(running)
    }

    fn count(&mut self)
        ensures faults { (refusing_faults self.old ≤ refusing_faults self.new) ×
            Rose (refusing_faults self.old) (refusing_faults self.new) }
        ensures held { T.held (refusing_inner self.new) ≡ T.held (refusing_inner self.old) }
        ensures inner { refusing_inner self.new ≡ refusing_inner self.old }
        ensures starts { refusing_starts self.new ≡ refusing_starts self.old }
        ensures failing { refusing_failing self.new ≡ refusing_failing self.old }
    {
        self.faults = self.faults.saturating_add(1);
    }

    fn finish(&mut self) {
        self.inner.finish();
    }
}
