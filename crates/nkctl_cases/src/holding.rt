//! A gate that holds one worker until another has gone on.
//!
//! Layer: tests; private. Called by `calls`, `case` and `holds`.
use controller_program::Onlooker;
use std::sync::{Mutex, Wait};
use std::thread;
use worker_desk::{Gate, Moment, StepKind};

/// How often a worker passed a step of a kind.
#[derive(Clone, Copy, Debug, PartialEq, Eq)]
pub struct Times {
    pub worker: usize,
    pub kind: StepKind,
    pub times: u32,
}

/// Who is held, where, once it has made some steps, and until another has made some.
#[derive(Clone, Copy, Debug, PartialEq, Eq)]
pub struct Hold {
    pub before: StepKind,
    pub after: Times,
    pub until: Times,
}

// What has passed.
#[derive(Clone, Copy, Drop)]
struct Passage {
    own: u32,
    other: u32,
    held: bool,
    late: bool,
}

/// Holds a worker for at most 10,000,000 turns, or nobody.
#[derive(Drop)]
pub struct HoldGate<R> {
    rt: R,
    hold: Option<Hold>,
    seen: Mutex<Passage>,
}

impl<R: Wait> HoldGate<R> {
    /// Nobody was held.
    pub fn new(rt: R, hold: Option<Hold>) -> HoldGate<R> {
        HoldGate {
            rt,
            hold,
            seen: Mutex::new(Passage {
                own: 0,
                other: 0,
                held: false,
                late: false,
            }),
        }
    }

    /// Whether the worker was held, and went on before the last turn.
    pub fn was_in_time(&self) -> bool {
        let seen = self.seen.lock(&self.rt);
        seen.held && !seen.late
    }

    // Whether this is where the worker is to be held, for the first time.
    fn begins(&self, hold: Hold, worker: usize, moment: Moment) -> bool {
        let mut seen = self.seen.lock(&self.rt);
        let here = worker == hold.after.worker && moment == Moment::Before(hold.before);
        if !here || seen.held || seen.own < hold.after.times {
            return false;
        }
        seen.held = true;
        true
    }

    // Counts a step.
    fn count(&self, hold: Hold, worker: usize, moment: Moment) {
        let mut seen = self.seen.lock(&self.rt);
        let Hold { after, until, .. } = hold;
        if worker == after.worker && moment == Moment::After(after.kind) {
            seen.own = seen.own.saturating_add(1);
        }
        if worker == until.worker && moment == Moment::After(until.kind) {
            seen.other = seen.other.saturating_add(1);
        }
    }
}

impl<R: Wait + Drop> Onlooker for HoldGate<R> {}

impl<R: Wait + Drop> Gate for HoldGate<R> {
    fn pass(&self, worker: usize, moment: Moment) {
        let Some(hold) = self.hold else {
            return;
        };
        self.count(hold, worker, moment);
        if !self.begins(hold, worker, moment) {
            return;
        }
        for _ in 0..10_000_000u32 {
            if self.seen.lock(&self.rt).other >= hold.until.times {
                return;
            }
            thread::yield_now();
        }
        self.seen.lock(&self.rt).late = true;
    }

    fn is_open(&self) -> bool {
        self.hold.is_none()
    }
}
