//! What a worker did ahead of its calls, under one lock: its next calls hand it out one by one, and take no lock.
//!
//! Layer: runs; private. Called by `making`, `run_desk` and `steps`.
ghost use Rattle.std.specs.Prelude.{◌≡◌, ◌%◌, [], IfSome};
ghost use Rattle.worker_desk.specs.Answers.{CanBeWritten, OnNewEnd};
ghost use Rattle.world_journal.specs.Ahead.{IsWork};
ghost use Rattle.world_journal.specs.Calls.{place_of};
ghost use Rattle.world_journal.specs.Journals.{switches};

use crate::name::RunName;
use crate::seat::Seat;
use openflow_wire::Message;
use outside_net::Link;
use std::alloc::{AllocError, Global};
use std::cell::Cell;
use std::collections::VecDeque;
use std::marker::Model;
use worker_desk::{MadeStep, WorkerTask};

// What a worker is to do next over its end.
#[derive(Drop)]
enum Work {
    // To send this message.
    Out(Letter),
    // To receive: a message is on its way to it.
    Expect(MadeStep),
    // To ask again.
    Nothing(MadeStep),
}

// A message that can be written, and the kind of the step that made it. Clauses see the message.
struct Letter {
    message: Message,
    made: MadeStep,
}

impl Drop for Letter {
    fn drop(self) {
        let Letter {
            message: _message,
            made: _made,
        } = self;
    }
}

impl Model for Letter {
    ghost use Rattle.openflow_wire.specs.Writing.{Fits};
    ghost use Rattle.openflow_wire.specs.declared.message.Message.{Message as MessageValue};

    ghost Value = { MessageValue };

    ghost view = { λ l. l.message };

    ghost invariant = { λ l. Fits l.message };
}

impl Work {
    // What was given, which is neither a new end nor to stop.
    fn of<E: Link>(given: WorkerTask<E>) -> Work
        requires fits { CanBeWritten given }
        requires work { IsWork given }
    {
        match given {
            WorkerTask::Out { message, made } => Work::Out(Letter { message, made }),
            WorkerTask::Expect { made } => Work::Expect(made),
            WorkerTask::Nothing { made } => Work::Nothing(made),
            WorkerTask::NewEnd(_) => unreachable!(),
            WorkerTask::Stop => unreachable!(),
        }
    }

    // The same as it is given.
    fn give<E: Link>(self) -> WorkerTask<E>
        ensures fits { CanBeWritten result }
        ensures work { IsWork result }
    {
        match self {
            Work::Out(letter) => letter.give(),
            Work::Expect(made) => WorkerTask::Expect { made },
            Work::Nothing(made) => WorkerTask::Nothing { made },
        }
    }
}

impl Letter {
    // The message, to be sent.
    fn give<E: Link>(self) -> WorkerTask<E>
        ensures fits { CanBeWritten result }
        ensures work { IsWork result }
    {
        let Letter { message, made } = self;
        WorkerTask::Out { message, made }
    }
}

/// What a worker did ahead, in order, while more is put at its end.
#[derive(Drop)]
pub(crate) struct WorkQueue {
    works: VecDeque<Work>,
}

impl WorkQueue {
    /// Makes room for one more.
    pub(crate) fn reserve(&mut self) -> Result<(), AllocError> {
        self.works.reserve(1)
    }

    /// Puts what was given at the end. It is lost if there is no room for it.
    pub(crate) fn push<E: Link>(&mut self, given: WorkerTask<E>)
        requires fits { CanBeWritten given }
        requires work { IsWork given }
    {
        let _ = self.works.push_back(Work::of(given));
    }
}

/// What one worker is to do, made ahead of its calls, in order; how many steps it makes so at most; and whether the
/// other side is still to be woken.
#[derive(Drop)]
pub(crate) struct StepsAhead {
    most: u32,
    works: Cell<Option<VecDeque<Work>>>,
    owes: Cell<bool>,
}

impl StepsAhead {
    /// Nothing yet, and at most this number of steps.
    pub(crate) fn new(most: u32) -> StepsAhead {
        StepsAhead {
            most,
            works: Cell::new(None),
            owes: Cell::new(false),
        }
    }

    /// How many steps are made ahead at most.
    pub(crate) fn most(&self) -> u32 {
        self.most
    }

    /// Notes that the other side is to be woken.
    pub(crate) fn owe(&self) {
        self.owes.set(true);
    }

    /// Whether it was to be woken. It is not any more.
    pub(crate) fn take_owed(&self) -> bool {
        self.owes.replace(false)
    }

    /// Takes the next out, if there is one. No new end is among them.
    pub(crate) fn next<L: RunName, E: Link>(&self, seat: &Seat<L>) -> Option<WorkerTask<E>>
        ensures fits { IfSome result CanBeWritten }
        ensures named { IfSome result
            (OnNewEnd (λ e. E.named e % switches L.start ≡ place_of (switches L.start) seat.now.worker)) }
        ensures fresh { IfSome result (OnNewEnd (λ e. IfSome (E.received e) (λ xs. xs ≡ []))) }
    {
        let mut works = self.works.take()?;
        let next = works.pop_front();
        self.works.set(Some(works));
        Some(next?.give())
    }

    /// Takes all of them out, so that more can be put at the end.
    pub(crate) fn queue(&self, alloc: Global) -> WorkQueue {
        WorkQueue {
            works: match self.works.take() {
                Some(works) => works,
                None => VecDeque::new(alloc),
            },
        }
    }

    /// Lays a queue back.
    pub(crate) fn lay(&self, queue: WorkQueue) {
        let WorkQueue { works } = queue;
        self.works.set(Some(works));
    }

    /// Drops all: the session is over.
    pub(crate) fn clear(&self) {
        self.works.set(None);
    }
}
