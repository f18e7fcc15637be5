//! What the worker of an outside switch asks of a drive: each answer is decided by the state found.
//!
//! Layer: switches outside; private. Adds calls to `Drive`.
ghost use Rattle.std.specs.Prelude.{◌≡◌, ◌≢◌, ◌<◌, ◌↔◌, None, IfOk, OnErr, IsTrue, length};
ghost use Rattle.worker_desk.specs.Answers.{CanBeWritten, GivesBack, OnNewEnd};
ghost use Rattle.worker_desk.specs.Streams.{TellsWhereKnown};
ghost use Rattle.openflow_wire.specs.Writing.{Fits};
ghost use Rattle.drive_journal.specs.declared.element.Element.TheVariants as elements;
ghost use Rattle.drive_journal.specs.Calls.{DriveGives, GivesEcho, GivesNext, IsAwaited, IsNextElement};
ghost use Rattle.drive_journal.specs.Calls.{RestsAs, HearsAs, RunsOut, DriveTells};
ghost use Rattle.drive_journal.specs.Drives.{echo_at};
ghost use Rattle.drive_journal.specs.Journals.{told_before};

use crate::drive::Drive;
use crate::element::{Element, read_element};
use crate::name::DriveName;
use crate::refused::Rejection;
use crate::steering::Steering;
use openflow_wire::Message;
use outside_net::{Link, Receipt};
use session_core::echo_reply;
use std::alloc::{AllocError, Global};
use worker_desk::{StepKind, TellResult, WorkerTask};

impl<L: DriveName, E: Link, Q: Receipt> Drive<L, E, Q> {
    /// What the worker of the switch at a place is to do next: to stop; to send the answer to what it told last, or
    /// the next message; to receive; or nothing. It receives if the switch owes a reply or did not greet yet.
    /// Out of memory, the next message may be noted as sent.
    pub fn give(&mut self, alloc: Global, place: usize) -> Result<WorkerTask<E>, AllocError>
        requires { place < length L.start.peers }
        ensures fits { IfOk result CanBeWritten }
        ensures answer { IfOk result (DriveGives place self.old self.new) }
        // Its session is the only one.
        ensures same_end { IfOk result (OnNewEnd (λ _. ⊥)) }
        ensures memory { OnErr result (RunsOut place self.old self.new) }
    {
        if self.stops(place) {
            return Ok(WorkerTask::Stop);
        }
        if self.has_echo(place) {
            return Ok(self.give_echo(place));
        }
        self.give_next(alloc, place)
    }

    // The answer that is still to be sent.
    fn give_echo(&mut self, place: usize) -> WorkerTask<E>
        requires place { place < length L.start.peers }
        requires some { echo_at self.old place ≢ None }
        ensures fits { CanBeWritten result }
        ensures answer { GivesEcho place self.old self.new result }
        ensures same_end { OnNewEnd (λ _. ⊥) result }
    {
        match self.take_echo(place) {
            Some(message) => WorkerTask::Out {
                message,
                made: None,
            },
            None => unreachable!(),
        }
    }

    // The next message, or what is to be done if there is none.
    fn give_next(&mut self, alloc: Global, place: usize) -> Result<WorkerTask<E>, AllocError>
        requires { place < length L.start.peers }
        ensures fits { IfOk result CanBeWritten }
        ensures answer { IfOk result (GivesNext place self.old self.new) }
        ensures same_end { IfOk result (OnNewEnd (λ _. ⊥)) }
        ensures memory { OnErr result (RunsOut place self.old self.new) }
    {
        match self.send(alloc, place) {
            Ok(Some(message)) => Ok(WorkerTask::Out {
                message,
                made: Some(StepKind::Send),
            }),
            Ok(None) => Err(AllocError),
            Err(Rejection::Memory(())) => Err(AllocError),
            Err(Rejection::NotEnabled(())) => Ok(self.rest(place)),
        }
    }

    // What is to be done if nothing is to be sent.
    fn rest(&self, place: usize) -> WorkerTask<E>
        requires { place < length L.start.peers }
        ensures answer { RestsAs place self.now result }
        ensures same_end { OnNewEnd (λ _. ⊥) result }
    {
        if self.awaits(place) {
            WorkerTask::Expect { made: None }
        } else {
            WorkerTask::Nothing { made: None }
        }
    }

    // Whether a message of the switch at a place is to come.
    pub(crate) fn awaits(&self, place: usize) -> bool
        requires { place < length L.start.peers }
        ensures { IsTrue result ↔ IsAwaited place self.now }
    {
        self.coordinator().owes(place) || !self.coordinator().has_greeted(place)
    }

    /// Takes the bytes of a message of the switch at a place, which came after k others, or those at which its stream
    /// has a fault. What halts the coordinator has its end kept.
    pub fn tell(
        &mut self,
        alloc: Global,
        place: usize,
        bytes: &[u8],
        end: E,
        k: u64,
    ) -> TellResult<E>
        requires place { place < length L.start.peers }
        requires name { E.named end ≡ place }
        requires stream { TellsWhereKnown (E.received end) k bytes.now }
        ensures answer { DriveTells place bytes.now k end self.old self.new result }
        ensures back { GivesBack end result }
    {
        if self.told(place) as u64 != k {
            return TellResult::Back { end, made: None };
        }
        match read_element(alloc, bytes) {
            Element::Message(message) => self.hear(alloc, place, message, end),
            Element::Fault(fault) => self.garble(place, fault, end),
            Element::Rest => TellResult::Back { end, made: None },
            Element::Memory => TellResult::Memory(end),
        }
    }

    // Hears a message.
    fn hear(&mut self, alloc: Global, place: usize, message: Message, end: E) -> TellResult<E>
        requires place { place < length L.start.peers }
        requires name { E.named end ≡ place }
        requires fits { Fits message }
        requires next { IsNextElement (told_before place self.old.held.journal) (E.received end)
            (elements.Message message) }
        ensures answer { HearsAs place (elements.Message message) end self.old self.new result }
        ensures back { GivesBack end result }
    {
        let Ok(reply) = echo_reply(alloc, &message) else {
            return TellResult::Memory(end);
        };
        match self.cut(Steering::Heard(place, message), end) {
            Ok(None) => TellResult::Kept,
            Ok(Some(end)) => {
                self.note_echo(place, reply);
                TellResult::Back {
                    end,
                    made: Some(StepKind::Heard),
                }
            }
            Err(Rejection::NotEnabled(end)) => TellResult::Back { end, made: None },
            Err(Rejection::Memory(end)) => TellResult::Memory(end),
        }
    }
}
