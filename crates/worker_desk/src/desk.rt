//! The five calls of a worker, and their answers.
//!
//! Layer: runs; public. Called by drive_journal, worker_post and world_journal.
ghost use Rattle.std.specs.Prelude.{◌≡◌, ◌<◌, ℕ, List, Option, IfOk, IfSome, [], ◌∷◌};
ghost use Rattle.openflow_wire.specs.declared.message.Message.{Message};
ghost use Rattle.worker_desk.specs.Answers.{grown, gave, CanBeWritten, GivesBack, OnKept, OnNewEnd, OnShutNewEnd};
ghost use Rattle.worker_desk.specs.Notices.{Notice, Lost, NoMemory};
ghost use Rattle.worker_desk.specs.Streams.{TellsWhereKnown};

use crate::gate::StepKind;
use openflow_wire::Message;
use outside_net::Link;
use std::alloc::AllocError;

/// The kind of the step that a call made, if it made one.
pub type MadeStep = Option<StepKind>;

/// What a worker is to do next.
#[derive(Drop)]
pub enum WorkerTask<E> {
    /// To send this message.
    Out { message: Message, made: MadeStep },
    /// To receive: a message is on its way to it.
    Expect { made: MadeStep },
    /// To ask again.
    Nothing { made: MadeStep },
    /// To begin a new session over this end.
    NewEnd(E),
    /// To stop.
    Stop,
}

/// What became of what a worker told, and of its end.
#[derive(Drop)]
pub enum TellResult<E> {
    /// The end comes back.
    Back { end: E, made: MadeStep },
    /// The step that ends the session was made, and the end is kept with it.
    Kept,
    /// Out of memory: no step was made, and the end comes back.
    Memory(E),
}

/// What a worker without an open end is to do.
#[derive(Drop)]
pub enum IdleTask<E> {
    /// To begin a new session over this end.
    NewEnd(E),
    /// To ask again.
    Nothing,
    /// To stop.
    Stop,
}

/// What a session's or a switch's worker asks of its run. A seat stays that of the same worker, and an end that comes
/// back is the one that was handed in. A new end is of a pair of its switch, and nothing was received over it. What a
/// worker was given and told may be known of its seat.
pub trait Desk {
    /// A worker's seat.
    type Seat;

    /// A worker's end of the link between a session and its switch.
    type End: Link;

    /// Whether it is the seat of a session or of a switch of this run.
    ghost seated: { Self.Seat → Type 0 };

    /// The place of its switch, from 0.
    ghost place: { Self.Seat → ℕ };

    /// The place of the switch of a pair with this name. A switch has a pair for each of its sessions.
    ghost place_of: { ℕ → ℕ };

    /// The messages that it was given, if they are known.
    ghost given: { Self.Seat → Option (List Message) };

    /// The bytes that it told, if they are known.
    ghost told: { Self.Seat → Option (List (List ℕ)) };

    /// Which losses of ends it told, and that memory ran out, if this is known.
    ghost notices: { Self.Seat → Option (List Notice) };

    /// Its end that was kept, if it is known.
    ghost kept: { Self.Seat → Option Self.End };

    /// What is to be done next. A message that is given can be written. Out of memory a step may have been made; its
    /// message is given later.
    fn give(&self, seat: &mut Self::Seat) -> Result<WorkerTask<Self::End>, AllocError>
        requires { seated seat.old }
        ensures seat { seated seat.new × (place seat.new ≡ place seat.old) }
        ensures fits { IfOk result CanBeWritten }
        ensures named { IfOk result (OnNewEnd (λ e. place_of (Self.End.named e) ≡ place seat.old)) }
        ensures fresh { IfOk result (OnNewEnd (λ e. IfSome (Self.End.received e) (λ xs. xs ≡ []))) }
        ensures given { given seat.new ≡ grown (given seat.old) (gave result) }
        ensures told { told seat.new ≡ told seat.old }
        ensures notices { notices seat.new ≡ notices seat.old };

    /// Tells the bytes of one message that came over this end, after k that were told before; or, if the stream has a
    /// fault after these, the bytes that are held there.
    fn tell(
        &self,
        seat: &mut Self::Seat,
        bytes: &[u8],
        end: Self::End,
        k: u64,
    ) -> TellResult<Self::End>
        requires seat { seated seat.old }
        requires name { place_of (Self.End.named end) ≡ place seat.old }
        requires stream { TellsWhereKnown (Self.End.received end) k bytes.now }
        ensures seat { seated seat.new × (place seat.new ≡ place seat.old) }
        ensures back { GivesBack end result }
        ensures kept { OnKept result (IfSome (kept seat.new) (λ e. e ≡ end)) }
        ensures given { given seat.new ≡ given seat.old }
        ensures told { told seat.new ≡ grown (told seat.old) (bytes.now ∷ []) }
        ensures notices { notices seat.new ≡ notices seat.old };

    /// Tells that a call on this end failed.
    fn lost(&self, seat: &mut Self::Seat, end: Self::End) -> TellResult<Self::End>
        requires seat { seated seat.old }
        requires name { place_of (Self.End.named end) ≡ place seat.old }
        requires failed { 0 < Self.End.faults end }
        ensures seat { seated seat.new × (place seat.new ≡ place seat.old) }
        ensures back { GivesBack end result }
        ensures kept { OnKept result (IfSome (kept seat.new) (λ e. e ≡ end)) }
        ensures given { given seat.new ≡ given seat.old }
        ensures told { told seat.new ≡ told seat.old }
        ensures notices { notices seat.new ≡ grown (notices seat.old) (Lost (Self.End.named end) ∷ []) };

    /// Asks what to do without an open end: to begin a new session, or to stop. It makes no step.
    fn shut(&self, seat: &mut Self::Seat) -> IdleTask<Self::End>
        requires { seated seat.old }
        ensures seat { seated seat.new × (place seat.new ≡ place seat.old) }
        ensures named { OnShutNewEnd (λ e. place_of (Self.End.named e) ≡ place seat.old) result }
        ensures fresh { OnShutNewEnd (λ e. IfSome (Self.End.received e) (λ xs. xs ≡ [])) result }
        ensures kept { kept seat.new ≡ kept seat.old }
        ensures given { given seat.new ≡ given seat.old }
        ensures told { told seat.new ≡ told seat.old }
        ensures notices { notices seat.new ≡ notices seat.old };

    /// Makes every later `give` a Stop: memory ran out.
    fn close(&self, seat: &mut Self::Seat)
        requires { seated seat.old }
        ensures seat { seated seat.new × (place seat.new ≡ place seat.old) }
        ensures given { given seat.new ≡ given seat.old }
        ensures told { told seat.new ≡ told seat.old }
        ensures notices { notices seat.new ≡ grown (notices seat.old) (NoMemory ∷ []) };
}
