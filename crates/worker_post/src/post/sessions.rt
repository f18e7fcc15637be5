//! The sessions of a worker, one after the other.
//!
//! Layer: runs; private. Adds calls to `Post`.
ghost use Rattle.std.specs.Prelude.{◌≡◌, [], Option, IfSome};
ghost use Rattle.worker_post.specs.Noting.{IsNotedOf, Notes};
ghost use Rattle.worker_post.specs.Sessions.{HasWorked, IsNew, last_end};
ghost use Rattle.worker_post.specs.Cycles.{OnNew, Serves};
ghost use Rattle.worker_post.specs.Works.{IsEnd};

use super::{CycleEnd, Inbox, Post};
use of_framing::Framer;
use std::sync::Wait;
use worker_desk::{Desk, Gate, IdleTask};

// What came after a session: its end, if it was not kept, and the one of the next session, if there is one.
#[derive(Drop)]
struct SessionEnd<E> {
    end: Option<E>,
    next: Option<E>,
}

impl<'a, D: Desk, G: Gate> Post<'a, D, G> {
    // Waits for a new end, or until it is to stop.
    fn wait_out<R: Wait>(&self, rt: &R, seat: &mut D::Seat) -> Option<D::End>
        requires { D.seated seat.old }
        ensures seat { D.seated seat.new × (D.place seat.new ≡ D.place seat.old) }
        ensures given { (D.given seat.new ≡ D.given seat.old) × (D.told seat.new ≡ D.told seat.old) }
        ensures kept { D.kept seat.new ≡ D.kept seat.old }
        ensures notices { D.notices seat.new ≡ D.notices seat.old }
        ensures anew { IfSome result (IsNew D.place_of D.End.named D.End.received (D.place seat.old)) }
    {
        for _ in rt.forever() {
            match self.desk.shut(seat) {
                IdleTask::Stop => return None,
                IdleTask::NewEnd(end) => return Some(end),
                IdleTask::Nothing => {}
            }
        }
        unreachable!()
    }

    // Works over this end until its session is over.
    fn serve<R: Wait>(&self, rt: &R, seat: &mut D::Seat, end: D::End) -> CycleEnd<D::End>
        requires seat { D.seated seat.old × (D.place_of (D.End.named end) ≡ D.place seat.old) }
        requires fresh { IfSome (D.End.received end) (λ xs. xs ≡ []) }
        ensures seat { D.seated seat.new × (D.place seat.new ≡ D.place seat.old) }
        ensures anew { OnNew (IsNew D.place_of D.End.named D.End.received (D.place seat.old)) result }
        ensures worked { Serves D.End.sent D.End.received (D.kept seat.new) (D.given seat.old) (D.told seat.old)
            (D.End.sent end) (D.End.received end) (D.given seat.new) (D.told seat.new) result }
        ensures noted { Notes (Unit {0}) D.End.faults (D.kept seat.new) (D.End.named end) (D.End.faults end)
            (D.notices seat.old) (D.notices seat.new) result }
    {
        let mut end = end;
        let mut inbox = Inbox {
            framer: Framer::new(self.alloc),
            told: 0,
        };
        for _ in rt.forever() {
            match self.cycle(seat, end, &mut inbox) {
                CycleEnd::Going(e) => end = e,
                CycleEnd::Shut(e) => return CycleEnd::Shut(e),
                CycleEnd::New { old, new } => return CycleEnd::New { old, new },
                CycleEnd::Stop(e) => return CycleEnd::Stop(e),
                CycleEnd::Memory(e) => return CycleEnd::Memory(e),
                CycleEnd::Kept => return CycleEnd::Kept,
            }
        }
        unreachable!()
    }

    // Works over this end, and waits for what comes after its session.
    fn session<R: Wait>(&self, rt: &R, seat: &mut D::Seat, end: D::End) -> SessionEnd<D::End>
        requires seat { D.seated seat.old × (D.place_of (D.End.named end) ≡ D.place seat.old) }
        requires fresh { IfSome (D.End.received end) (λ xs. xs ≡ []) }
        ensures seat { D.seated seat.new × (D.place seat.new ≡ D.place seat.old) }
        ensures worked { IfSome (last_end result.end (D.kept seat.new))
            (λ e. IsEnd (D.given seat.old) (D.told seat.old) (D.End.sent end) (D.End.received end) (D.given seat.new)
            (D.told seat.new) (D.End.sent e) (D.End.received e)) }
        ensures noted { IsNotedOf D.End.faults (last_end result.end (D.kept seat.new)) (D.End.named end)
            (D.End.faults end) (D.notices seat.old) (D.notices seat.new) }
        ensures anew { IfSome result.next (IsNew D.place_of D.End.named D.End.received (D.place seat.old)) }
    {
        match self.serve(rt, seat, end) {
            CycleEnd::Going(e) => SessionEnd {
                end: Some(e),
                next: None,
            },
            CycleEnd::Stop(e) => SessionEnd {
                end: Some(e),
                next: None,
            },
            CycleEnd::Memory(e) => SessionEnd {
                end: Some(e),
                next: None,
            },
            CycleEnd::New { old, new } => SessionEnd {
                end: Some(old),
                next: Some(new),
            },
            CycleEnd::Shut(e) => SessionEnd {
                end: Some(e),
                next: self.wait_out(rt, seat),
            },
            CycleEnd::Kept => SessionEnd {
                end: None,
                next: self.wait_out(rt, seat),
            },
        }
    }

    /// Works until it is to stop, one session after the other, each over an end of its own. An end that was not kept
    /// comes back. Over the end of each session went exactly the encodings of the messages that the desk gave in it, in
    /// order, the last perhaps in part. What was told in it is, in order, a prefix of the stream that this end
    /// received. Of an end that was kept this is so if the desk tells it. That the end failed was told exactly if a
    /// call on it failed, once.
    pub fn work<R: Wait>(&self, rt: &R, seat: &mut D::Seat, end: D::End) -> Option<D::End>
        requires seat { D.seated seat.old × (D.place_of (D.End.named end) ≡ D.place seat.old) }
        requires fresh { IfSome (D.End.received end) (λ xs. xs ≡ []) }
        ensures seat { D.seated seat.new × (D.place seat.new ≡ D.place seat.old) }
        ensures worked { HasWorked D.End.sent D.End.received D.End.named D.End.faults end (D.kept seat.new)
            (D.given seat.old) (D.told seat.old) (D.notices seat.old) (D.given seat.new) (D.told seat.new)
            (D.notices seat.new) result }
    {
        let mut end = end;
        for _ in rt.forever() {
            let SessionEnd { end: last, next } = self.session(rt, seat, end);
            match next {
                None => return last,
                Some(new) => end = new,
            }
        }
        unreachable!()
    }
}
