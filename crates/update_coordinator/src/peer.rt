//! One switch, as the coordinator sees it.
//!
//! Layer: updates; private. Called by `coordinator`, `peers` and `starting`.
ghost use Rattle.std.specs.Prelude.{IsTrue, ◌↔◌, ◌≡◌, ◌≢◌, ◌+◌, ◌<◌, true, false};
ghost use Rattle.update_coordinator.specs.Controls.{sends_in};
ghost use Rattle.update_coordinator.specs.Hearing.{still_asked};

use openflow_wire::Message;
use session_core::{Move, Session, SessionState};
use std::marker::Model;

mod outgoing;

/// How far one switch is: HELLO, the request for its features, flow mods and a barrier go to it, in this order. A
/// switch that was lost and returned gets the batch of the phase once more, from its front on.
#[derive(Drop)]
pub struct Peer {
    sw: u16,
    session: Session,
    sent: u64,
    asked: bool,
    away: bool,
    losses: usize,
    greets: bool,
    asks: bool,
    sends: bool,
    next: usize,
}

impl Model for Peer {
    ghost use Rattle.update_coordinator.specs.Controls as control;
    ghost use Rattle.update_coordinator.specs.Peers.{IsQuiet, IsGone};

    ghost Value = { control.Peer };

    ghost view = { λ s. record {
      sw = s.sw;
      session = s.session;
      sent = s.sent;
      asked = s.asked;
      away = s.away;
      losses = s.losses;
      greets =
          s.greets;
      asks = s.asks;
      sends = s.sends;
      next = s.next;
    } };

    ghost invariant = { λ s. IsQuiet s.session.state s.asks s.sends × IsGone s.away s.session.state s.greets };
}

impl Peer {
    ghost use Rattle.update_coordinator.specs.Controls.{gone, returned, begun_peer};
    ghost use Rattle.update_coordinator.specs.Hearing.{met, told};
    ghost use Rattle.update_coordinator.specs.Sending.{went};
    ghost use Rattle.update_coordinator.specs.Starts.{new_peer};
    ghost use Rattle.session_core.specs.Sessions.{move_of};
    ghost use Rattle.session_core.specs.declared.session.SessionState.TheVariants as state;

    /// A switch from which nothing was heard and to which nothing was sent.
    pub fn new(sw: u16) -> Peer
        ensures { result ≡ new_peer sw }
    {
        Peer {
            sw,
            session: Session::new(u64::from(sw)),
            sent: 0,
            asked: false,
            away: false,
            losses: 0,
            greets: true,
            asks: false,
            sends: false,
            next: 0,
        }
    }

    /// The switch's number.
    pub fn sw(&self) -> u16
        ensures { result ≡ self.now.sw }
    {
        self.sw
    }

    /// Whether its session is lost.
    pub fn is_away(&self) -> bool
        ensures { result ≡ self.now.away }
    {
        self.away
    }

    /// Whether the switch has greeted in this session.
    pub fn has_greeted(&self) -> bool
        ensures { IsTrue result ↔ (self.now.session.state ≢ state.Fresh) }
    {
        self.session.state() != SessionState::Fresh
    }

    /// How many flow mods of the batch went out in this session.
    pub fn next(&self) -> usize
        ensures { result ≡ self.now.next }
    {
        self.next
    }

    /// Takes the news that a phase begins, which has a batch or none: the batch is sent if the session is up.
    pub fn begin_phase(&mut self, works: bool)
        ensures { self.new ≡ begun_peer works self.old }
    {
        self.sends = sends_in(works, self.session.state());
        self.next = 0;
    }

    /// Takes a message of the switch, of which the barrier of the phase's batch was not heard if `due` says so.
    pub fn heard(&mut self, message: &Message, due: bool) -> Move
        requires { self.old.away ≡ false }
        ensures answer { result ≡ move_of self.old.session message.now }
        ensures met { self.new ≡ met due result (told message.now self.old) }
    {
        self.asked = still_asked(self.asked, message);
        let answer = self.session.take(message);
        match answer {
            Move::Greeted => self.asks = true,
            Move::Up => {
                if due {
                    self.next = 0;
                    self.sends = true;
                }
            }
            Move::Barrier(_) | Move::Echo | Move::Ignored | Move::Failed(_) => {}
        }
        answer
    }

    /// Takes the news that its session is lost: nothing is sent to it until it returns.
    pub fn lose(&mut self)
        requires { self.old.losses < 1000 }
        ensures { self.new ≡ gone self.old }
    {
        self.session.again();
        self.asked = false;
        self.away = true;
        self.losses += 1;
        self.greets = false;
        self.asks = false;
        self.sends = false;
    }

    /// Takes the news that it is there again: it is greeted anew.
    pub fn come_back(&mut self)
        requires { self.old.away ≡ true }
        ensures { self.new ≡ returned self.old }
    {
        self.away = false;
        self.greets = true;
    }
}

// Whether a phase's batch is sent to a switch.
fn sends_in(works: bool, state: SessionState) -> bool
    ensures { result ≡ sends_in works state }
{
    works && matches!(state, SessionState::Up)
}

// Whether a switch still owes its features after a message of it.
fn still_asked(asked: bool, message: &Message) -> bool
    ensures { result ≡ still_asked message.now asked }
{
    match message {
        Message::FeaturesReply { .. } => false,
        _ => asked,
    }
}
