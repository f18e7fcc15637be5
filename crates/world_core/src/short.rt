//! Events in four bytes, as `Events` and `EventIter` hold them: the lowest layer of lists of events.
//!
//! Layer: the world; private. Called by `event_iter` and `events`.
ghost use Rattle.std.specs.Prelude.{◌≡◌, IfSome, Some};
ghost use Rattle.world_core.specs.Events.{event_of};

use crate::event::{ControllerEvent, Event, PacketEvent, SwitchEvent};

/// An event in four bytes: its kind, and the place or the stamp that it names.
#[derive(Clone, Copy)]
pub(crate) enum ShortEvent {
    Begin,
    Send(u16),
    Heard(u16),
    Drained(u16),
    Lost(u16),
    Rejoin(u16),
    Take(u16),
    Apply { pending: u8, place: u16 },
    Reply(u16),
    Hop(u16),
    Stuck(u16),
    /// One that does not fit, and is kept whole.
    Whole,
}

impl ShortEvent {
    ghost use Rattle.world_core.specs.declared.event.Event.TheVariants as event;

    /// This event, if it fits.
    pub(crate) fn of(event: &Event) -> Option<ShortEvent>
        ensures { IfSome result (λ s. event_of s ≡ Some event.now) }
    {
        match event {
            Event::Controller(control) => ShortEvent::of_control(*control),
            Event::Switch(act) => ShortEvent::of_act(*act),
            Event::Packet(PacketEvent::Hop(place)) => Some(ShortEvent::Hop(small(*place)?)),
            Event::Packet(PacketEvent::Stuck(place)) => Some(ShortEvent::Stuck(small(*place)?)),
            Event::Packet(PacketEvent::Arrive(_, _)) | Event::Foreign(_, _, _) => None,
        }
    }

    /// The event, if it is not kept whole.
    pub(crate) fn event(self) -> Option<Event>
        ensures { result ≡ event_of self }
    {
        match self {
            ShortEvent::Begin => Some(Event::Controller(ControllerEvent::Begin)),
            ShortEvent::Send(place) => Some(Event::Controller(ControllerEvent::Send(usize::from(
                place,
            )))),
            ShortEvent::Heard(place) => Some(Event::Controller(ControllerEvent::Heard(usize::from(
                place,
            )))),
            ShortEvent::Drained(stamp) => Some(Event::Controller(ControllerEvent::Drained(stamp))),
            ShortEvent::Lost(place) => Some(Event::Controller(ControllerEvent::Lost(usize::from(
                place,
            )))),
            ShortEvent::Rejoin(place) => Some(Event::Controller(ControllerEvent::Rejoin(usize::from(
                place,
            )))),
            ShortEvent::Take(place) => Some(Event::Switch(SwitchEvent::Take(usize::from(place)))),
            ShortEvent::Apply { pending, place } => Some(Event::Switch(SwitchEvent::Apply(
                usize::from(place),
                usize::from(pending),
            ))),
            ShortEvent::Reply(place) => Some(Event::Switch(SwitchEvent::Reply(usize::from(place)))),
            ShortEvent::Hop(place) => Some(Event::Packet(PacketEvent::Hop(usize::from(place)))),
            ShortEvent::Stuck(place) => Some(Event::Packet(PacketEvent::Stuck(usize::from(place)))),
            ShortEvent::Whole => None,
        }
    }

    // This event of the controller, if it fits.
    fn of_control(control: ControllerEvent) -> Option<ShortEvent>
        ensures { IfSome result (λ s. event_of s ≡ Some (event.Controller control)) }
    {
        match control {
            ControllerEvent::Begin => Some(ShortEvent::Begin),
            ControllerEvent::Send(place) => Some(ShortEvent::Send(small(place)?)),
            ControllerEvent::Heard(place) => Some(ShortEvent::Heard(small(place)?)),
            ControllerEvent::Drained(stamp) => Some(ShortEvent::Drained(stamp)),
            ControllerEvent::Lost(place) => Some(ShortEvent::Lost(small(place)?)),
            ControllerEvent::Rejoin(place) => Some(ShortEvent::Rejoin(small(place)?)),
        }
    }

    // This event of a switch, if it fits.
    fn of_act(act: SwitchEvent) -> Option<ShortEvent>
        ensures { IfSome result (λ s. event_of s ≡ Some (event.Switch act)) }
    {
        match act {
            SwitchEvent::Take(place) => Some(ShortEvent::Take(small(place)?)),
            SwitchEvent::Apply(place, pending) => Some(ShortEvent::Apply {
                pending: u8::try_from(pending).ok()?,
                place: small(place)?,
            }),
            SwitchEvent::Reply(place) => Some(ShortEvent::Reply(small(place)?)),
        }
    }
}

// A place, if it fits.
fn small(place: usize) -> Option<u16>
    ensures { IfSome result (λ k. k ≡ place) }
{
    u16::try_from(place).ok()
}
