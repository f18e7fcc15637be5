//! The events of a list, one after another. `Events::iter` makes it, and reports read it.
//!
//! Layer: the world; public. Called by `events`.
ghost use Rattle.std.specs.Prelude.{◌≡◌, length};
ghost use Rattle.world_core.specs.Events.{unpacked, whole_count};
ghost use Rattle.world_core.specs.Lists.{listed};

use crate::event::Event;
use crate::short::ShortEvent;
use std::marker::Model;

/// An event of a list: made anew, or lent.
#[derive(Drop)]
pub enum EventRef<'a> {
    /// This event.
    Made(Event),
    /// The one in the list.
    Lent(&'a Event),
}

impl<'a> EventRef<'a> {
    /// The event.
    pub fn event(&self) -> &Event
        ensures { result.now ≡ listed self.now }
    {
        match self {
            EventRef::Made(event) => event,
            EventRef::Lent(event) => event,
        }
    }
}

/// Goes over the events of a list, in order. Clauses see those that are left.
#[derive(Drop)]
pub struct EventIter<'a> {
    short: &'a [ShortEvent],
    whole: &'a [Event],
}

impl<'a> Model for EventIter<'a> {
    ghost use Rattle.std.specs.Prelude.{◌≡◌, List, length};
    ghost use Rattle.world_core.specs.declared.event.Event.{Event as EventValue};

    ghost Value = { List EventValue };

    ghost use Rattle.world_core.specs.Events.{unpacked, whole_count};

    ghost view = { λ e. unpacked e.short.now e.whole.now };

    ghost invariant = { λ e. whole_count e.short.now ≡ length e.whole.now };
}

impl<'a> EventIter<'a> {
    // Goes over these short ones and those that are kept whole.
    pub(crate) fn new(short: &'a [ShortEvent], whole: &'a [Event]) -> EventIter<'a>
        requires { whole_count short.now ≡ length whole.now }
        ensures { result ≡ unpacked short.now whole.now }
    {
        EventIter { short, whole }
    }
}

impl<'a> Iterator for EventIter<'a> {
    ghost use Rattle.std.specs.Iterator.{YieldsFirstBy, item_count};
    ghost use Rattle.world_core.specs.Lists.{listed};

    type Item = EventRef<'a>;

    ghost next_gives = { YieldsFirstBy listed (λ rest. rest) };

    ghost remaining = { item_count (λ rest. rest) };

    fn next(&mut self) -> Option<EventRef<'a>> {
        let (first, rest) = self.short.split_first()?;
        self.short = rest;
        match first.event() {
            Some(event) => Some(EventRef::Made(event)),
            None => {
                let (event, others) = self.whole.split_first()?;
                self.whole = others;
                Some(EventRef::Lent(event))
            }
        }
    }
}
