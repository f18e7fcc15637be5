//! Lists of events, held in little memory. `settle` and `flow` add to them, and so do schedules and drawn runs.
//!
//! Layer: the world; public. Called by `settling` here, and by many crates.
ghost use Rattle.std.specs.Prelude.{◌≡◌, ◌++◌, ◌∷◌, [], ◌<◌, ◌^◌, length, Some, OnOk, OnErr};

use crate::event::Event;
use crate::event_iter::EventIter;
use crate::short::ShortEvent;
use std::alloc::{AllocError, Global};
use std::marker::Model;

/// A list of events. Most take four bytes, and one that does not fit is kept whole. Clauses see the events, and for how
/// many more there is room.
#[derive(Drop)]
pub struct Events {
    short: Vec<ShortEvent>,
    // those that do not fit, in their order
    whole: Vec<Event>,
}

impl Model for Events {
    ghost use Rattle.std.specs.Prelude.{◌≡◌, ◌-◌, length, min, vec_len, vec_capacity};
    ghost use Rattle.world_core.specs.Lists.{EventList};

    ghost Value = { EventList };

    ghost use Rattle.world_core.specs.Events.{unpacked, whole_count};

    ghost view = { λ e. record {
      items = unpacked e.short.items e.whole.items;
      room =
          min (vec_capacity e.short - vec_len e.short) (vec_capacity e.whole - vec_len e.whole);
    } };

    ghost invariant = { λ e. whole_count e.short.items ≡ length e.whole.items };
}

impl Events {
    ghost use Rattle.world_core.specs.declared.event.Event.{Event as EventValue};
    ghost use Rattle.world_core.specs.Events.{event_of, wanted};

    /// None.
    pub fn new(alloc: Global) -> Events
        ensures { result.items ≡ [] }
    {
        Events {
            short: Vec::new(alloc),
            whole: Vec::new(alloc),
        }
    }

    /// How many there are.
    pub fn len(&self) -> usize
        ensures { result ≡ length self.now.items }
    {
        self.short.len()
    }

    /// All of them, in order.
    pub fn iter(&self) -> EventIter<'_>
        ensures { result ≡ self.now.items }
    {
        EventIter::new(&self.short, &self.whole)
    }

    /// Makes room for one more.
    #[inline(always)]
    pub fn reserve(&mut self) -> Result<(), AllocError>
        ensures items { self.new.items ≡ self.old.items }
        ensures ok { OnOk result (0 < self.new.room) }
    {
        self.short.reserve(1)?;
        self.whole.reserve(1)
    }

    /// Puts an event at the end, for which there is room.
    #[inline(always)]
    pub fn push_reserved(&mut self, event: Event)
        requires { 0 < self.old.room }
        ensures items { self.new.items ≡ self.old.items ++ event ∷ [] }
        ensures small { length self.new.items < 2 ^ 63 }
    {
        match ShortEvent::of(&event) {
            Some(short) => self.push_short(short),
            None => self.push_whole(event),
        }
    }

    // Puts an event that fits at the end.
    fn push_short(&mut self, short: ShortEvent)
        requires room { 0 < self.old.room }
        requires fits { wanted (event_of short) ≡ 0 }
        ensures items { (e : EventValue) → event_of short ≡ Some e → self.new.items ≡ self.old.items ++ e ∷ [] }
        ensures small { length self.new.items < 2 ^ 63 }
    {
        self.short.push_reserved(short);
    }

    // Puts an event at the end, and keeps it whole.
    fn push_whole(&mut self, event: Event)
        requires { 0 < self.old.room }
        ensures items { self.new.items ≡ self.old.items ++ event ∷ [] }
        ensures small { length self.new.items < 2 ^ 63 }
    {
        self.short.push_reserved(ShortEvent::Whole);
        self.whole.push_reserved(event);
    }

    /// Puts an event at the end.
    pub fn push(&mut self, event: Event) -> Result<(), AllocError>
        ensures ok { OnOk result (self.new.items ≡ self.old.items ++ event ∷ []) }
        ensures err { OnErr result (self.new.items ≡ self.old.items) }
    {
        self.reserve()?;
        self.push_reserved(event);
        Ok(())
    }
}
