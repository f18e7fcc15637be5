//! The numbers of the copies in flight, and the queues that hold them.
//!
//! Layer: rows and packets; private. Adds calls to `Flights`.
ghost use Rattle.std.specs.Prelude.{◌≡◌, ℕ, ◌<◌, ◌^◌, nat_eq, length, IfOk, Some, List};
ghost use Rattle.std.specs.HashMap.{get};
ghost use Rattle.flight_queues.specs.declared.numbered.Mark.{Mark as MarkValue};
ghost use Rattle.flight_queues.specs.Merged.{AreMarked, IsKept, flights_of, merged, queue_at};

use super::Flights;
use crate::numbered::Mark;
use crate::queue::Queue;
use packet_tracer::Flight;
use std::alloc::{AllocError, Global};
use std::collections::{HashMap, VecDeque};

impl Flights {
    ghost use Rattle.std.specs.Prelude.{◌++◌, ◌∷◌, [], take, OnOk, OnErr};
    ghost use Rattle.std.specs.List.{remove};

    // One more.
    pub(super) fn push(&mut self, flight: Flight) -> Result<(), AllocError>
        ensures ok { OnOk result (self.new ≡ self.old ++ flight ∷ []) }
        ensures err { OnErr result (self.new ≡ self.old) }
    {
        self.next = free_number(&mut self.queues, &mut self.marks, self.next);
        let switch = flight.history.newest().sw;
        let place = queue_of(self.alloc, &mut self.places, &mut self.queues, switch)?;
        let after = self.next.checked_add(1).ok_or(AllocError)?;
        self.marks.reserve(1)?;
        self.queues[place].push(self.next, flight)?;
        self.marks.push_back_reserved(Mark {
            number: self.next,
            place,
        });
        self.next = after;
        Ok(())
    }

    // The copy at a place goes.
    pub(super) fn remove(&mut self, place: usize)
        requires { place < length self.old }
        ensures { self.new ≡ remove self.old place }
    {
        if let Some(mark) = self.marks.remove(place) {
            self.queues[mark.place].take(mark.number);
        }
    }

    // The first `count` stay.
    pub(super) fn truncate(&mut self, count: usize)
        ensures { self.new ≡ take count self.old }
    {
        while self.len() > count {
            self.remove(self.len() - 1);
        }
    }
}

// The place of the queue of a switch, which is made where it is not there.
fn queue_of(
    alloc: Global,
    places: &mut HashMap<u64, usize>,
    queues: &mut Vec<Queue>,
    switch: u64,
) -> Result<usize, AllocError>
    ensures kept { (marks : List MarkValue) (next : ℕ) → IsKept (get nat_eq places.old) queues.old.items marks next →
        IsKept (get nat_eq places.new) queues.new.items marks next }
    ensures same { (place : ℕ) → queue_at queues.new.items place ≡ queue_at queues.old.items place }
    ensures found { IfOk result (λ place. get nat_eq places.new switch ≡ Some place) }
{
    if let Some(place) = places.get(&switch) {
        return Ok(*place);
    }
    let place = queues.len();
    queues.reserve(1)?;
    places.insert(switch, place)?;
    queues.push_reserved(Queue::new(alloc));
    Ok(place)
}

// The number of the copy that comes next. The greatest one is given to none: all copies get new numbers first.
fn free_number(queues: &mut Vec<Queue>, marks: &mut VecDeque<Mark>, next: u64) -> u64
    requires { AreMarked queues.old.items marks.old.items next }
    ensures marked { AreMarked queues.new.items marks.new.items result }
    ensures merged { merged queues.new.items marks.new.items ≡ merged queues.old.items marks.old.items }
    ensures flights { (place : ℕ) →
        flights_of (queue_at queues.new.items place) ≡ flights_of (queue_at queues.old.items place) }
    ensures count { length queues.new.items ≡ length queues.old.items }
{
    if next < u64::MAX {
        return next;
    }
    number_anew(queues, marks)
}

// Gives all copies new numbers, from 0 on in order, and answers how many there are.
fn number_anew(queues: &mut Vec<Queue>, marks: &mut VecDeque<Mark>) -> u64
    requires { AreMarked queues.old.items marks.old.items (2 ^ 64) }
    ensures marked { AreMarked queues.new.items marks.new.items result }
    ensures merged { merged queues.new.items marks.new.items ≡ merged queues.old.items marks.old.items }
    ensures flights { (place : ℕ) →
        flights_of (queue_at queues.new.items place) ≡ flights_of (queue_at queues.old.items place) }
    ensures count { length queues.new.items ≡ length queues.old.items }
{
    for place in 0..marks.len() {
        let mark = marks[place];
        let number = place as u64;
        queues[mark.place].renumber(mark.number, number);
        marks[place].number = number;
    }
    marks.len() as u64
}
