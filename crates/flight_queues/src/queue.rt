//! The copies at one switch.
//!
//! Layer: rows and packets; public. Called by `flights` and `numbers`. Clauses of world_journal name it.
ghost use Rattle.std.specs.Prelude.{◌≡◌, ◌∷◌, ◌++◌, [], length, Some, option_map, slice_get, OnOk, OnErr};
ghost use Rattle.nk_values.specs.Members.{IsIn};
ghost use Rattle.flight_queues.specs.Merged.{AreRising, HasNumber, found, numbers_of, renumbered, without};

use crate::numbered::NumberedFlight;
use packet_tracer::Flight;
use std::alloc::{AllocError, Global};
use std::collections::VecDeque;
use std::marker::Model;

/// Copies at one switch, by rising number. Clauses see them as a list.
#[derive(Drop)]
pub struct Queue {
    copies: VecDeque<NumberedFlight>,
}

impl Model for Queue {
    ghost use Rattle.std.specs.Prelude.{List};
    ghost use Rattle.flight_queues.specs.declared.numbered.NumberedFlight.{NumberedFlight as NumberedValue};

    ghost Value = { List NumberedValue };

    ghost view = { λ q. q.copies.items };
}

impl Queue {
    /// None.
    pub(crate) fn new(alloc: Global) -> Queue
        ensures { result ≡ [] }
    {
        Queue {
            copies: VecDeque::new(alloc),
        }
    }

    /// How many there are.
    pub fn len(&self) -> usize
        ensures { result ≡ length self.now }
    {
        self.copies.len()
    }

    /// The copy at a place of the queue.
    pub fn get(&self, place: usize) -> Option<&NumberedFlight>
        ensures { option_map (λ e. e.now) result ≡ slice_get self.now place }
    {
        self.copies.get(place)
    }

    // The place of a number that one of them has, most often the first.
    fn position(&self, number: u64) -> usize
        requires rising { AreRising self.now }
        requires held { IsIn (numbers_of self.now) number }
        ensures { HasNumber self.now result number }
    {
        if self.copies[0].number == number {
            return 0;
        }
        let mut low = 0;
        let mut high = self.copies.len();
        while low < high {
            let middle = low + (high - low) / 2;
            if self.copies[middle].number < number {
                low = middle + 1;
            } else {
                high = middle;
            }
        }
        low
    }

    /// The copy with a number.
    pub(crate) fn flight(&self, number: u64) -> &Flight
        requires rising { AreRising self.now }
        requires held { IsIn (numbers_of self.now) number }
        ensures { found number self.now ≡ result.now ∷ [] }
    {
        let position = self.position(number);
        &self.copies[position].flight
    }

    /// One more, after the others.
    pub(crate) fn push(&mut self, number: u64, flight: Flight) -> Result<(), AllocError>
        ensures ok { OnOk result (self.new ≡ self.old ++ record { number = number; flight = flight } ∷ []) }
        ensures err { OnErr result (self.new ≡ self.old) }
    {
        self.copies.push_back(NumberedFlight { number, flight })?;
        Ok(())
    }

    /// The copy with a number goes.
    pub(crate) fn take(&mut self, number: u64)
        requires rising { AreRising self.old }
        requires held { IsIn (numbers_of self.old) number }
        ensures { self.new ≡ without (λ e. e.number) number self.old }
    {
        let position = self.position(number);
        self.copies.remove(position);
    }

    /// The copy with a number gets another.
    pub(crate) fn renumber(&mut self, number: u64, to: u64)
        requires rising { AreRising self.old }
        requires held { IsIn (numbers_of self.old) number }
        ensures { self.new ≡ renumbered number to self.old }
    {
        let position = self.position(number);
        self.copies[position].number = to;
    }
}
