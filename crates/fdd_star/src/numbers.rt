//! Sets of numbers: of cells, and of the places of diagrams.
//!
//! Layer: diagrams; private. Called by `cells`, `found` and `reach`.
ghost use Rattle.std.specs.Prelude.{[], ◌<◌, OnOk, length};
ghost use Rattle.fdd_star.specs.Marks.{AreMarks, KeepsMarks};

use std::alloc::{AllocError, Global};
use std::marker::Model;

/// Numbers, each once, in the order in which they came. Clauses see the list of them.
///
/// They count from zero on, so a mark for each number tells whether it is there.
pub(crate) struct NumberSet {
    numbers: Vec<usize>,
    marks: Vec<bool>,
}

impl Drop for NumberSet {
    fn drop(self) {
        let NumberSet {
            numbers: _numbers,
            marks: _marks,
        } = self;
    }
}

impl Model for NumberSet {
    ghost use Rattle.std.specs.Prelude.{ℕ, List};
    ghost use Rattle.fdd_star.specs.Marks.{AreMarks};

    ghost Value = { List ℕ };

    ghost view = { λ s. s.numbers.items };

    ghost invariant = { λ s. AreMarks s.numbers.items s.marks.items };
}

impl NumberSet {
    ghost use Rattle.std.specs.Prelude.{◌≡◌, ◌↔◌, [], ◌<◌, Some, IfOk, IsTrue, length, slice_get};
    ghost use Rattle.nk_values.specs.Members.{IsIn};
    ghost use Rattle.fdd_star.specs.Marks.{PutsNumber};

    /// No number.
    pub(crate) fn new(alloc: Global) -> NumberSet
        ensures { result ≡ [] }
    {
        NumberSet {
            numbers: Vec::new(alloc),
            marks: Vec::new(alloc),
        }
    }

    /// The number at a place.
    pub(crate) fn at(&self, place: usize) -> usize
        requires { place < length self.now }
        ensures { slice_get self.now place ≡ Some result }
    {
        self.numbers[place]
    }

    /// How many there are.
    pub(crate) fn len(&self) -> usize {
        self.numbers.len()
    }

    /// Whether a number is there.
    pub(crate) fn contains(&self, number: usize) -> bool
        ensures { IsTrue result ↔ IsIn self.now number }
    {
        self.marks.get(number) == Some(&true)
    }

    /// Takes all numbers away.
    pub(crate) fn clear(&mut self)
        ensures { self.new ≡ [] }
    {
        unmark(&mut self.marks, &self.numbers);
        self.numbers.clear();
    }

    /// Puts a number last, if it is not there, and tells whether it is new.
    pub(crate) fn insert(&mut self, number: usize) -> Result<bool, AllocError>
        ensures { IfOk result (λ is_new. PutsNumber number is_new self.old self.new) }
    {
        if self.contains(number) {
            return Ok(false);
        }
        grow(&mut self.marks, number)?;
        self.numbers.push(number)?;
        self.marks[number] = true;
        Ok(true)
    }
}

// Adds marks of numbers that are not there, until a number has one.
fn grow(marks: &mut Vec<bool>, number: usize) -> Result<(), AllocError>
    ensures marks { KeepsMarks marks.old.items marks.new.items }
    ensures len { OnOk result (number < length marks.new.items) }
{
    while marks.len() <= number {
        marks.push(false)?;
    }
    Ok(())
}

// Takes the marks of all numbers away, if no others have any.
fn unmark(marks: &mut Vec<bool>, numbers: &[usize])
    requires { AreMarks numbers.now marks.old.items }
    ensures { AreMarks [] marks.new.items }
{
    for number in numbers {
        marks[*number] = false;
    }
}
