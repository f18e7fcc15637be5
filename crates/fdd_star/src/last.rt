//! Copies that searches share.
//!
//! Layer: diagrams; private. Called by `additions` and `found`.
use fdd_nodes::Assignments;
use std::alloc::{AllocError, Global};

/// The copy that was made last of the cell of a number. Many searches make the same copy of a cell, so they share it.
#[derive(Drop)]
pub(crate) struct LastCopies {
    copies: Vec<Option<Assignments>>,
}

impl LastCopies {
    ghost use Rattle.std.specs.Prelude.{◌≡◌, IfOk};
    ghost use Rattle.fdd_nodes.specs.Copies.{IsCopy, after};

    /// No copy.
    pub(crate) fn new(alloc: Global) -> LastCopies {
        LastCopies {
            copies: Vec::new(alloc),
        }
    }

    /// One copy after another, which makes the cell of a number: the last one of the number, if that is the same.
    pub(crate) fn sequence(
        &mut self,
        alloc: Global,
        number: usize,
        first: &Assignments,
        later: &Assignments,
    ) -> Result<Assignments, AllocError>
        ensures after { IfOk result (λ r. r ≡ after first.now later.now) }
        ensures copy { IsCopy first.now }
    {
        if let Some(Some(last)) = self.copies.get(number) {
            if last.is_sequence_of(first, later) {
                return last.copy();
            }
        }
        let copy = first.followed_by(alloc, later)?;
        self.keep(number, copy.copy()?)?;
        Ok(copy)
    }

    // Keeps a copy as the last one of a number.
    fn keep(&mut self, number: usize, copy: Assignments) -> Result<(), AllocError> {
        while self.copies.len() <= number {
            self.copies.push(None)?;
        }
        self.copies[number] = Some(copy);
        Ok(())
    }
}
