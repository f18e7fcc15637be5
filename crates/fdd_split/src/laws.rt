//! Laws of divided diagrams.
//!
//! Layer: diagrams; public. No crate here calls it.
ghost use Rattle.fdd_split.specs.Laws.{DividedAnswerAlike, DividedAreOrdered, DividedAreSplit};

/// A divided diagram answers as the diagram that was divided, by its literals.
pub fn divided_answer_alike()
    ensures { DividedAnswerAlike }
{}

/// A divided diagram is ordered, assigns nothing that a path fixes, and gives no packet twice.
pub fn divided_are_ordered()
    ensures { DividedAreOrdered }
{}

/// A divided diagram is split.
pub fn divided_are_split()
    ensures { DividedAreSplit }
{}
