//! What a part of a star is made of.
//!
//! Layer: diagrams; private. Called by many modules.
use fdd_nodes::{Assignments, Cell};
use fdd_store::Id;
use indexmap::IndexSet;
use nk_values::{Lit, Packet};

/// What a part of a star is made of: the star of a body on the packets of a cell, after a first copy.
#[derive(Clone, Copy)]
pub(crate) struct Scope<'a> {
    /// The diagram that is repeated.
    pub(crate) body: Id,
    /// It holds the first copy.
    pub(crate) cell: &'a Cell,
    /// What comes before the star.
    pub(crate) first: &'a Assignments,
    /// All that the body assigns.
    pub(crate) assigned: &'a IndexSet<Lit>,
    /// A packet that has nothing which the body names. A fault fills the cell with it.
    pub(crate) other: &'a Packet,
}
