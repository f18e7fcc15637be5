//! By what visits are kept.
//!
//! Layer: diagrams; private. Called by `visits`.
use fdd_nodes::Cell;
use fdd_store::Id;

/// A diagram of a store, and the cell whose packet comes to it.
#[derive(Clone, Copy, PartialEq, Eq, Hash)]
pub(crate) struct Key {
    pub(crate) diagram: Id,
    pub(crate) cell: Cell,
}
