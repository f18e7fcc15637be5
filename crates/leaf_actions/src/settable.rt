//! Whether actions can make the copies of a leaf.
//!
//! Layer: rows and packets; public. Called by table_tests.
ghost use Rattle.std.specs.Prelude.{◌↔◌, IsTrue};
ghost use Rattle.nk_values.specs.Acts.{IsSettable};
ghost use Rattle.leaf_actions.specs.Settable.{AreSettable, CopyCanBeSet, CopiesCanBeSet};

use fdd_nodes::{Assignments, Leaf};
use nk_values::{Field, Lit};

/// Whether no copy of a leaf assigns the switch, the type of the frame or the protocol.
pub fn are_settable(leaf: &Leaf) -> bool
    ensures { IsTrue result ↔ AreSettable leaf.now }
{
    copies_can_be_set(leaf.copies())
}

fn copies_can_be_set(copies: &[Assignments]) -> bool
    ensures { IsTrue result ↔ CopiesCanBeSet copies.now }
{
    for c in copies {
        if !copy_can_be_set(c.lits()) {
            return false;
        }
    }
    true
}

fn copy_can_be_set(lits: &[Lit]) -> bool
    ensures { IsTrue result ↔ CopyCanBeSet lits.now }
{
    for l in lits {
        if !is_settable(l.field()) {
            return false;
        }
    }
    true
}

fn is_settable(f: Field) -> bool
    ensures { IsTrue result ↔ IsSettable f }
{
    !matches!(f, Field::Sw | Field::EthTyp | Field::IpProto)
}
