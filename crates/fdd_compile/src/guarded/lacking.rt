//! Whether diagrams and copies set a field that a kind of frame lacks.
//!
//! Layer: diagrams; private. Called by `guarded`.
ghost use Rattle.std.specs.Prelude.{◌↔◌, IsTrue};
ghost use Rattle.nk_values.specs.declared.field.Field.{Field};
ghost use Rattle.fdd_compile.specs.Breaches.{SetsLacking, CopySetsLacking};
ghost use Rattle.fdd_differ.specs.Frames.{Lacks};
ghost use Rattle.fdd_store.specs.Digests.{SetsField};
ghost use Rattle.fdd_store.specs.Stores.{Has, tree_at};

use fdd_differ::Frame;
use fdd_nodes::Assignments;
use fdd_store::{Id, Store};
use nk_values::{Field, Lit};

// Whether some leaf of a diagram sets a field that a kind lacks. Most diagrams have no such leaf, and are not searched.
pub(super) fn sets_some_lacking(store: &Store, frame: Frame, a: Id) -> bool
    requires { Has store.now a }
    ensures { (f : Field) → Lacks frame f → SetsField (tree_at store.now a) f → IsTrue result }
{
    for field in Field::ALL {
        if sets_if_lacking(store, frame, a, field) {
            return true;
        }
    }
    false
}

fn sets_if_lacking(store: &Store, frame: Frame, a: Id, field: Field) -> bool
    requires { Has store.now a }
    ensures { Lacks frame field → SetsField (tree_at store.now a) field → IsTrue result }
{
    frame.lacks(field) && store.sets(a, field)
}

// Whether some copy sets a field that a kind lacks.
pub(super) fn sets_lacking(copies: &[Assignments], frame: Frame) -> bool
    ensures { IsTrue result ↔ SetsLacking frame copies.now }
{
    for c in copies {
        if copy_sets_lacking(c.lits(), frame) {
            return true;
        }
    }
    false
}

fn copy_sets_lacking(lits: &[Lit], frame: Frame) -> bool
    ensures { IsTrue result ↔ CopySetsLacking frame lits.now }
{
    for l in lits {
        if frame.lacks(l.field()) {
            return true;
        }
    }
    false
}
