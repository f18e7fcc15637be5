//! Whether the tests of a literal's field stand first.
//!
//! Layer: diagrams; private. Called by `ops`.
ghost use Rattle.std.specs.Prelude.{◌↔◌, IsTrue};
ghost use Rattle.fdd_nodes.specs.Trees.{tree};
ghost use Rattle.fdd_store.specs.Operations.{IsFieldFrom};

use fdd_nodes::Node;
use nk_values::Lit;

/// Whether a diagram tests no field before a literal's at its root.
pub(crate) fn is_field_from(a: &Node, l: &Lit) -> bool
    ensures { IsTrue result ↔ IsFieldFrom l.now (tree a.now) }
{
    match a {
        Node::Leaf(_) => true,
        Node::Test(m, _, _) => l.field().place() <= m.field().place(),
    }
}
