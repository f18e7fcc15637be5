//! Tests that no packet passes.
//!
//! Layer: rows and packets; private. Called by `lists`.
ghost use Rattle.std.specs.Prelude.{◌≡◌};
ghost use Rattle.fdd_nodes.specs.Trees.{tree};
ghost use Rattle.table_emitter.specs.FrameKinds.{is_port};
ghost use Rattle.table_emitter.specs.Passed.{past_barred};

use crate::kinds::FrameKinds;
use fdd_nodes::Node;
use nk_values::Field;

// The part without the tests of transport ports that stand first, if no packet passes them.
pub(crate) fn past_barred(part: &Node, kinds: FrameKinds) -> &Node
    ensures { tree result.now ≡ past_barred kinds (tree part.now) }
{
    if !kinds.bars_ports() {
        return part;
    }
    let mut node = part;
    while let Node::Test(l, _, e) = node {
        if !is_port(l.field()) {
            return node;
        }
        node = e;
    }
    node
}

// Whether a field is a transport port.
fn is_port(f: Field) -> bool
    ensures { result ≡ is_port f }
{
    matches!(f, Field::TcpSrcPort | Field::TcpDstPort)
}
