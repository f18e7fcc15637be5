//! Outputs of one packet.
//!
//! Layer: diagrams; private. Called by `finding`.
ghost use Rattle.std.specs.Prelude.{◌≡◌, ◌↔◌, IsTrue, MatchOption};
ghost use Rattle.nk_values.specs.Members.{IsIn, Within};
ghost use Rattle.fdd_nodes.specs.Makes.{Makes, MakesAll};
ghost use Rattle.fdd_nodes.specs.Trees.{answers, leaf_at, outcomes};
ghost use Rattle.fdd_store.specs.Stores.{Has, tree_at};
ghost use Rattle.fdd_apart.specs.Aparts.{IsLoneOutput};
ghost use Rattle.fdd_apart.specs.Outputs.{IsLoneOutcome};

use fdd_nodes::{Assignments, Leaf};
use fdd_store::{Id, Look, Store};
use nk_values::Packet;

/// An output of a packet that the one diagram gives and the other does not, or none if the other gives all of the one.
pub(crate) fn lone_output(store: &Store, a: Id, b: Id, packet: &Packet) -> Option<Packet>
    requires has_a { Has store.now a }
    requires has_b { Has store.now b }
    ensures { MatchOption result
        (Within (answers (tree_at store.now a) packet.now) (answers (tree_at store.now b) packet.now))
        (IsLoneOutput (tree_at store.now a) (tree_at store.now b) packet.now) }
{
    let (leaf, other) = (leaf_on(store, a, packet), leaf_on(store, b, packet));
    lone_outcome(leaf.copies(), other.copies(), packet)
}

// What the first copies make of a packet and the second do not, or none if the second make all of it.
fn lone_outcome(xs: &[Assignments], ys: &[Assignments], packet: &Packet) -> Option<Packet>
    ensures { MatchOption result (MakesAll xs.now ys.now packet.now) (IsLoneOutcome xs.now ys.now packet.now) }
{
    for c in xs {
        let output = c.apply(packet);
        if !makes(ys, packet, &output) {
            return Some(output);
        }
    }
    None
}

// Whether some copy makes the second packet of the first.
fn makes(copies: &[Assignments], packet: &Packet, output: &Packet) -> bool
    ensures { IsTrue result ↔ Makes copies.now packet.now output.now }
{
    for c in copies {
        if c.apply(packet) == *output {
            return true;
        }
    }
    false
}

// The leaf on a packet's path.
fn leaf_on<'a>(store: &'a Store, a: Id, packet: &Packet) -> &'a Leaf
    requires { Has store.now a }
    ensures { result.now ≡ leaf_at (tree_at store.now a) packet.now }
{
    match store.look(a) {
        Look::Leaf => store.leaf(a),
        Look::Fork(l, t, e) => {
            if l.holds(packet) {
                leaf_on(store, t, packet)
            } else {
                leaf_on(store, e, packet)
            }
        }
    }
}
