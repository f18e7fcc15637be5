//! Diagrams in which no two copies of a leaf give one packet.
//!
//! Layer: diagrams; private. Called by `threats`.
ghost use Rattle.std.specs.Prelude.{IfOk, OnOk, IsTrue};
ghost use Rattle.fdd_nodes.specs.Roots.{IsLeaf};
ghost use Rattle.fdd_store.specs.Canonical.{IsCanonical};
ghost use Rattle.fdd_store.specs.Stores.{Has, tree_at};
ghost use Rattle.fdd_split.specs.Memos.{AreKept, IsPlain};

use crate::leaves::leaf_threat;
use crate::memo::Memo;
use fdd_store::{Id, Look, Store};
use std::alloc::{AllocError, Global};

/// Whether no two copies of any leaf give one packet, whatever is barred. Each part that is shared is looked at once.
///
/// `false` says nothing.
#[cycle(plain)]
pub(crate) fn is_plain(
    alloc: Global,
    store: &Store,
    memo: &mut Memo,
    a: Id,
) -> Result<bool, AllocError>
    requires has { Has store.now a }
    requires kept { AreKept store.now memo.old }
    ensures plain { IfOk result (λ b. IsTrue b → IsPlain (tree_at store.now a)) }
    ensures kept { OnOk result (AreKept store.now memo.new) }
{
    if is_single(store, a) {
        return Ok(true);
    }
    if let Some(known) = memo.plain_of(a) {
        return Ok(known);
    }
    let plain = is_plain_at(alloc, store, memo, a)?;
    memo.keep_plain(a, plain)?;
    Ok(plain)
}

// The same, by its root.
#[cycle(plain)]
fn is_plain_at(alloc: Global, store: &Store, memo: &mut Memo, a: Id) -> Result<bool, AllocError>
    requires has { Has store.now a }
    requires kept { AreKept store.now memo.old }
    ensures plain { IfOk result (λ b. IsTrue b → IsPlain (tree_at store.now a)) }
    ensures kept { OnOk result (AreKept store.now memo.new) }
{
    match store.look(a) {
        Look::Leaf => is_plain_leaf(alloc, store, a),
        Look::Fork(_, t, e) => {
            if is_plain(alloc, store, memo, t)? {
                is_plain(alloc, store, memo, e)
            } else {
                Ok(false)
            }
        }
    }
}

// Whether a diagram is a leaf of at most one copy.
fn is_single(store: &Store, a: Id) -> bool
    requires { Has store.now a }
    ensures { IsTrue result → IsPlain (tree_at store.now a) }
{
    match store.look(a) {
        Look::Leaf => store.leaf(a).copies().len() <= 1,
        Look::Fork(_, _, _) => false,
    }
}

fn is_plain_leaf(alloc: Global, store: &Store, a: Id) -> Result<bool, AllocError>
    requires has { Has store.now a }
    requires leaf { IsLeaf (tree_at store.now a) }
    requires made { IsCanonical (tree_at store.now a) }
    ensures { IfOk result (λ b. IsTrue b → IsPlain (tree_at store.now a)) }
{
    match leaf_threat(alloc, store, &[], a)? {
        None => Ok(true),
        Some(_) => Ok(false),
    }
}
