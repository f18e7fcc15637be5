//! The first literal by which two copies of a leaf of a diagram could give one packet.
//!
//! Layer: diagrams; private. Called by `splits`.
ghost use Rattle.std.specs.Prelude.{IfOk, OnOk};
ghost use Rattle.fdd_store.specs.Stores.{Has, tree_at};
ghost use Rattle.fdd_split.specs.Memos.{AreKept};
ghost use Rattle.fdd_split.specs.Pairs.{IsFirstOf};
ghost use Rattle.fdd_split.specs.Threats.{Threat, TestsNoBarred};

use crate::bars::{Bar, same_bars};
use crate::branches::{bars_then, with_literal};
use crate::leaves::leaf_threat;
use crate::memo::{Memo, key_of};
use crate::pairs::first_of;
use crate::plain::is_plain;
use fdd_store::{Id, Look, Store};
use nk_values::{Field, Lit};
use std::alloc::{AllocError, Global};

/// The first literal by which two copies of a leaf of a diagram could give one packet.
#[cycle(threat)]
pub(crate) fn first_threat(
    alloc: Global,
    store: &Store,
    memo: &mut Memo,
    bars: &[Bar],
    a: Id,
) -> Result<Option<Lit>, AllocError>
    requires has { Has store.now a }
    requires kept { AreKept store.now memo.old }
    requires unbarred { TestsNoBarred bars.now (tree_at store.now a) }
    ensures first { IfOk result (λ o. IsFirstOf (Threat bars.now (tree_at store.now a)) o) }
    ensures kept { OnOk result (AreKept store.now memo.new) }
{
    let plain = is_plain(alloc, store, memo, a)?;
    if plain {
        return Ok(None);
    }
    let key = key_of(alloc, bars, a)?;
    if let Some(known) = memo.threat_of(&key) {
        return Ok(known);
    }
    let own = same_bars(alloc, bars)?;
    let first = threat_at(alloc, store, memo, own, a)?;
    memo.keep_threat(key, first)?;
    Ok(first)
}

// The same, by its root.
#[cycle(threat)]
fn threat_at(
    alloc: Global,
    store: &Store,
    memo: &mut Memo,
    bars: Vec<Bar>,
    a: Id,
) -> Result<Option<Lit>, AllocError>
    requires has { Has store.now a }
    requires kept { AreKept store.now memo.old }
    requires unbarred { TestsNoBarred bars.items (tree_at store.now a) }
    ensures first { IfOk result (λ o. IsFirstOf (Threat bars.items (tree_at store.now a)) o) }
    ensures kept { OnOk result (AreKept store.now memo.new) }
{
    match store.look(a) {
        Look::Leaf => leaf_threat(alloc, store, &bars, a),
        Look::Fork(l, t, e) => {
            let yes = bars_then(alloc, store, &bars, &l, t)?;
            let x = first_threat(alloc, store, memo, &yes, t)?;
            let no = with_literal(store, bars, &l, e)?;
            let y = threat_behind(alloc, store, memo, no, l.field(), e)?;
            Ok(first_of(x, y))
        }
    }
}

// The same after a test of a field. If a further test of the field lengthens the bars, no other way leads to them, so
// nothing is kept.
#[cycle(threat)]
fn threat_behind(
    alloc: Global,
    store: &Store,
    memo: &mut Memo,
    bars: Vec<Bar>,
    field: Field,
    a: Id,
) -> Result<Option<Lit>, AllocError>
    requires has { Has store.now a }
    requires kept { AreKept store.now memo.old }
    requires unbarred { TestsNoBarred bars.items (tree_at store.now a) }
    ensures first { IfOk result (λ o. IsFirstOf (Threat bars.items (tree_at store.now a)) o) }
    ensures kept { OnOk result (AreKept store.now memo.new) }
{
    let goes_on = match store.look(a) {
        Look::Leaf => false,
        Look::Fork(m, _, _) => m.field() == field && store.sets(a, field),
    };
    if !goes_on {
        return first_threat(alloc, store, memo, &bars, a);
    }
    let plain = is_plain(alloc, store, memo, a)?;
    if plain {
        return Ok(None);
    }
    threat_at(alloc, store, memo, bars, a)
}
