//! Keys that come again in rows in the order of their keys.
//!
//! Layer: updates; private. Called by `auditing`.
ghost use Rattle.std.specs.Prelude.{◌≡◌, ◌<◌, ◌↔◌, length, slice_index_or, IsTrue, MatchOption};
ghost use Rattle.std.specs.declared.cmp.Ordering.TheVariants.{Equal};
ghost use Rattle.nk_values.specs.declared.row.Row.{Row as RowValue};
ghost use Rattle.openflow_wire.specs.KeyOrder.{IsRepeated, IsRising, IsUp, key_cmp};

use nk_values::Row;
use openflow_wire::compare_keys;
use std::cmp::Ordering;

fn is_one_key(a: &Row, b: &Row) -> bool
    ensures { IsTrue result ↔ (key_cmp a.now b.now ≡ Equal) }
{
    match compare_keys(a, b) {
        Ordering::Equal => true,
        _ => false,
    }
}

/// The place of a row whose key comes again after it, or none if each key comes once.
pub fn repeated(rows: &[Row]) -> Option<usize>
    requires { IsUp rows.now }
    ensures { MatchOption result (IsRising rows.now)
        (λ k. (k < length rows.now) × ((d : RowValue) → IsRepeated rows.now (slice_index_or rows.now k d))) }
{
    for k in 1..rows.len() {
        if is_one_key(&rows[k - 1], &rows[k]) {
            return Some(k - 1);
        }
    }
    None
}
