//! Rows put into the order of their keys.
//!
//! Layer: messages; public. Called by flow_audit and switch_model.
ghost use Rattle.std.specs.Prelude.{OnOk};
ghost use Rattle.std.specs.List.Sorted.{IsPermutation};
ghost use Rattle.nk_values.specs.Tables.{Distinct};
ghost use Rattle.openflow_wire.specs.KeyOrder.{IsRising, IsUp};

use crate::key_order::compare_keys;
use nk_values::Row;
use std::alloc::AllocError;

/// Puts rows into the order of their keys.
pub fn rank(rows: &mut Vec<Row>) -> Result<(), AllocError>
    ensures moved { IsPermutation rows.old.items rows.new.items }
    ensures up { OnOk result (IsUp rows.new.items) }
    ensures rising { Distinct rows.old.items → OnOk result (IsRising rows.new.items) }
{
    rows.sort_by(|a, b| compare_keys(a, b))?;
    Ok(())
}
