//! The actions of the rows of a leaf.
//!
//! Layer: rows and packets; private. Called by `lists`.
ghost use Rattle.std.specs.Prelude.{IfOk, IfErr};
ghost use Rattle.nk_values.specs.Tags.{IsVlanId};
ghost use Rattle.fdd_nodes.specs.Cells.{IsValid};
ghost use Rattle.leaf_actions.specs.Settable.{AreSettable};
ghost use Rattle.table_emitter.specs.Entries.{AreActionsOf};
ghost use Rattle.table_emitter.specs.Faults.{BarsLeaf};

use crate::fault::EmitError;
use crate::sizes::are_small;
use fdd_nodes::{Cell, Leaf};
use leaf_actions::{ActionsError, PortView, SharedActions, actions};
use nk_values::{Actions, EmitFault, FieldSet};
use std::alloc::Global;

/// The actions of the rows of a leaf.
pub(crate) fn row_actions(
    alloc: Global,
    cell: &Cell,
    leaf: &Leaf,
    view: &PortView,
    shared: &SharedActions,
) -> Result<Actions, EmitError>
    requires valid { IsValid cell.now }
    requires made { AreSettable leaf.now }
    requires stamp { IsVlanId view.now.stamp }
    ensures actions { IfOk result (AreActionsOf view.now cell.now leaf.now) }
    ensures bars { IfErr result (BarsLeaf view.now cell.now leaf.now) }
{
    let made = match actions(alloc, cell, leaf, view, shared) {
        Ok(made) => made,
        Err(ActionsError::Memory) => return Err(EmitError::Memory),
        Err(ActionsError::Fault(pair)) => {
            return Err(EmitError::Fault(EmitFault::Unordered {
                sw: view.sw,
                pt: view.pt,
                a: FieldSet {
                    out: pair.a.port,
                    field: pair.field_a,
                },
                b: FieldSet {
                    out: pair.b.port,
                    field: pair.field_b,
                },
            }));
        }
    };
    if are_small(made.as_slice()) {
        Ok(made)
    } else {
        Err(EmitError::Fault(EmitFault::TooManyActions {
            sw: view.sw,
            pt: view.pt,
        }))
    }
}
