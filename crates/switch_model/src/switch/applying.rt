//! Pending flow mods, applied in any order.
//!
//! Layer: updates; private. Adds calls to `Switch`.
ghost use Rattle.std.specs.Prelude.{◌≡◌, ◌<◌, ◌≤◌, ◌↔◌, None, Some, Err, IfOk, IfSome, IsOk, OnOk, OnErr, length};
ghost use Rattle.std.specs.Prelude.{vec_len};
ghost use Rattle.std.specs.List.{remove};
ghost use Rattle.nk_values.specs.Changes.{IsFull};
ghost use Rattle.flow_table.specs.declared.table.ChangeError.TheVariants.{Fault};
ghost use Rattle.flow_table.specs.Changed.{Removes};
ghost use Rattle.openflow_wire.specs.Writing.{Fits};
ghost use Rattle.switch_model.specs.Switches.{Outcome};

use super::{ApplyError, ApplyFault, Switch};
use crate::pending::PendingMod;
use crate::refusing::table_full;
use flow_index::{ChangeError, ChangeFault, Table};
use openflow_wire::Message;
use std::alloc::{AllocError, Global};

impl Switch {
    ghost use Rattle.switch_model.specs.Switches.{FindsFull, IsApplied, IsDeletion};

    /// Applies the flow mod at a place among those that are pending, and takes it from there. If it finds the
    /// table full, the answer is an error, and the table stays. After an `Err` the switch is as it was.
    pub fn apply(&mut self, alloc: Global, place: usize) -> Result<Option<Message>, ApplyError>
        ensures ok { IfOk result (λ answer. IsApplied place self.old self.new answer) }
        ensures fits { IfOk result (λ answer. IfSome answer Fits) }
        // A deletion takes no memory.
        ensures deletion { IsDeletion self.old.pending place → IsOk result }
        ensures not_pending { (result ≡ Err (ApplyError.Fault ApplyFault.NotPending))
            ↔ (length self.old.pending ≤ place) }
        ensures err { OnErr result (self.new ≡ self.old) }
    {
        if place >= self.pending.len() {
            return Err(ApplyError::Fault(ApplyFault::NotPending));
        }
        match self.change(alloc, place) {
            Ok(()) => Ok(None),
            Err(ChangeError::Fault(ChangeFault::Full)) => Ok(Some(self.refuse(alloc, place)?)),
            Err(ChangeError::Memory) => Err(ApplyError::Memory),
        }
    }

    /// Applies the flow mod at a place among those that are pending, and takes it from there. `Full` tells that it
    /// finds the table full: then `refuse` answers it. After an `Err` the switch is as it was.
    pub fn change(&mut self, alloc: Global, place: usize) -> Result<(), ChangeError>
        requires { place < length self.old.pending }
        ensures ok { OnOk result (IsApplied place self.old self.new None) }
        ensures full { result ≡ Err (Fault ChangeFault.Full) → FindsFull place self.old }
        // A deletion takes no memory.
        ensures deletion { IsDeletion self.old.pending place → IsOk result }
        ensures err { OnErr result (self.new ≡ self.old) }
    {
        change_by(alloc, &mut self.table, &mut self.pending[place])?;
        take_out(&mut self.pending, place);
        Ok(())
    }

    /// Takes the flow mod at a place from there, which finds the table full, and gives the error that tells so. After
    /// an `Err` the switch is as it was.
    pub fn refuse(&mut self, alloc: Global, at: usize) -> Result<Message, AllocError>
        requires { FindsFull at self.old }
        ensures ok { IfOk result (λ answer. IsApplied at self.old self.new (Some answer)) }
        ensures fits { IfOk result Fits }
        ensures err { OnErr result (self.new ≡ self.old) }
    {
        let answer = table_full(alloc, &self.pending[at])?;
        take_out(&mut self.pending, at);
        Ok(answer)
    }
}

// The flow mod at a place goes. It mostly is the last, which goes without a move of others.
fn take_out(pending: &mut Vec<PendingMod>, place: usize)
    requires { place < vec_len pending.old }
    ensures { pending.new.items ≡ remove pending.old.items place }
{
    if place + 1 == pending.len() {
        pending.pop();
    } else {
        pending.remove(place);
    }
}

// Changes a table by a flow mod. A row that is added takes the actions out of the flow mod.
fn change_by(alloc: Global, table: &mut Table, pending: &mut PendingMod) -> Result<(), ChangeError>
    ensures ok { OnOk result (Outcome table.old pending.old table.new.rows None) }
    ensures capacity { table.new.capacity ≡ table.old.capacity }
    ensures full { result ≡ Err (Fault ChangeFault.Full) → IsFull table.old.capacity table.old.rows pending.old.change }
    ensures deletion { Removes pending.old.change.command → IsOk result }
    ensures err { OnErr result ((table.new ≡ table.old) × (pending.new ≡ pending.old)) }
{
    table.change(alloc, &mut pending.change)
}
