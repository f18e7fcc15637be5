//! Flow mods, applied to the rows of a table.
//!
//! Layer: rows and packets; private. Adds calls to `Table`.
ghost use Rattle.std.specs.Prelude.{◌≡◌, ◌↔◌, ◌≤◌, ◌<◌, length, OnOk, OnErr, Err};
ghost use Rattle.nk_values.specs.declared.row.Row.{Row as RowValue};
ghost use Rattle.flow_table.specs.declared.table.ChangeError.TheVariants.{Fault};
ghost use Rattle.nk_values.specs.Changes.{row_of, IsMeant, HasOther, HasModified, LacksRoom};
ghost use Rattle.nk_values.specs.Tables.{SameKey, IsNew};
ghost use Rattle.flow_table.specs.Changed.{Removes, IsKept, AreAfter};

use super::Table;
use flow_table::{ChangeError, ChangeFault, all_modified, has_one, is_meant};
use nk_values::{Actions, FlowMod, Row};
use std::alloc::Global;
use std::mem;

impl Table {
    // Puts the row of a change in the place of the one with its key, or adds it. `Full` comes before the row is made.
    pub(super) fn add(&mut self, alloc: Global, change: &mut FlowMod) -> Result<(), ChangeError>
        ensures ok { OnOk result (AreAfter (IsKept self.old.rows (row_of change.old)) self.new.rows) }
        ensures capacity { self.new.capacity ≡ self.old.capacity }
        ensures full { (result ≡ Err (Fault ChangeFault.Full)) ↔
            ((self.old.capacity ≤ length self.old.rows) × IsNew self.old.rows change.old.pattern change.old.priority) }
        ensures err { OnErr result ((self.new ≡ self.old) × (change.new ≡ change.old)) }
    {
        let pattern = &change.pattern;
        match self.index.key_place(&self.rows, pattern, change.priority) {
            Some(place) => {
                self.rows[place] = take_row(change);
                Ok(())
            }
            None if self.rows.len() >= self.capacity => {
                Err(ChangeError::Fault(ChangeFault::Full))
            }
            None => {
                self.rows.reserve(1)?;
                self.index
                    .add(alloc, &self.rows, &change.pattern, change.priority)?;
                self.rows.push_reserved(take_row(change));
                Ok(())
            }
        }
    }

    // Gives the actions of a change to each row that it is meant for; if there is none it adds a row.
    pub(super) fn modify(&mut self, alloc: Global, change: &mut FlowMod) -> Result<(), ChangeError>
        requires { (r : RowValue) → SameKey r change.old.pattern change.old.priority → IsMeant change.old r }
        ensures ok { OnOk result (AreAfter (HasModified self.old.rows change.old) self.new.rows) }
        ensures capacity { self.new.capacity ≡ self.old.capacity }
        ensures full { (result ≡ Err (Fault ChangeFault.Full)) ↔ LacksRoom self.old.capacity self.old.rows change.old }
        ensures err { OnErr result ((self.new ≡ self.old) × (change.new ≡ change.old)) }
    {
        if !has_one(&self.rows, change) {
            return self.add(alloc, change);
        }
        self.rows = all_modified(alloc, &self.rows, change)?;
        Ok(())
    }

    // Removes each row that a change is meant for.
    pub(super) fn delete(&mut self, change: &FlowMod)
        ensures rows { AreAfter (HasOther self.old.rows change.now) self.new.rows }
        ensures capacity { self.new.capacity ≡ self.old.capacity }
    {
        let mut place = self.rows.len();
        while place > 0 {
            place -= 1;
            if is_meant(change, &self.rows[place]) {
                self.remove(place);
            }
        }
    }

    // Removes the row with the pattern and priority of a change, if the change is meant for it.
    pub(super) fn delete_strict(&mut self, change: &FlowMod)
        requires { (r : RowValue) → IsMeant change.now r → SameKey r change.now.pattern change.now.priority }
        ensures rows { AreAfter (HasOther self.old.rows change.now) self.new.rows }
        ensures capacity { self.new.capacity ≡ self.old.capacity }
    {
        let place = self
            .index
            .key_place(&self.rows, &change.pattern, change.priority);
        let Some(place) = place else {
            return;
        };
        if is_meant(change, &self.rows[place]) {
            self.remove(place);
        }
    }
}

// The row that a flow mod adds, with its actions, which are taken out of it.
fn take_row(change: &mut FlowMod) -> Row
    ensures { result ≡ row_of change.old }
{
    Row {
        pattern: change.pattern,
        priority: change.priority,
        actions: mem::replace(&mut change.actions, Actions::none()),
    }
}
