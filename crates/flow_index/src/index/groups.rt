//! The groups of an index: one for each port and VLAN number that rows ask for.
//!
//! Layer: rows and packets; private. Adds calls to `Index`.
ghost use Rattle.std.specs.Prelude.{◌≡◌, ◌≢◌, ◌<◌, [], ℕ, Some, Option, IfOk, IfSome, IfNone, OnOk, OnErr};
ghost use Rattle.nk_values.specs.Members.{IsIn};
ghost use Rattle.flow_index.specs.declared.indexed_row.IndexedRow.{IndexedRow as EntryValue};
ghost use Rattle.flow_index.specs.Entries.{IsPut, IsTaken, IsRenamed};
ghost use Rattle.flow_index.specs.Indexes.{entries_of, IsNumbered, AreAllRanked, KeepsOthers};
ghost use Rattle.flow_index.specs.Numbers.{number_at};

use super::Index;
use crate::group::Group;
use crate::indexed_row::IndexedRow;
use std::alloc::{AllocError, Global};

impl Index {
    // The rows of a group, where there are some.
    pub(super) fn group(&self, corner: Option<(u16, u16)>) -> Option<&Group>
        requires { IsNumbered self.now }
        ensures some { IfSome result (λ g. g.now ≡ entries_of self.now corner) }
        ensures none { IfNone result (entries_of self.now corner ≡ []) }
    {
        match corner {
            None => Some(&self.common),
            Some(corner) => {
                let number = self.numbers.get(corner)?;
                Some(&self.groups[number])
            }
        }
    }

    // One more in a group.
    pub(super) fn put(
        &mut self,
        alloc: Global,
        corner: Option<(u16, u16)>,
        entry: IndexedRow,
    ) -> Result<(), AllocError>
        requires numbered { IsNumbered self.old }
        requires ranked { AreAllRanked self.old }
        requires new { (e : EntryValue) → IsIn (entries_of self.old corner) e → e.place ≢ entry.place }
        ensures numbered { IsNumbered self.new }
        ensures others { KeepsOthers corner self.old self.new }
        ensures ok { OnOk result (IsPut entry (entries_of self.old corner) (entries_of self.new corner)) }
        ensures err { OnErr result (entries_of self.new corner ≡ entries_of self.old corner) }
    {
        match corner {
            None => self.common.put(entry),
            Some(corner) => {
                let number = self.number(alloc, corner)?;
                self.groups[number].put(entry)
            }
        }
    }

    // It goes from its group, if it is there.
    pub(super) fn take(&mut self, corner: Option<(u16, u16)>, entry: IndexedRow)
        requires numbered { IsNumbered self.old }
        requires ranked { AreAllRanked self.old }
        ensures numbered { IsNumbered self.new }
        ensures others { KeepsOthers corner self.old self.new }
        ensures taken { IsTaken entry (entries_of self.old corner) (entries_of self.new corner) }
    {
        match corner {
            None => self.common.take(entry),
            Some(corner) => {
                if let Some(number) = self.numbers.find(corner) {
                    self.groups[number].take(entry);
                }
            }
        }
    }

    // It gets another place, if it is there.
    pub(super) fn rename(&mut self, corner: Option<(u16, u16)>, entry: IndexedRow, place: usize)
        requires numbered { IsNumbered self.old }
        requires ranked { AreAllRanked self.old }
        requires new { (e : EntryValue) → IsIn (entries_of self.old corner) e → e.place ≢ place }
        ensures numbered { IsNumbered self.new }
        ensures others { KeepsOthers corner self.old self.new }
        ensures renamed { IsRenamed entry place (entries_of self.old corner) (entries_of self.new corner) }
    {
        match corner {
            None => self.common.rename(entry, place),
            Some(corner) => {
                if let Some(number) = self.numbers.get(corner) {
                    self.groups[number].rename(entry, place);
                }
            }
        }
    }

    // The number of a group, which is made where it is not there.
    pub(super) fn number(&mut self, alloc: Global, corner: (u16, u16)) -> Result<usize, AllocError>
        requires { IsNumbered self.old }
        ensures numbered { IsNumbered self.new }
        ensures same { (q : Option (ℕ × ℕ)) → entries_of self.new q ≡ entries_of self.old q }
        ensures number { IfOk result (λ n. number_at self.new.numbers corner ≡ Some n) }
    {
        if let Some(number) = self.numbers.find(corner) {
            return Ok(number);
        }
        let number = self.groups.len();
        self.groups.reserve(1)?;
        self.numbers.insert(corner, number)?;
        self.groups.push_reserved(Group::new(alloc));
        Ok(number)
    }
}
