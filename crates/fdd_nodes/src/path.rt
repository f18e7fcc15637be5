//! Paths of diagrams.
//!
//! Layer: diagrams; public. Called by `names` here, and by many crates.
ghost use Rattle.std.specs.Prelude.{◌≡◌, ◌↔◌, IsTrue};
ghost use Rattle.fdd_nodes.specs.Cells.{whole_cell};
ghost use Rattle.fdd_nodes.specs.Makes.{made};
ghost use Rattle.fdd_nodes.specs.Paths.{HasAll, HasNone};

use crate::cell::Cell;
use nk_values::{Lit, Packet};
use std::alloc::{AllocError, Global};
use std::marker::Model;

/// A path of a diagram: the tests on it that hold, and those that don't, each in the order of the path, and the cell
/// that those that hold fix. Clauses see the two lists.
pub struct Path {
    trues: Vec<Lit>,
    falses: Vec<Lit>,
    cell: Cell,
}

impl Drop for Path {
    fn drop(self) {
        let Path {
            trues: _trues,
            falses: _falses,
            cell: _cell,
        } = self;
    }
}

impl Model for Path {
    ghost use Rattle.fdd_nodes.specs.Paths.{Way};

    ghost Value = { Way };

    ghost use Rattle.std.specs.Prelude.{◌≡◌};
    ghost use Rattle.fdd_nodes.specs.Cells.{whole_cell};
    ghost use Rattle.fdd_nodes.specs.Trees.{apply};

    ghost view = { λ p. record { trues = p.trues.items; falses = p.falses.items } };

    ghost invariant = { λ p. p.cell ≡ apply p.trues.items whole_cell };
}

impl Path {
    ghost use Rattle.std.specs.Prelude.{[], OnOk, OnErr, IfSome, IfNone};
    ghost use Rattle.fdd_nodes.specs.Paths.{no_tests, with_true, with_false, cell_on, IsOnPath};

    /// The path on which nothing is tested yet.
    pub fn new(alloc: Global) -> Path
        ensures { result ≡ no_tests }
    {
        Path {
            trues: Vec::new(alloc),
            falses: Vec::new(alloc),
            cell: Cell::whole(),
        }
    }

    /// Goes on where a test holds.
    pub fn push_true(&mut self, l: &Lit) -> Result<(), AllocError>
        ensures ok { OnOk result (self.new ≡ with_true self.old l.now) }
        ensures err { OnErr result (self.new ≡ self.old) }
    {
        self.trues.push(*l)?;
        self.cell = self.cell.with(l);
        Ok(())
    }

    /// Goes on where a test doesn't hold.
    pub fn push_false(&mut self, l: &Lit) -> Result<(), AllocError>
        ensures ok { OnOk result (self.new ≡ with_false self.old l.now) }
        ensures err { OnErr result (self.new ≡ self.old) }
    {
        self.falses.push(*l)?;
        Ok(())
    }

    /// Goes back over the last test that holds, if there is one.
    pub fn pop_true(&mut self) -> Option<Lit>
        ensures last { IfSome result (λ l. self.old ≡ with_true self.new l) }
        ensures none { IfNone result (self.old.trues ≡ []) }
        ensures same { IfNone result (self.new ≡ self.old) }
    {
        let last = self.trues.pop()?;
        self.cell = cell_of(&self.trues);
        Some(last)
    }

    /// Goes back over the last test that doesn't hold, if there is one.
    pub fn pop_false(&mut self) -> Option<Lit>
        ensures last { IfSome result (λ l. self.old ≡ with_false self.new l) }
        ensures none { IfNone result (self.old.falses ≡ []) }
        ensures same { IfNone result (self.new ≡ self.old) }
    {
        self.falses.pop()
    }

    /// The tests that hold, in the order of the path.
    pub fn trues(&self) -> &[Lit]
        ensures { result.now ≡ self.now.trues }
    {
        &self.trues
    }

    /// The tests that don't hold, in the order of the path.
    pub fn falses(&self) -> &[Lit]
        ensures { result.now ≡ self.now.falses }
    {
        &self.falses
    }

    /// The cell of the packets that have each test that holds.
    pub fn cell(&self) -> &Cell
        ensures { result.now ≡ cell_on self.now }
    {
        &self.cell
    }

    /// Whether a packet has each test that holds, and none of the others.
    pub fn has(&self, packet: &Packet) -> bool
        ensures { IsTrue result ↔ IsOnPath self.now packet.now }
    {
        if !has_all(self.trues(), packet) {
            return false;
        }
        has_none(self.falses(), packet)
    }
}

fn cell_of(trues: &[Lit]) -> Cell
    ensures { result ≡ made trues.now whole_cell }
{
    let mut cell = Cell::whole();
    for l in trues {
        cell = cell.with(l);
    }
    cell
}

fn has_all(lits: &[Lit], packet: &Packet) -> bool
    ensures { IsTrue result ↔ HasAll lits.now packet.now }
{
    for l in lits {
        if !l.holds(packet) {
            return false;
        }
    }
    true
}

fn has_none(lits: &[Lit], packet: &Packet) -> bool
    ensures { IsTrue result ↔ HasNone lits.now packet.now }
{
    for l in lits {
        if l.holds(packet) {
            return false;
        }
    }
    true
}
