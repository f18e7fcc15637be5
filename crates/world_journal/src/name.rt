//! What a run is named after.
//!
//! Layer: runs; public. Called by many modules here, and by fleet_workers.
ghost use Rattle.std.specs.Prelude.{ℕ, List, [], None};
ghost use Rattle.topology_model.specs.Layouts.{empty};
ghost use Rattle.world_core.specs.Worlds.{WorldValue, initial_world};
ghost use Rattle.world_journal.specs.declared.line.Line.{Line as LineValue};

use status_board::BoardName;
use std::marker::Brand;
use std::sync::ledger::Ledger;

/// Names where a run begins, and the board on which it is posted, in contracts alone.
pub trait RunName: Ledger + BoardName {
    /// The world at the start.
    ghost start: { WorldValue };

    /// The packets that are to come in.
    ghost lines: { List LineValue };

    /// Into how many parts the seats are cut.
    ghost all: { ℕ };
}

impl RunName for Brand {
    ghost start = { initial_world empty [] (record { hops = 1; capacity = 0; rejoins = 0; overlap = None }) };

    ghost lines = { [] };

    ghost all = { 0 };
}
