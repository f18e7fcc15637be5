//! A law of tables, the contract of a call that does nothing.
//!
//! Layer: the world; public. No crate here calls it.
ghost use Rattle.table_audit.specs.Laws.{TablesFollow};

/// As long as updates go on, a switch whose session is up, that has nothing left of the phase's batch and refused
/// nothing has just the rows that an audit plans for it.
pub fn tables_follow()
    ensures { TablesFollow }
{}
