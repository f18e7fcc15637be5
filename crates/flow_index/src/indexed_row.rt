//! Rows as an index keeps them.
//!
//! Layer: rows and packets; private. Called by `group`, `groups` and `index`.
ghost use Rattle.std.specs.Prelude.{◌≡◌};
ghost use Rattle.flow_index.specs.Entries.{corner_of, entry_of, rank_of};

use nk_values::{Pattern, Row};

/// A row by its place among the rows, with its rank.
#[derive(Clone, Copy, PartialEq, Eq)]
pub(crate) struct IndexedRow {
    pub(crate) rank: u32,
    pub(crate) place: usize,
}

/// The entry of a row at a place.
pub(crate) fn entry_of(row: &Row, place: usize) -> IndexedRow
    ensures { result ≡ entry_of row.now place }
{
    IndexedRow {
        rank: row.rank(),
        place,
    }
}

/// The rank of a row with this pattern and priority.
pub(crate) fn rank_of(pattern: &Pattern, priority: u16) -> u32
    ensures { result ≡ rank_of pattern.now priority }
{
    if pattern.is_exact() {
        65536 + u32::from(priority)
    } else {
        u32::from(priority)
    }
}

/// The port and the VLAN number that a pattern asks for, where it asks for both.
pub(crate) fn corner_of(pattern: &Pattern) -> Option<(u16, u16)>
    ensures { result ≡ corner_of pattern.now }
{
    match (pattern.in_port, pattern.dl_vlan) {
        (Some(port), Some(vlan)) => Some((port, vlan)),
        _ => None,
    }
}
