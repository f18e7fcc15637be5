//! A batch read off the rows of two policies, one flow mod after another.
//!
//! Layer: updates; public. Called by update_coordinator.
ghost use Rattle.std.specs.Prelude.{◌≡◌, [], ◌∷◌, true, false, IfNone, IfSome, option_map};
ghost use Rattle.openflow_wire.specs.RowChanges.{mod_of};
ghost use Rattle.update_plan.specs.Reading.{ports_of, side, side_from, left_by, IsSpan};

use crate::cursor::{Cursor, RowIndex, Share, SwitchSpan};
use crate::places::{place_from, row_at};
use nk_values::{Row, Rows};

/// The row that comes or goes next in a batch, and the cursor after it.
#[derive(Clone, Copy)]
pub struct NextRow<'a> {
    /// Whether the row comes. If not, it goes.
    pub adds: bool,
    pub row: &'a Row,
    pub cursor: Cursor,
}

// The next row of one side of a batch, and the place after it.
#[derive(Clone, Copy)]
struct SideRow<'a> {
    row: &'a Row,
    at: RowIndex,
}

/// Reads the row of the next flow mod of a batch, in which these rows come and those go at a switch.
pub fn read_next<'a>(
    cursor: Cursor,
    share: Share,
    new: Option<&'a Rows>,
    old: Option<&'a Rows>,
    switch: SwitchSpan,
) -> Option<NextRow<'a>>
    requires new { IsSpan switch.span switch.sw (ports_of (option_map (λ r. r.now) new)) }
    requires old { IsSpan switch.span switch.sw (ports_of (option_map (λ r. r.now) old)) }
    ensures none { IfNone result
        (left_by cursor share (option_map (λ r. r.now) new.entry) (option_map (λ r. r.now) old.entry) switch.sw ≡ []) }
    ensures some { IfSome result
        (λ x. left_by cursor share (option_map (λ r. r.now) new.entry) (option_map (λ r. r.now) old.entry)
        switch.sw ≡ mod_of x.adds x.row.now ∷ left_by x.cursor share (option_map (λ r. r.now) new.entry)
        (option_map (λ r. r.now) old.entry) switch.sw) }
{
    if cursor.goes {
        return read_going(cursor.at, share, old, switch);
    }
    if let Some(read) = read_side(cursor.at, share, true, new, switch) {
        return Some(NextRow {
            adds: true,
            row: read.row,
            cursor: Cursor {
                goes: false,
                at: read.at,
            },
        });
    }
    read_first_going(share, old, switch)
}

// Reads the row of the first flow mod of what goes.
#[tactic(auto, using(crate::proofs::Cursors::goes_first))]
fn read_first_going<'a>(
    share: Share,
    old: Option<&'a Rows>,
    switch: SwitchSpan,
) -> Option<NextRow<'a>>
    requires { IsSpan switch.span switch.sw (ports_of (option_map (λ r. r.now) old)) }
    ensures none { IfNone result (side share false (option_map (λ r. r.now) old.entry) switch.sw ≡ []) }
    ensures some { IfSome result
        (λ x. (x.adds ≡ false) × (x.cursor.goes ≡ true) ×
        (side share false (option_map (λ r. r.now) old.entry) switch.sw ≡ mod_of false x.row.now ∷ side_from share false
        (option_map (λ r. r.now) old.entry) switch.sw x.cursor.at)) }
{
    let at = RowIndex {
        port: switch.span.first,
        row: 0,
    };
    read_going(at, share, old, switch)
}

// Reads the row of the next flow mod of what goes.
fn read_going<'a>(
    at: RowIndex,
    share: Share,
    old: Option<&'a Rows>,
    switch: SwitchSpan,
) -> Option<NextRow<'a>>
    requires { IsSpan switch.span switch.sw (ports_of (option_map (λ r. r.now) old)) }
    ensures none { IfNone result (side_from share false (option_map (λ r. r.now) old.entry) switch.sw at ≡ []) }
    ensures some { IfSome result
        (λ x. (x.adds ≡ false) × (x.cursor.goes ≡ true) ×
        (side_from share false (option_map (λ r. r.now) old.entry) switch.sw at ≡ mod_of false x.row.now ∷ side_from
        share false (option_map (λ r. r.now) old.entry) switch.sw x.cursor.at)) }
{
    let read = read_side(at, share, false, old, switch)?;
    Some(NextRow {
        adds: false,
        row: read.row,
        cursor: Cursor {
            goes: true,
            at: read.at,
        },
    })
}

// Reads the row of the next flow mod of one side.
fn read_side<'a>(
    at: RowIndex,
    share: Share,
    adds: bool,
    rows: Option<&'a Rows>,
    switch: SwitchSpan,
) -> Option<SideRow<'a>>
    requires { IsSpan switch.span switch.sw (ports_of (option_map (λ r. r.now) rows)) }
    ensures none { IfNone result (side_from share adds (option_map (λ r. r.now) rows.entry) switch.sw at ≡ []) }
    ensures some { IfSome result
        (λ x. side_from share adds (option_map (λ r. r.now) rows.entry) switch.sw at ≡ mod_of adds x.row.now ∷ side_from
        share adds (option_map (λ r. r.now) rows.entry) switch.sw x.at) }
{
    let Some(rows) = rows else {
        return None;
    };
    let Some(found) = place_from(at, share, adds, rows, switch) else {
        return None;
    };
    let Some(row) = row_at(found, share, adds, rows, switch.sw) else {
        return None;
    };
    Some(SideRow {
        row,
        at: RowIndex {
            port: found.port,
            row: found.row + 1,
        },
    })
}
