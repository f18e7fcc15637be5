//! Where the rows of a batch stand among those of a policy.
//!
//! Layer: updates; public. Called by `reading` here, and by update_coordinator.
ghost use Rattle.std.specs.Prelude.{◌≡◌, ◌<◌, ◌+◌, ◌^◌, [], IfNone, IfSome, option_map, slice_get, length};
ghost use Rattle.update_plan.specs.Batches.{ingress, internal};
ghost use Rattle.update_plan.specs.Reading.{share_at, from_place, IsSpan};

use crate::cursor::{RowIndex, Share, SwitchSpan};
use crate::planning::{at_once, by_rounds, row_in};
use nk_values::{Band, PortKind, Row, Rows};

// The first place from one on at which there is a row.
pub(crate) fn place_from(
    at: RowIndex,
    share: Share,
    adds: bool,
    rows: &Rows,
    switch: SwitchSpan,
) -> Option<RowIndex>
    requires { IsSpan switch.span switch.sw rows.now.ports }
    ensures none { IfNone result (from_place share adds rows.now.band switch.sw rows.now.ports at ≡ []) }
    ensures some { IfSome result
        (λ x. (from_place share adds rows.now.band switch.sw rows.now.ports x ≡ from_place share adds rows.now.band
        switch.sw rows.now.ports at) × (x.row < length
        (share_at share adds rows.now.band switch.sw (slice_get rows.now.ports x.port)))) }
{
    let mut row = at.row;
    for port in at.port..switch.span.end {
        if row_at(RowIndex { port, row }, share, adds, rows, switch.sw).is_some() {
            return Some(RowIndex { port, row });
        }
        row = 0;
    }
    None
}

// The row at a place.
pub(crate) fn row_at(at: RowIndex, share: Share, adds: bool, rows: &Rows, sw: u16) -> Option<&Row>
    ensures row { option_map (λ r. r.now) result ≡ slice_get
        (share_at share adds rows.now.band sw (slice_get rows.now.ports at.port)) at.row }
    ensures small { IfSome result (λ r. at.row + 1 < 2 ^ 64) }
{
    let Some(port) = rows.ports.as_slice().get(at.port) else {
        return None;
    };
    if port.sw != sw {
        return None;
    }
    match share {
        Share::Bulk => row_of(at_once(rows.band, port.kind, port.rows.as_slice()), at.row),
        Share::Ingress => row_of(ingress(rows.band, port.kind, port.rows.as_slice()), at.row),
        Share::Internal => row_of(internal(port.kind, port.rows.as_slice()), at.row),
        Share::Round(round) => {
            if at.row > 0 {
                return None;
            }
            row_in(
                adds,
                round,
                by_rounds(rows.band, port.kind, port.rows.as_slice()),
            )
        }
    }
}

// The ingress rows that come and go at once.
fn ingress(band: Band, kind: PortKind, rows: &[Row]) -> &[Row]
    ensures { result.now ≡ ingress band kind rows.now }
{
    match (band, kind) {
        (Band::Low, PortKind::Edge) => rows,
        _ => &[],
    }
}

/// The rows of a port that are internal: all of a linked port, and none of an edge port.
pub fn internal(kind: PortKind, rows: &[Row]) -> &[Row]
    ensures { result.now ≡ internal kind rows.now }
{
    match kind {
        PortKind::Linked => rows,
        PortKind::Edge => &[],
    }
}

// The row of a list.
fn row_of(rows: &[Row], place: usize) -> Option<&Row>
    ensures row { option_map (λ r. r.now) result ≡ slice_get rows.now place }
    ensures small { IfSome result (λ r. place + 1 < 2 ^ 64) }
{
    if place < rows.len() {
        Some(&rows[place])
    } else {
        None
    }
}
