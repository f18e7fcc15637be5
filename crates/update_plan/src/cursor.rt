//! How far the batch of a switch is read, and where the rows of the switch stand.
//!
//! Layer: updates; public. Called by `places` and `reading` here, and by update_coordinator.
ghost use Rattle.std.specs.Prelude.{◌≡◌};

use nk_values::PortRows;

/// Which rows of a port come or go in a batch.
#[derive(Clone, Copy, Debug, PartialEq, Eq)]
pub enum Share {
    /// Those that come or go at once.
    Bulk,
    /// Those of this round.
    Round(usize),
    /// Of those that come or go at once, the ingress rows: those of edge ports.
    Ingress,
    /// The internal rows: those of linked ports.
    Internal,
}

/// A port among the ports of a policy's rows, and a row of it.
#[derive(Clone, Copy, Debug, PartialEq, Eq)]
pub struct RowIndex {
    pub port: usize,
    pub row: usize,
}

/// How far a batch is read: what comes in is read first, and then what goes.
#[derive(Clone, Copy, Debug, PartialEq, Eq)]
pub struct Cursor {
    pub goes: bool,
    pub at: RowIndex,
}

/// Between which places the ports of a switch stand among the ports of policies' rows.
#[derive(Clone, Copy, Debug, PartialEq, Eq)]
pub struct Span {
    pub first: usize,
    pub end: usize,
}

/// A switch, and between which places its ports stand.
#[derive(Clone, Copy, Debug, PartialEq, Eq)]
pub struct SwitchSpan {
    pub sw: u16,
    pub span: Span,
}

impl Span {
    ghost use Rattle.update_plan.specs.Reading.{IsSpan, joined};

    /// That of a switch among these ports. If it has none, the span is empty, and joined with another one it is that
    /// one.
    pub fn new(ports: &[PortRows], sw: u16) -> Span
        ensures { IsSpan result sw ports.now }
    {
        let mut first = usize::MAX;
        let mut end = 0;
        for (place, port) in ports.iter().enumerate() {
            if port.sw == sw {
                first = first.min(place);
                end = place + 1;
            }
        }
        Span { first, end }
    }

    /// Both together.
    pub fn joined(self, other: Span) -> Span
        ensures { result ≡ joined self other }
    {
        Span {
            first: self.first.min(other.first),
            end: self.end.max(other.end),
        }
    }
}

impl Cursor {
    ghost use Rattle.update_plan.specs.Reading.{cursor_at};

    /// Where the batch of a switch begins whose ports stand here.
    pub fn new(span: Span) -> Cursor
        ensures { result ≡ cursor_at span }
    {
        Cursor {
            goes: false,
            at: RowIndex {
                port: span.first,
                row: 0,
            },
        }
    }
}
