//! The batch of a phase, read off the rows of the policies.
//!
//! Layer: updates; private. Called by `inbound`, `outbound` and `planned`.
ghost use Rattle.std.specs.Prelude.{◌≡◌, ◌<◌, [], ◌∷◌, ◌+◌, ℕ, Some, drop, length, slice_get, IfOk, IfNone, IfSome};
ghost use Rattle.std.specs.Prelude.{option_map};
ghost use Rattle.update_plan.specs.declared.cursor.Cursor.{Cursor as CursorValue};
ghost use Rattle.update_plan.specs.Reading.{cursor_at, left_by};
ghost use Rattle.update_plan.specs.declared.cursor.Span.{Span as SpanValue};
ghost use Rattle.update_coordinator.specs.Batches.{version_at, wipe};
ghost use Rattle.update_coordinator.specs.Drafts.{drafted};
ghost use Rattle.update_coordinator.specs.Reading.{left_in, share_in, coming_in, going_in, begun_again, AreBetween};

use crate::phase::Phase;
use nk_values::{ANY_PORT, Actions, FlowCommand, FlowMod, Pattern, Row, Rows};
use session_core::Move;
use std::alloc::{AllocError, Global};
use update_plan::{Cursor, Share, Span, SwitchSpan, mod_of, read_next};

/// The next flow mod of a batch, which is not made yet, and the cursor after it.
#[derive(Clone, Copy)]
pub(crate) struct NextDraft<'a> {
    pub(crate) draft: Draft<'a>,
    pub(crate) cursor: Cursor,
}

/// A flow mod that is not made yet.
#[derive(Clone, Copy)]
pub(crate) enum Draft<'a> {
    /// It empties the table.
    Wipe,
    /// This row comes, or goes.
    Row { adds: bool, row: &'a Row },
}

impl<'a> Draft<'a> {
    /// The flow mod.
    pub(crate) fn make(self) -> Result<FlowMod, AllocError>
        ensures { IfOk result (λ m. m ≡ drafted self.entry) }
    {
        match self {
            Draft::Wipe => Ok(FlowMod {
                command: FlowCommand::Delete,
                pattern: Pattern::any(),
                priority: 0,
                out_port: ANY_PORT,
                actions: Actions::none(),
            }),
            Draft::Row { adds, row } => mod_of(adds, row),
        }
    }
}

// Reads the next flow mod of a phase's batch at a switch, of which `next` went out.
pub(crate) fn read_in(
    versions: &[Rows],
    phase: Phase,
    switch: SwitchSpan,
    next: usize,
    cursor: Cursor,
) -> Option<NextDraft<'_>>
    requires { AreBetween versions.now switch.sw switch.span }
    ensures none { IfNone result (left_in versions.now phase switch.sw next cursor ≡ []) }
    ensures some { IfSome result
        (λ x. left_in versions.now phase switch.sw next cursor ≡ drafted x.draft ∷ left_in versions.now phase switch.sw
        (next + 1) x.cursor) }
{
    match phase {
        Phase::Opening => wiping(next, cursor),
        Phase::Idle(_)
        | Phase::Install(_)
        | Phase::Flip(_, _)
        | Phase::Drain(_)
        | Phase::Clean(_)
        | Phase::Tidy(_)
        | Phase::Sweep(_, _) => read_row(versions, phase, switch, cursor),
    }
}

// Reads the next flow mod of a batch of rows.
fn read_row(
    versions: &[Rows],
    phase: Phase,
    switch: SwitchSpan,
    cursor: Cursor,
) -> Option<NextDraft<'_>>
    requires { AreBetween versions.now switch.sw switch.span }
    ensures none { IfNone result
        (left_by cursor (share_in phase) (coming_in versions.now phase) (going_in versions.now phase) switch.sw ≡ []) }
    ensures some { IfSome result
        (λ x. left_by cursor (share_in phase) (coming_in versions.now phase) (going_in versions.now phase)
        switch.sw ≡ drafted x.draft ∷ left_by x.cursor (share_in phase) (coming_in versions.now phase)
        (going_in versions.now phase) switch.sw) }
{
    let read = read_next(
        cursor,
        share_in(phase),
        coming_in(versions, phase),
        going_in(versions, phase),
        switch,
    )?;
    Some(NextDraft {
        draft: Draft::Row {
            adds: read.adds,
            row: read.row,
        },
        cursor: read.cursor,
    })
}

// Reads the flow mod that empties a table, where it did not go out yet.
fn wiping<'a>(next: usize, cursor: Cursor) -> Option<NextDraft<'a>>
    ensures none { IfNone result (drop next (wipe ∷ []) ≡ []) }
    ensures some { IfSome result (λ x. drop next (wipe ∷ []) ≡ drafted x.draft ∷ drop (next + 1) (wipe ∷ [])) }
{
    if next > 0 {
        return None;
    }
    Some(NextDraft {
        draft: Draft::Wipe,
        cursor,
    })
}

// Which rows of a port come or go in a phase.
fn share_in(phase: Phase) -> Share
    ensures { result ≡ share_in phase }
{
    match phase {
        Phase::Flip(_, round) => Share::Round(round),
        Phase::Tidy(_) => Share::Ingress,
        Phase::Sweep(_, _) => Share::Internal,
        _ => Share::Bulk,
    }
}

// The rows of the policy that comes in.
fn coming_in(versions: &[Rows], phase: Phase) -> Option<&Rows>
    ensures { option_map (λ r. r.now) result ≡ coming_in versions.now phase }
{
    match phase {
        Phase::Install(policy) => version_at(versions, policy),
        Phase::Flip(policy, _) => version_at(versions, policy),
        _ => None,
    }
}

// The rows of the policy that goes.
fn going_in(versions: &[Rows], phase: Phase) -> Option<&Rows>
    ensures { option_map (λ r. r.now) result ≡ going_in versions.now phase }
{
    match phase {
        Phase::Flip(policy, _) => version_at(versions, policy.saturating_sub(1)),
        Phase::Clean(policy) => version_at(versions, policy.saturating_sub(1)),
        Phase::Tidy(policy) => version_at(versions, policy.saturating_sub(1)),
        Phase::Sweep(_, policy) => version_at(versions, policy),
        _ => None,
    }
}

// The rows of a policy, if there is one: policies are numbered from 1.
pub(crate) fn version_at(versions: &[Rows], policy: usize) -> Option<&Rows>
    ensures { option_map (λ r. r.now) result ≡ version_at versions.now policy }
{
    if policy == 0 {
        return None;
    }
    versions.get(policy - 1)
}

// Each cursor goes to the front of the batch that begins.
pub(crate) fn begin_all(cursors: &mut [Cursor], spans: &[Span])
    requires { length spans.now ≡ length cursors.old }
    ensures count { length cursors.new ≡ length cursors.old }
    ensures front { (k : ℕ) (x : CursorValue) (span : SpanValue) → slice_get cursors.new k ≡ Some x →
        slice_get spans.now k ≡ Some span → x ≡ cursor_at span }
{
    for (place, span) in spans.iter().enumerate() {
        cursors[place] = Cursor::new(*span);
    }
}

// The cursor of a switch whose features are heard goes to the front of its batch, where the batch is due.
pub(crate) fn begin_again(
    cursors: &mut [Cursor],
    place: usize,
    span: Span,
    answer: &Move,
    due: bool,
)
    requires { place < length cursors.old }
    ensures { cursors.new ≡ begun_again due answer.now place span cursors.old }
{
    if due && matches!(answer, Move::Up) {
        cursors[place] = Cursor::new(span);
    }
}
