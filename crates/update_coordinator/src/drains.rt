//! The policies that drain, and those of which the report is waited for.
//!
//! Layer: updates; private. Called by `planned`.
ghost use Rattle.std.specs.Prelude.{◌≡◌, ◌↔◌, ◌-◌, ℕ, [], IsTrue, None, Some, IfSome, OnOk, OnErr, option_map};
ghost use Rattle.update_coordinator.specs.Batches.{between, draining_in};
ghost use Rattle.update_coordinator.specs.Calls.{has_stamp, is_stamp, leaving};

use crate::coordinator::Coordinator;
use crate::phase::Phase;
use crate::refusal::Refusal;
use nk_values::Rows;

impl Coordinator {
    ghost use Rattle.update_coordinator.specs.Calls.{drained, draining, drain_refusal, refusal_of, stamps};

    /// The stamps of the policies, in their order.
    pub fn stamps(&self) -> &[u16]
        ensures { result.now ≡ stamps self.now }
    {
        &self.stamps
    }

    /// The stamps that drain, the oldest first.
    pub fn draining(&self) -> &[u16]
        ensures list { result.now ≡ draining self.now }
        // Without overlap there are none.
        ensures none { self.now.overlap ≡ None → result.now ≡ [] }
    {
        draining_in(&self.stamps, self.swept, self.phase)
    }

    /// The stamp of which the report is waited for that no packet carries it any more.
    pub fn leaving(&self) -> Option<u16>
        ensures some { IfSome result (λ stamp. drain_refusal self.now stamp ≡ None) }
        ensures only { (stamp : ℕ) → drain_refusal self.now stamp ≡ None → result ≡ Some stamp }
    {
        if self.halt.is_some() {
            return None;
        }
        stamp_of(leaving_in(self.overlap, self.swept, self.phase, &self.versions))
    }

    /// Whether the report that no packet carries this stamp any more is waited for.
    pub fn may_drain(&self, stamp: u16) -> bool
        ensures { IsTrue result ↔ (drain_refusal self.now stamp ≡ None) }
    {
        self.leaving() == Some(stamp)
    }

    /// Takes the report that no packet carries this stamp any more.
    pub fn drained(&mut self, stamp: u16) -> Result<(), Refusal>
        ensures refused { refusal_of result ≡ drain_refusal self.old stamp }
        ensures ok { OnOk result (self.new ≡ drained self.old) }
        ensures err { OnErr result (self.new ≡ self.old) }
    {
        if self.halt.is_some() {
            return Err(Refusal::Halted);
        }
        let known = leaving_in(self.overlap, self.swept, self.phase, &self.versions);
        if !is_stamp(known, stamp) {
            return Err(Refusal::NotDraining);
        }
        match self.phase {
            Phase::Drain(policy) => self.enter(Phase::Clean(policy)),
            Phase::Idle(policy) => self.enter(Phase::Sweep(policy, self.swept + 1)),
            _ => {}
        }
        Ok(())
    }

    // Whether a stamp is left for the policy after this one.
    pub(crate) fn has_stamp(&self, policy: usize) -> bool
        ensures { result ≡ has_stamp self.now.overlap (policy - self.now.swept) }
    {
        match self.overlap {
            None => true,
            Some(stamps) => policy.saturating_sub(self.swept) < usize::from(stamps),
        }
    }
}

// The policy of which the report is waited for that no packet carries its stamp.
fn leaving_in(overlap: Option<u16>, swept: usize, phase: Phase, versions: &[Rows]) -> Option<&Rows>
    ensures { option_map (λ v. v.now) result ≡ leaving overlap swept phase versions.now }
{
    match phase {
        Phase::Drain(policy) => versions.get(policy.saturating_sub(2)),
        Phase::Idle(policy) => match overlap {
            None => None,
            Some(_) => between(versions, swept, policy).get(0),
        },
        _ => None,
    }
}

// Of a list with an element for each policy, those of the policies that drain.
pub(crate) fn draining_in<T>(items: &[T], swept: usize, phase: Phase) -> &[T]
    ensures { result.now ≡ draining_in items.now swept phase }
{
    match phase {
        Phase::Opening | Phase::Drain(_) | Phase::Clean(_) => &[],
        Phase::Idle(i) | Phase::Tidy(i) | Phase::Sweep(i, _) => between(items, swept, i),
        Phase::Install(i) | Phase::Flip(i, _) => between(items, swept, i.saturating_sub(1)),
    }
}

// Those of the policies before this one that are not swept.
fn between<T>(items: &[T], swept: usize, policy: usize) -> &[T]
    ensures { result.now ≡ between items.now swept policy }
{
    let (before, _) = items.split_at(policy.saturating_sub(1).min(items.len()));
    let (_, rest) = before.split_at(swept.min(before.len()));
    rest
}

// Whether this is a policy's stamp.
fn is_stamp(known: Option<&Rows>, stamp: u16) -> bool
    ensures { result ≡ is_stamp (option_map (λ v. v.now) known.entry) stamp }
{
    match known {
        Some(v) => v.stamp == stamp,
        None => false,
    }
}

// A policy's stamp, if there is one.
fn stamp_of(known: Option<&Rows>) -> Option<u16>
    ensures { result ≡ option_map (λ v. v.now.stamp) known.entry }
{
    match known {
        Some(v) => Some(v.stamp),
        None => None,
    }
}
