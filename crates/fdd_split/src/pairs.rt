//! Where two copies of a leaf give one packet.
//!
//! Layer: diagrams; private. Called by `leaves` and `threats`.
ghost use Rattle.std.specs.Prelude.{IsTrue, IsFalse, List};
ghost use Rattle.nk_values.specs.declared.lit.Lit.{Lit};
ghost use Rattle.nk_values.specs.Lits.{lit_field};
ghost use Rattle.nk_values.specs.Members.{IsIn};
ghost use Rattle.fdd_nodes.specs.Copies.{IsCopy};
ghost use Rattle.fdd_split.specs.Pairs.{TellsMeeting, IsAfterAlone, IsEarlier, MeetsSome};
ghost use Rattle.fdd_split.specs.Threats.{KeepsField};

use crate::barring::are_barring;
use crate::bars::Bar;
use fdd_nodes::Assignments;
use nk_values::Lit;

/// Where two copies give one packet: nowhere, everywhere, or where some literals hold, of which the first is told.
#[derive(Clone, Copy)]
pub(crate) enum Meeting {
    Never,
    Always,
    Where(Lit),
}

/// Where two copies give one packet, of the packets that hold nothing barred.
pub(crate) fn meet(bars: &[Bar], c: &[Lit], d: &[Lit]) -> Meeting
    ensures { TellsMeeting bars.now c.now d.now result }
{
    match c {
        [] => match d {
            [] => Meeting::Always,
            [m, ds @ ..] => alone(bars, m, meet(bars, c, ds)),
        },
        [l, cs @ ..] => match d {
            [] => alone(bars, l, meet(bars, cs, d)),
            [m, ds @ ..] => {
                if l.field().place() < m.field().place() {
                    alone(bars, l, meet(bars, cs, d))
                } else if m.field().place() < l.field().place() {
                    alone(bars, m, meet(bars, c, ds))
                } else if l.value() == m.value() {
                    meet(bars, cs, ds)
                } else {
                    Meeting::Never
                }
            }
        },
    }
}

// The same, where just one of the copies assigns an earlier literal.
fn alone(bars: &[Bar], l: &Lit, rest: Meeting) -> Meeting
    ensures { IsAfterAlone bars.now l.now rest result }
{
    match rest {
        Meeting::Never => Meeting::Never,
        Meeting::Always | Meeting::Where(_) => {
            if are_barring(bars, l) {
                Meeting::Never
            } else {
                Meeting::Where(*l)
            }
        }
    }
}

/// The first of two literals, if there are any.
pub(crate) fn first_of(a: Option<Lit>, b: Option<Lit>) -> Option<Lit>
    ensures { IsEarlier a b result }
{
    match a {
        None => b,
        Some(l) => match b {
            None => a,
            Some(m) => { if m.precedes(&l) { b } else { a } }
        },
    }
}

/// Whether a copy gives one packet with some of others, each of which leaves a field that it assigns.
pub(crate) fn meets_some(bars: &[Bar], c: &[Lit], others: &[Assignments]) -> bool
    requires { IsCopy c.now }
    ensures some { IsTrue result → MeetsSome bars.now c.now others.now }
    ensures none { (x : Lit) → IsIn c.now x → ((d : List Lit) → IsIn others.now d → KeepsField d (lit_field x)) →
        IsFalse result → ¬ MeetsSome bars.now c.now others.now }
{
    for d in others {
        match meet(bars, c, d.lits()) {
            Meeting::Where(_) => return true,
            Meeting::Never | Meeting::Always => {}
        }
    }
    false
}
