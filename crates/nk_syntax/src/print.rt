//! The printed forms of predicates and policies.
//!
//! Layer: values and policies; private. Adds calls to `Pol` and `Pred`.
ghost use Rattle.std.specs.Prelude.{◌≡◌, ◌++◌, OnOk, IfOk, map, string_bytes, decimal};
ghost use Rattle.nk_syntax.specs.Views.{guard_of, guard_row, term_of, term_row};
ghost use Rattle.nk_values.specs.Lits.{lit_field, lit_value};
ghost use Rattle.nk_syntax.specs.Prints.{pair_text, guard_text, guards_text, term_text, terms_text};

use crate::pol::Pol;
use crate::pred::Pred;
use nk_values::Lit;
use std::alloc::{AllocError, Global};

impl Pred {
    /// The predicate as text: `skip`, `drop`, `f=n` with n in decimal, `(a + b + c)`,
    /// `(a; b; c)`, `not (a)`.
    pub fn print(&self, alloc: Global) -> Result<String, AllocError>
        ensures { IfOk result (λ s. string_bytes s ≡ guard_text (guard_of self.now)) }
    {
        let mut out = String::new(alloc);
        print_pred(alloc, &mut out, self)?;
        Ok(out)
    }
}

impl Pol {
    /// The policy as text: a filter as its predicate, `f:=n` with n in decimal, `(p + q + r)`,
    /// `(p; q; r)`, `(p)*`, `dup`.
    pub fn print(&self, alloc: Global) -> Result<String, AllocError>
        ensures { IfOk result (λ s. string_bytes s ≡ term_text (term_of self.now)) }
    {
        let mut out = String::new(alloc);
        print_pol(alloc, &mut out, self)?;
        Ok(out)
    }
}

// Puts the predicate's text at the end.
#[cycle(print)]
fn print_pred(alloc: Global, out: &mut String, pred: &Pred) -> Result<(), AllocError>
    ensures { OnOk result (string_bytes out.new ≡ string_bytes out.old ++ guard_text (guard_of pred.now)) }
{
    match pred {
        Pred::One => out.push_str("skip"),
        Pred::Zero => out.push_str("drop"),
        Pred::Test(lit) => print_pair(alloc, out, lit, "="),
        Pred::Or(preds) => {
            out.push_str("(")?;
            print_preds(alloc, out, " + ", &preds.items)?;
            out.push_str(")")
        }
        Pred::And(preds) => {
            out.push_str("(")?;
            print_preds(alloc, out, "; ", &preds.items)?;
            out.push_str(")")
        }
        Pred::Not(pred) => {
            out.push_str("not (")?;
            print_pred(alloc, out, pred)?;
            out.push_str(")")
        }
    }
}

// Puts the texts of predicates at the end, with this between them.
#[cycle(print)]
fn print_preds(
    alloc: Global,
    out: &mut String,
    between: &str,
    preds: &[Pred],
) -> Result<(), AllocError>
    ensures { OnOk result (string_bytes out.new ≡ string_bytes out.old ++ guards_text between.now
        (guard_row (map guard_of preds.now))) }
{
    let Some((first, more)) = preds.split_first() else {
        return Ok(());
    };
    print_pred(alloc, out, first)?;
    for pred in more {
        out.push_str(between)?;
        print_pred(alloc, out, pred)?;
    }
    Ok(())
}

// Puts the policy's text at the end.
#[cycle(print_pol)]
fn print_pol(alloc: Global, out: &mut String, pol: &Pol) -> Result<(), AllocError>
    ensures { OnOk result (string_bytes out.new ≡ string_bytes out.old ++ term_text (term_of pol.now)) }
{
    match pol {
        Pol::Filter(pred) => print_pred(alloc, out, pred),
        Pol::Assign(lit) => print_pair(alloc, out, lit, ":="),
        Pol::Sum(pols) => {
            out.push_str("(")?;
            print_pols(alloc, out, " + ", &pols.items)?;
            out.push_str(")")
        }
        Pol::Seq(pols) => {
            out.push_str("(")?;
            print_pols(alloc, out, "; ", &pols.items)?;
            out.push_str(")")
        }
        Pol::Star(pol) => {
            out.push_str("(")?;
            print_pol(alloc, out, pol)?;
            out.push_str(")*")
        }
        Pol::Dup => out.push_str("dup"),
    }
}

// Puts the texts of policies at the end, with this between them.
#[cycle(print_pol)]
fn print_pols(
    alloc: Global,
    out: &mut String,
    between: &str,
    pols: &[Pol],
) -> Result<(), AllocError>
    ensures { OnOk result (string_bytes out.new ≡ string_bytes out.old ++ terms_text between.now
        (term_row (map term_of pols.now))) }
{
    let Some((first, more)) = pols.split_first() else {
        return Ok(());
    };
    print_pol(alloc, out, first)?;
    for pol in more {
        out.push_str(between)?;
        print_pol(alloc, out, pol)?;
    }
    Ok(())
}

// Puts a field, a sign and a number at the end.
fn print_pair(alloc: Global, out: &mut String, lit: &Lit, sign: &str) -> Result<(), AllocError>
    ensures { OnOk result (string_bytes out.new ≡ string_bytes out.old ++ pair_text (lit_field lit.now) sign.now
        (lit_value lit.now)) }
{
    out.push_str(lit.field().name())?;
    out.push_str(sign)?;
    out.push_str(&lit.value().to_string(alloc)?)
}
