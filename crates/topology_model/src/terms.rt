//! The policies from which the terms of a topology are made.
//!
//! Layer: values and policies; private. Called by `terms`.
ghost use Rattle.std.specs.Prelude.{◌≡◌, IfOk};
ghost use Rattle.nk_values.specs.Ranges.{IsLiteralOf};
ghost use Rattle.nk_values.specs.Lits.{lit_field, lit_value};
ghost use Rattle.nk_syntax.specs.Terms.{Filter, Test, Assign};
ghost use Rattle.nk_syntax.specs.Views.{term_of};
ghost use Rattle.history_meaning.specs.Network.{at, along};
ghost use Rattle.topology_model.specs.Layouts.{location_of};
ghost use Rattle.topology_model.specs.Lines.{IsEnd};

use crate::line::PortRef;
use nk_syntax::{Pol, Pols, Pred};
use nk_values::{Field, Lit};
use std::alloc::{AllocError, Global};

// The literal of a number in its field's range.
fn literal(field: Field, number: u16) -> Lit
    requires { IsLiteralOf field number }
    ensures field { lit_field result ≡ field }
    ensures value { lit_value result ≡ number }
{
    match Lit::new(field, u64::from(number)) {
        Some(lit) => lit,
        None => unreachable!(),
    }
}

fn test(field: Field, number: u16) -> Pol
    requires { IsLiteralOf field number }
    ensures { term_of result ≡ Filter (Test field number) }
{
    Pol::Filter(Pred::Test(literal(field, number)))
}

fn assign(field: Field, number: u16) -> Pol
    requires { IsLiteralOf field number }
    ensures { term_of result ≡ Assign field number }
{
    Pol::Assign(literal(field, number))
}

/// `sw=a; pt=b`
#[tactic(auto, using(crate::proofs::Rows::rows))]
pub fn standing_at(alloc: Global, end: PortRef) -> Result<Pol, AllocError>
    requires { IsEnd end }
    ensures { IfOk result (λ p. term_of p ≡ at (location_of end)) }
{
    let items = Vec::from_array(alloc, [test(Field::Sw, end.0), test(Field::Pt, end.1)])?;
    Ok(Pol::Seq(Pols { items }))
}

/// `sw=a; pt=b; sw:=c; pt:=d`
#[tactic(auto, using(crate::proofs::Rows::rows))]
pub fn going(alloc: Global, from: PortRef, to: PortRef) -> Result<Pol, AllocError>
    requires from { IsEnd from }
    requires to { IsEnd to }
    ensures { IfOk result (λ p. term_of p ≡ along (location_of from, location_of to)) }
{
    let items = Vec::from_array(
        alloc,
        [
            test(Field::Sw, from.0),
            test(Field::Pt, from.1),
            assign(Field::Sw, to.0),
            assign(Field::Pt, to.1),
        ],
    )?;
    Ok(Pol::Seq(Pols { items }))
}
