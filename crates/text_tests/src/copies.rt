//! A term with each form, copied.
//!
//! Layer: tests; private. Its tests are run by `rt test`.
use nk_syntax::{Pol, Pols, Pred, Preds};
use nk_values::{Field, Lit};
use std::alloc::{AllocError, Global};
use std::test::Fail;

// `(not (skip + pt=1); pt:=2; dup)*`, the predicate as one conjunction.
fn every_form(alloc: Global, test: Lit, assigned: Lit) -> Result<Pol, AllocError> {
    let either = Preds {
        items: vec![in alloc; Pred::One, Pred::Test(test)]?,
    };
    let both = Preds {
        items: vec![in alloc; Pred::Or(either), Pred::Zero]?,
    };
    let not = Pred::Not(Box::new(alloc, Pred::And(both))?);
    let steps = Pols {
        items: vec![in alloc; Pol::Filter(not), Pol::Assign(assigned), Pol::Dup]?,
    };
    let sum = Pols {
        items: vec![in alloc; Pol::Seq(steps)]?,
    };
    Ok(Pol::Star(Box::new(alloc, Pol::Sum(sum))?))
}

#[test]
fn copies(rt: HostRuntime) -> Result<(), Fail> {
    let test = Lit::new(Field::Pt, 1).ok_or("no literal")?;
    let assigned = Lit::new(Field::Pt, 2).ok_or("no literal")?;
    let pol = every_form(rt.alloc(), test, assigned)?;
    let copy = pol.copy(rt.alloc())?;
    assert!(rt; matches!(&copy, Pol::Star(_)));
    Ok(())
}
