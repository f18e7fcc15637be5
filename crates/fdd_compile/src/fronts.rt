//! The tests at the front of sequences.
//!
//! Layer: diagrams; private. Called by `build` and `filters`.
ghost use Rattle.std.specs.Prelude.{◌≡◌, ◌≤◌, [], IfOk, IfSome, length, map, take};
ghost use Rattle.nk_values.specs.Lits.{lit_field, lit_value};
ghost use Rattle.nk_syntax.specs.Terms.{Filter, Test};
ghost use Rattle.nk_syntax.specs.Views.{guard_of, term_of};
ghost use Rattle.fdd_compile.specs.Sums.{guards_of_tests, tests_of};

use nk_syntax::{Pol, Pred};
use nk_values::Lit;
use smallvec::SmallVec;
use std::alloc::AllocError;

/// Puts the literals of the tests at the front of a sequence, and gives their number.
pub(crate) fn put_front(pols: &[Pol], tests: &mut SmallVec<Lit, 4>) -> Result<usize, AllocError>
    requires { tests.old.items ≡ [] }
    ensures most { IfOk result (λ n. n ≤ length pols.now) }
    ensures tests { IfOk result (λ n. map term_of (take n pols.now) ≡ tests_of tests.new.items) }
{
    let mut count = 0;
    for pol in pols {
        let Some(test) = test_of(pol) else {
            return Ok(count);
        };
        tests.push(test)?;
        count += 1;
    }
    Ok(count)
}

/// The literal of a policy that is a test.
pub(crate) fn test_of(pol: &Pol) -> Option<Lit>
    ensures { IfSome result (λ l. term_of pol.now ≡ Filter (Test (lit_field l) (lit_value l))) }
{
    match pol {
        Pol::Filter(pred) => match pred {
            Pred::Test(test) => Some(*test),
            _ => None,
        },
        _ => None,
    }
}

/// Puts the literals of the tests at the front of predicates in a row, and gives their number.
pub(crate) fn put_tests(preds: &[Pred], tests: &mut SmallVec<Lit, 4>) -> Result<usize, AllocError>
    requires { tests.old.items ≡ [] }
    ensures most { IfOk result (λ n. n ≤ length preds.now) }
    ensures tests { IfOk result (λ n. map guard_of (take n preds.now) ≡ guards_of_tests tests.new.items) }
{
    let mut count = 0;
    for pred in preds {
        let Some(test) = literal_of(pred) else {
            return Ok(count);
        };
        tests.push(test)?;
        count += 1;
    }
    Ok(count)
}

/// The literal of a predicate that is a test.
pub(crate) fn literal_of(pred: &Pred) -> Option<Lit>
    ensures { IfSome result (λ l. guard_of pred.now ≡ Test (lit_field l) (lit_value l)) }
{
    match pred {
        Pred::Test(test) => Some(*test),
        _ => None,
    }
}
