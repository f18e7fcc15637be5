//! Sums of summands, made test by test from the last to the first: a test takes one fork.
//!
//! Layer: diagrams; private. Called by `build` and `filters`.
ghost use Rattle.std.specs.Prelude.{◌≡◌, ◌<◌, ◌≤◌, ◌-◌, ◌∷◌, IfOk, IsTrue, length, map, take, drop};
ghost use Rattle.fdd_nodes.specs.Normals.{IsNormal};
ghost use Rattle.fdd_store.specs.Stores.{Has, Grows, Gives, tree_at};
ghost use Rattle.fdd_compile.specs.Folds.{AreSmall, UnionOfAll};
ghost use Rattle.fdd_compile.specs.Sums.{AreThere, HaveAt, HaveNoneAt, below_of, left_of};

use crate::bare::bare;
use crate::summand::Summand;
use fdd_store::{Id, Look, Store};
use nk_values::Lit;
use std::alloc::{AllocError, Global};
use std::cmp::Ordering;

/// The sum of several summands.
pub(crate) fn summed(
    alloc: Global,
    store: &mut Store,
    mut summands: Vec<Summand>,
) -> Result<Id, AllocError>
    requires there { AreThere store.old summands.items }
    requires small { AreSmall (map (left_of 0 store.old) summands.items) }
    ensures grows { Grows store.old store.new }
    ensures place { IfOk result (λ r. Gives store.new r (UnionOfAll (map (left_of 0 store.old) summands.items))) }
{
    summands.sort_unstable_by(|a, b| order(a, b));
    swept(alloc, store, &summands, 0)
}

// Summands whose tests begin alike stand together, those with no more tests first, and then those with later tests
// first.
fn order(a: &Summand, b: &Summand) -> Ordering {
    let (xs, ys) = (a.tests.as_slice(), b.tests.as_slice());
    for (x, y) in xs.iter().zip(ys.iter()) {
        if !x.is(y) {
            return y.rank().cmp(&x.rank());
        }
    }
    if xs.len() == ys.len() {
        return a.below.place().cmp(&b.below.place());
    }
    xs.len().cmp(&ys.len())
}

// The sum of summands that are sorted, without their first tests.
//
// Those that come after the first test of the others are summed first. Joined to those, each would have to pass it.
#[cycle(swept)]
fn swept(
    alloc: Global,
    store: &mut Store,
    summands: &[Summand],
    from: usize,
) -> Result<Id, AllocError>
    requires there { AreThere store.old summands.now }
    requires small { AreSmall (map (left_of from store.old) summands.now) }
    ensures grows { Grows store.old store.new }
    ensures place { IfOk result (λ r. Gives store.new r (UnionOfAll (map (left_of from store.old) summands.now))) }
{
    let (whole, led) = summands.split_at(whole_count(summands, from));
    let rest = bare(alloc, store, whole)?;
    if led.is_empty() {
        return Ok(rest);
    }
    let zero = store.zero(alloc)?;
    let (late, early) = led.split_at(late_count(store, led, from, rest));
    let sum = sweep(alloc, store, late, from, zero)?;
    let base = store.union(alloc, sum, rest)?;
    sweep(alloc, store, early, from, base)
}

// How many summands at the front have no more tests.
fn whole_count(summands: &[Summand], from: usize) -> usize
    ensures most { result ≤ length summands.now }
    ensures none { HaveNoneAt from (take result summands.now) }
{
    for (i, summand) in summands.iter().enumerate() {
        if summand.test(from).is_some() {
            return i;
        }
    }
    summands.len()
}

// How many summands, which are sorted, do not come before the first test of a diagram.
fn late_count(store: &Store, summands: &[Summand], from: usize, rest: Id) -> usize
    requires { Has store.now rest }
    ensures { result ≤ length summands.now }
{
    let Look::Fork(root, _, _) = store.look(rest) else {
        return 0;
    };
    for (i, summand) in summands.iter().enumerate() {
        if let Some(test) = summand.test(from) {
            if test.precedes(&root) {
                return i;
            }
        }
    }
    summands.len()
}

// The sum of a diagram and summands. It takes least if summands with later tests come first.
#[cycle(swept)]
fn sweep(
    alloc: Global,
    store: &mut Store,
    summands: &[Summand],
    from: usize,
    rest: Id,
) -> Result<Id, AllocError>
    requires there { AreThere store.old summands.now }
    requires rest { Gives store.old rest IsNormal }
    requires small { AreSmall (tree_at store.old rest ∷ map (left_of from store.old) summands.now) }
    ensures grows { Grows store.old store.new }
    ensures place { IfOk result
        (λ r. Gives store.new r (UnionOfAll (tree_at store.old rest ∷ map (left_of from store.old) summands.now))) }
{
    let mut whole = rest;
    let mut start = 0;
    while start < summands.len() {
        let test = summands[start].test(from);
        let end = run_end(summands, start, from, &test);
        whole = closed(alloc, store, &summands[start..end], from, test, whole)?;
        start = end;
    }
    Ok(whole)
}

// Where summands end that have the test of the first one.
fn run_end(summands: &[Summand], start: usize, from: usize, test: &Option<Lit>) -> usize
    requires start { start < length summands.now }
    requires test { HaveAt from test.now (take 1 (drop start summands.now)) }
    ensures more { start < result }
    ensures most { result ≤ length summands.now }
    ensures alike { HaveAt from test.now (take (result - start) (drop start summands.now)) }
{
    let mut end = start + 1;
    while end < summands.len() && is_same(&summands[end].test(from), test) {
        end += 1;
    }
    end
}

fn is_same(a: &Option<Lit>, b: &Option<Lit>) -> bool
    ensures { IsTrue result → a.now ≡ b.now }
{
    match (a, b) {
        (None, None) => true,
        (Some(l), Some(m)) => l.is(m),
        _ => false,
    }
}

// The sum of a diagram and summands that have a test in common, or no more tests.
#[cycle(swept)]
fn closed(
    alloc: Global,
    store: &mut Store,
    run: &[Summand],
    from: usize,
    test: Option<Lit>,
    whole: Id,
) -> Result<Id, AllocError>
    requires some { 0 < length run.now }
    requires test { HaveAt from test run.now }
    requires there { AreThere store.old run.now }
    requires whole { Gives store.old whole IsNormal }
    requires small { AreSmall (tree_at store.old whole ∷ map (left_of from store.old) run.now) }
    ensures grows { Grows store.old store.new }
    ensures place { IfOk result
        (λ r. Gives store.new r (UnionOfAll (tree_at store.old whole ∷ map (left_of from store.old) run.now))) }
{
    match test {
        Some(test) => {
            let sum = swept(alloc, store, run, run[0].next(from))?;
            store.join(alloc, test, sum, whole)
        }
        None => {
            let sum = bare(alloc, store, run)?;
            store.union(alloc, whole, sum)
        }
    }
}
