//! How many literals diagrams name.
//!
//! Layer: diagrams; public. Called by diagram_tests and policy_cases.
ghost use Rattle.std.specs.Prelude.{◌≡◌, ◌↔◌, [], ◌∷◌, IsTrue, IfOk, OnOk};
ghost use Rattle.nk_values.specs.Members.{IsIn};
ghost use Rattle.fdd_nodes.specs.Fdds.{tree_of};
ghost use Rattle.fdd_nodes.specs.Names.{literals, literals_of, AreFew, IsFew, Gathers};
ghost use Rattle.fdd_nodes.specs.Paths.{IsFewOn};
ghost use Rattle.fdd_nodes.specs.Trees as trees;
ghost use Rattle.fdd_nodes.specs.Trees.{tree};

use crate::assignments::Assignments;
use crate::fdd::Fdd;
use crate::node::Node;
use crate::path::Path;
use nk_values::Lit;
use std::alloc::{AllocError, Global};

// How many literals diagrams may name together.
const MOST_LITERALS: usize = 4000;

/// Whether two diagrams name at most 4,000 literals together: what is asked of the two by those that join, compose or
/// compare them.
pub fn are_few(alloc: Global, a: &Fdd, b: &Fdd) -> Result<bool, AllocError>
    ensures { IfOk result (λ few. IsTrue few ↔ AreFew (tree_of a.now) (tree_of b.now)) }
{
    let mut names = Vec::new(alloc);
    gather(a.root(), &mut names)?;
    gather(b.root(), &mut names)?;
    Ok(names.len() <= MOST_LITERALS)
}

/// Whether a test with two diagrams below it names at most 4,000 literals: what is asked of a choice by the test.
pub fn are_few_behind(alloc: Global, l: &Lit, yes: &Fdd, no: &Fdd) -> Result<bool, AllocError>
    ensures { IfOk result (λ few. IsTrue few ↔ IsFew (trees.Node l.now (tree_of yes.now) (tree_of no.now))) }
{
    let mut names = Vec::new(alloc);
    gather_one(l, &mut names)?;
    gather(yes.root(), &mut names)?;
    gather(no.root(), &mut names)?;
    Ok(names.len() <= MOST_LITERALS)
}

/// Whether the tests of a path are at most 4,000 literals: what is asked of a path by those that look for its packets.
pub fn is_few_on(alloc: Global, path: &Path) -> Result<bool, AllocError>
    ensures { IfOk result (λ few. IsTrue few ↔ IsFewOn path.now) }
{
    let mut names = Vec::new(alloc);
    gather_all(path.trues(), &mut names)?;
    gather_all(path.falses(), &mut names)?;
    Ok(names.len() <= MOST_LITERALS)
}

// Gathers what a diagram names.
fn gather(a: &Node, names: &mut Vec<Lit>) -> Result<(), AllocError>
    ensures { OnOk result (Gathers (literals (tree a.now)) names.old.items names.new.items) }
{
    match a {
        Node::Leaf(leaf) => gather_copies(leaf.copies(), names),
        Node::Test(l, t, e) => {
            gather_one(l, names)?;
            gather(t, names)?;
            gather(e, names)
        }
    }
}

fn gather_copies(copies: &[Assignments], names: &mut Vec<Lit>) -> Result<(), AllocError>
    ensures { OnOk result (Gathers (literals_of copies.now) names.old.items names.new.items) }
{
    for c in copies {
        gather_all(c.lits(), names)?;
    }
    Ok(())
}

fn gather_all(lits: &[Lit], names: &mut Vec<Lit>) -> Result<(), AllocError>
    ensures { OnOk result (Gathers lits.now names.old.items names.new.items) }
{
    for l in lits {
        gather_one(l, names)?;
    }
    Ok(())
}

fn gather_one(l: &Lit, names: &mut Vec<Lit>) -> Result<(), AllocError>
    ensures { OnOk result (Gathers (l.now ∷ []) names.old.items names.new.items) }
{
    if !has(names, l) {
        names.push(*l)?;
    }
    Ok(())
}

fn has(names: &[Lit], l: &Lit) -> bool
    ensures { IsTrue result ↔ IsIn names.now l.now }
{
    for m in names {
        if m.is(l) {
            return true;
        }
    }
    false
}
