//! The header fields that copies set and their path does not fix.
//!
//! Layer: rows and packets; private. Called by `order` and `pairs`.
ghost use Rattle.std.specs.Prelude.{◌≡◌, ◌<◌, ◌^◌, length};
ghost use Rattle.leaf_actions.specs.Changes.{changes, fixes, count_of, change_count, goes_beyond, first_of_fields};
ghost use Rattle.leaf_actions.specs.Changes.{first_beyond};

use crate::moves::moves;
use fdd_nodes::{Assignments, Cell};
use nk_values::Field;

/// The header fields that actions set, in field order.
pub(crate) const SETTABLE: [Field; 6] = [
    Field::EthSrc,
    Field::EthDst,
    Field::Ip4Src,
    Field::Ip4Dst,
    Field::TcpSrcPort,
    Field::TcpDstPort,
];

// Whether a field is open in a cell, and set by a copy.
fn changes(cell: &Cell, copy: &Assignments, f: Field) -> bool
    ensures { result ≡ changes cell.now copy.now f }
{
    fixes(cell, &cell.after(copy), f)
}

// Whether a field is open in a cell, and fixed in a later one.
fn fixes(cell: &Cell, later: &Cell, f: Field) -> bool
    ensures { result ≡ fixes cell.now later.now f }
{
    cell.is_unset(f) && !later.is_unset(f)
}

// How many header fields are open in a cell and set by a copy.
pub(crate) fn change_count(cell: &Cell, copy: &Assignments) -> u64
    ensures { result ≡ change_count cell.now copy.now }
{
    if moves(copy.lits()) {
        return 0;
    }
    count_in(cell, &cell.after(copy), &SETTABLE)
}

fn count_in(cell: &Cell, later: &Cell, fields: &[Field]) -> u64
    requires { length fields.now < 2 ^ 32 }
    ensures { result ≡ count_of (fixes cell.now later.now) fields.now }
{
    let mut count = 0;
    for f in fields {
        if fixes(cell, later, *f) {
            count += 1;
        }
    }
    count
}

// The first header field that one copy changes and another does not.
pub(crate) fn first_beyond(cell: &Cell, a: &Assignments, b: &Assignments) -> Option<Field>
    ensures { result ≡ first_beyond cell.now a.now b.now }
{
    first_in(cell, a, b, &SETTABLE)
}

fn first_in(cell: &Cell, a: &Assignments, b: &Assignments, fields: &[Field]) -> Option<Field>
    ensures { result ≡ first_of_fields (goes_beyond cell.now a.now b.now) fields.now }
{
    for f in fields {
        if goes_beyond(cell, a, b, *f) {
            return Some(*f);
        }
    }
    None
}

// Whether a copy changes a field that another does not.
fn goes_beyond(cell: &Cell, a: &Assignments, b: &Assignments, f: Field) -> bool
    ensures { result ≡ goes_beyond cell.now a.now b.now f }
{
    changes(cell, a, f) && !changes(cell, b, f)
}
