//! Pairs of field and value, which most of a policy's text is.
//!
//! Layer: texts that are read; private. Called by `operands` and `pairing`.
ghost use Rattle.std.specs.Prelude.{◌≡◌, false, IfSome};
ghost use Rattle.nk_syntax.specs.Views.{term_of};
ghost use Rattle.nk_values.specs.Lits.{lit_field, lit_value};
ghost use Rattle.netkat_parser.specs.Going.{made};
ghost use Rattle.netkat_parser.specs.Cuts.{relation, IsPairAt, IsSignAhead, IsSignAt, IsValueAhead};
ghost use Rattle.netkat_parser.specs.declared.sign.Sign.TheVariants.{Name};

use crate::number::literal;
use crate::sign::Sign;
use crate::stage::Operator;
use crate::token::{behind, run_at, sign_at, skip};
use nk_syntax::{Pol, Pred};
use nk_values::{Field, Lit};

/// A pair of field and value: whether it is a test or an assignment, its literal, and how many bytes it has.
#[derive(Clone, Copy, Debug)]
pub struct Pair {
    pub operator: Operator,
    pub lit: Lit,
    pub len: usize,
}

/// The pair at the front of a text, unless what follows the text may change it.
pub fn pair_at(text: &[u8]) -> Option<Pair>
    ensures { IfSome result (λ p. IsPairAt text.now p) }
{
    let (field, name) = name_at(text)?;
    let (operator, mark) = relation_ahead(behind(text, name))?;
    let (lit, value) = value_ahead(field, behind(text, name + mark))?;
    Some(Pair {
        operator,
        lit,
        len: name + mark + value,
    })
}

/// The next sign, and how many bytes reach to its end, unless what follows the text may change it.
#[inline(always)]
pub fn sign_ahead(text: &[u8]) -> Option<(Sign, usize)>
    ensures { IfSome result (λ x. IsSignAhead text.now x.0 x.1) }
{
    let (blanks, _) = skip(false, text);
    let (sign, len) = sign_at(behind(text, blanks), false)?;
    Some((sign, blanks + len))
}

// The field whose name stands at the front, and how many bytes the name has.
fn name_at(text: &[u8]) -> Option<(Field, usize)>
    ensures { IfSome result (λ x. IsSignAt text.now false (Name x.0) x.1) }
{
    match sign_at(text, false) {
        Some((Sign::Name(field), len)) => Some((field, len)),
        _ => None,
    }
}

// `=` or `:=`, if it is the next sign.
fn relation_ahead(text: &[u8]) -> Option<(Operator, usize)>
    ensures { IfSome result (λ x. IsSignAhead text.now (relation x.0) x.1) }
{
    match sign_ahead(text) {
        Some((Sign::Equals, len)) => Some((Operator::Test, len)),
        Some((Sign::Becomes, len)) => Some((Operator::Assign, len)),
        _ => None,
    }
}

// The literal that the next run writes.
fn value_ahead(field: Field, text: &[u8]) -> Option<(Lit, usize)>
    ensures { IfSome result (λ x. IsValueAhead field text.now x.0 x.1) }
{
    let (blanks, _) = skip(false, text);
    let rest = behind(text, blanks);
    let len = run_at(rest, false)?;
    let lit = literal(field, &rest[..len])?;
    Some((lit, blanks + len))
}

/// The policy of a pair.
pub fn policy_of(operator: Operator, lit: Lit) -> Pol
    ensures { term_of result ≡ made operator (lit_field lit) (lit_value lit) }
{
    match operator {
        Operator::Test => Pol::Filter(Pred::Test(lit)),
        Operator::Assign => Pol::Assign(lit),
    }
}
