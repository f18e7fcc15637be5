//! Reading goes on by a pair and the sign after it.
//!
//! Layer: texts that are read; private. Adds calls to `Reading`.
ghost use Rattle.std.specs.Prelude.{◌≡◌, ◌≢◌, ◌≤◌, Bool, true, false, Ok, length, drop, reverse, IsTrue, IfSome};
ghost use Rattle.std.specs.Prelude.{IfNone};
ghost use Rattle.netkat_parser.specs.declared.sign.Sign.{Sign as Token};
ghost use Rattle.netkat_parser.specs.declared.sign.Sign.TheVariants.{End, Close};
ghost use Rattle.netkat_parser.specs.declared.stage.Operator.TheVariants as to;
ghost use Rattle.netkat_parser.specs.declared.stage.Stage.TheVariants as stage;
ghost use Rattle.netkat_parser.specs.Views.{view_of, at, GoesOn, TakesPair};
ghost use Rattle.netkat_parser.specs.Standing.{Leaves, Steps};

use crate::pair::{Pair, pair_at, policy_of, sign_ahead};
use crate::reading::{Level, Reading};
use crate::sign::Sign;
use crate::stage::{Operator, Stage};
use crate::token::behind;
use nk_syntax::Pol;
use std::alloc::Global;

impl Reading {
    /// Takes a pair and a `;` or `+` after it, if they stand at the front, and tells how many bytes that were. A pair
    /// at fault is not taken, and then nothing changes.
    pub fn pair(&mut self, alloc: Global, text: &[u8]) -> Option<usize>
        ensures some { IfSome result
            (λ n. (end : Bool) → Steps (view_of self.old) text.now end (view_of self.new) (Ok n)) }
        ensures none { IfNone result (view_of self.new ≡ view_of self.old) }
    {
        match &self.stage {
            Stage::Operand => {}
            _ => return None,
        }
        let pair = pair_at(text)?;
        let pol = self.operand_of(pair)?;
        let more = self.follow(alloc, pol, behind(text, pair.len));
        Some(pair.len + more)
    }

    // The operand that a pair is, which is named now. None if the pair is at fault or memory runs out.
    fn operand_of(&mut self, pair: Pair) -> Option<Pol>
        requires { self.old.stage ≡ stage.Operand }
        ensures some { IfSome result
            (λ pol. TakesPair (view_of self.old) pair.operator pair.lit (at self.new (stage.Behind pol true))) }
        ensures none { IfNone result (view_of self.new ≡ view_of self.old) }
        ensures stage { self.new.stage ≡ stage.Operand }
    {
        if !self.allows(pair.operator) {
            return None;
        }
        match self.named.name(pair.lit) {
            Ok(true) => Some(policy_of(pair.operator, pair.lit)),
            Ok(false) | Err(_) => None,
        }
    }

    // Whether a pair may stand here: no assignment does inside a `not`.
    fn allows(&self, operator: Operator) -> bool
        ensures { IsTrue result → operator ≡ to.Assign → self.now.inside ≡ false }
    {
        match operator {
            Operator::Test => true,
            Operator::Assign => !self.inside,
        }
    }

    // Takes the `;` or `+` after an operand, and tells how many bytes reach to its end. If there is none, the
    // operand stays in the stage.
    fn follow(&mut self, alloc: Global, pol: Pol, text: &[u8]) -> usize
        requires { self.old.stage ≡ stage.Operand }
        ensures within { result ≤ length text.now }
        ensures leaves { (end : Bool) →
            Leaves (at self.old (stage.Behind pol true)) false text.now end (view_of self.new) false
            (drop result text.now) }
    {
        let joins = self.chain.reserve().is_ok() && self.goes_on();
        match sign_ahead(text) {
            Some((Sign::Semicolon, len)) if joins => {
                self.chain.factor(pol);
                len
            }
            Some((Sign::Plus, len)) if joins => {
                self.chain.summand(alloc, pol);
                len
            }
            _ => {
                self.stage = Stage::Behind(pol, true);
                0
            }
        }
    }

    // Whether no `not` ends after an operand.
    fn goes_on(&self) -> bool
        ensures { IsTrue result → (g : Token) → g ≢ End → g ≢ Close → GoesOn (reverse self.now.levels.items) g }
    {
        match self.levels.last() {
            Some(Level::Not(_)) => false,
            _ => true,
        }
    }
}
