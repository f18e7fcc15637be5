//! What a sign does after an operand.
//!
//! Layer: texts that are read; private. Adds calls to `Reading`.
ghost use Rattle.std.specs.Prelude.{◌≡◌, ◌<◌, ◌≢◌, true, false, [], reverse, vec_len, vec_capacity};
ghost use Rattle.netkat_parser.specs.declared.sign.Sign.TheVariants as to_sign;
ghost use Rattle.netkat_parser.specs.declared.stage.Stage.TheVariants as stage;
ghost use Rattle.netkat_parser.specs.declared.reading.Level.TheVariants as level;
ghost use Rattle.netkat_parser.specs.Views.{view_of, at, within, Moves, GoesOn};
ghost use Rattle.netkat_parser.specs.Showing.{HaveRoom};
ghost use Rattle.netkat_parser.specs.declared.sign.Sign.{Sign};

use super::{Halt, Level, Reading};
use crate::chain::{Chain, pred_of, put};
use crate::sign::Sign;
use crate::stage::Stage;
use crate::stray::stray;
use nk_syntax::{Pol, Pred};
use nk_values::TextFault;
use std::alloc::Global;
use std::mem;

impl Reading {
    // The sign after an operand.
    pub(super) fn behind(
        &mut self,
        alloc: Global,
        pol: Pol,
        atom: bool,
        sign: Sign,
    ) -> Result<bool, Halt>
        ensures { Moves (at self.old (stage.Behind pol atom)) sign (view_of self.new) result }
    {
        if atom && matches!(sign, Sign::Star) {
            return self.star(alloc, pol);
        }
        if let Err(_) = self.chain.reserve() {
            self.stage = Stage::Behind(pol, atom);
            return Err(Halt::Memory);
        }
        match self.levels.pop() {
            Some(Level::Not(was)) => self.end_not(alloc, pol, atom, was),
            Some(Level::Bracket(outer)) => self.in_bracket(alloc, pol, atom, outer, sign),
            None => self.at_top(alloc, pol, atom, sign),
        }
    }

    // A star after an atom.
    fn star(&mut self, alloc: Global, pol: Pol) -> Result<bool, Halt>
        ensures { Moves (at self.old (stage.Behind pol true)) to_sign.Star (view_of self.new) result }
    {
        if self.inside {
            return Err(Halt::Fault(TextFault::NotPredicate));
        }
        match Box::new(alloc, pol) {
            Ok(pol) => {
                self.stage = Stage::Behind(Pol::Star(pol), false);
                Ok(true)
            }
            Err(failed) => {
                self.stage = Stage::Behind(failed.value, true);
                Err(Halt::Memory)
            }
        }
    }

    // Ends a `not` with its operand.
    fn end_not(&mut self, alloc: Global, pol: Pol, atom: bool, was: bool) -> Result<bool, Halt>
        requires { vec_len self.old.levels < vec_capacity self.old.levels }
        ensures { (g : Sign) → (atom ≡ true → g ≢ to_sign.Star) →
            Moves (within self.old (stage.Behind pol atom) (level.Not was)) g (view_of self.new) result }
    {
        match Box::new(alloc, pred_of(pol)) {
            Ok(pred) => {
                self.inside = was;
                self.stage = Stage::Behind(Pol::Filter(Pred::Not(pred)), false);
                Ok(false)
            }
            Err(failed) => {
                put(&mut self.levels, Level::Not(was));
                self.stage = Stage::Behind(Pol::Filter(failed.value), atom);
                Err(Halt::Memory)
            }
        }
    }

    // The sign after an operand in a bracket.
    fn in_bracket(
        &mut self,
        alloc: Global,
        pol: Pol,
        atom: bool,
        outer: Chain,
        sign: Sign,
    ) -> Result<bool, Halt>
        requires levels { vec_len self.old.levels < vec_capacity self.old.levels }
        requires room { HaveRoom self.old.chain }
        requires star { atom ≡ true → sign ≢ to_sign.Star }
        ensures { Moves (within self.old (stage.Behind pol atom) (level.Bracket outer)) sign (view_of self.new) result }
    {
        match sign {
            Sign::Close => {
                let inner = mem::replace(&mut self.chain, outer);
                self.stage = Stage::Behind(inner.policy(pol), true);
                Ok(true)
            }
            sign => {
                put(&mut self.levels, Level::Bracket(outer));
                self.chained(alloc, pol, atom, sign)
            }
        }
    }

    // The sign after an operand outside brackets.
    fn at_top(&mut self, alloc: Global, pol: Pol, atom: bool, sign: Sign) -> Result<bool, Halt>
        requires levels { self.old.levels.items ≡ [] }
        requires room { HaveRoom self.old.chain }
        requires star { atom ≡ true → sign ≢ to_sign.Star }
        ensures { Moves (at self.old (stage.Behind pol atom)) sign (view_of self.new) result }
    {
        match sign {
            Sign::End => {
                self.stage = Stage::Behind(pol, atom);
                Err(Halt::Done)
            }
            sign => self.chained(alloc, pol, atom, sign),
        }
    }

    // The sign that goes on with a sequence or a sum.
    fn chained(&mut self, alloc: Global, pol: Pol, atom: bool, sign: Sign) -> Result<bool, Halt>
        requires room { HaveRoom self.old.chain }
        requires star { atom ≡ true → sign ≢ to_sign.Star }
        requires places { GoesOn (reverse self.old.levels.items) sign }
        ensures { Moves (at self.old (stage.Behind pol atom)) sign (view_of self.new) result }
    {
        match sign {
            Sign::Semicolon => {
                self.chain.factor(pol);
                self.stage = Stage::Operand;
                Ok(true)
            }
            Sign::Plus => {
                self.chain.summand(alloc, pol);
                self.stage = Stage::Operand;
                Ok(true)
            }
            sign => Err(Halt::Fault(stray(self.depth(), sign))),
        }
    }
}
