//! What a sign does if an operand may begin there.
//!
//! Layer: texts that are read; private. Adds calls to `Reading`.
ghost use Rattle.std.specs.Prelude.{◌≡◌, ◌<◌, ◌≢◌, true, []};
ghost use Rattle.netkat_parser.specs.declared.sign.Sign.TheVariants as to_sign;
ghost use Rattle.netkat_parser.specs.declared.stage.Stage.TheVariants as stage;
ghost use Rattle.netkat_parser.specs.Views.{view_of, at, Moves, TakesRun};
ghost use Rattle.netkat_parser.specs.declared.sign.Sign.{Sign};

use super::{Halt, Level, Reading};
use crate::chain::{Chain, put};
use crate::number::literal;
use crate::pair::policy_of;
use crate::sign::Sign;
use crate::stage::{Operator, Stage};
use crate::stray::{MOST_OPEN, stray};
use nk_syntax::{Pol, Pred};
use nk_values::{Field, TextFault};
use std::alloc::Global;
use std::mem;

impl Reading {
    // The sign where an operand begins.
    pub(super) fn operand(&mut self, alloc: Global, sign: Sign) -> Result<bool, Halt>
        requires { self.old.stage ≡ stage.Operand }
        ensures { Moves (view_of self.old) sign (view_of self.new) result }
    {
        match sign {
            Sign::Open => self.open_bracket(alloc),
            Sign::Not => self.negate(),
            Sign::Dup => self.dup(),
            Sign::Skip => {
                self.stage = Stage::Behind(Pol::Filter(Pred::One), true);
                Ok(true)
            }
            Sign::Drop => {
                self.stage = Stage::Behind(Pol::Filter(Pred::Zero), true);
                Ok(true)
            }
            Sign::Name(field) => {
                self.stage = Stage::Relation(field);
                Ok(true)
            }
            sign => Err(Halt::Fault(stray(self.depth(), sign))),
        }
    }

    // Takes a `dup`, outside of nots.
    fn dup(&mut self) -> Result<bool, Halt>
        requires { self.old.stage ≡ stage.Operand }
        ensures { Moves (view_of self.old) to_sign.Dup (view_of self.new) result }
    {
        if self.inside {
            return Err(Halt::Fault(TextFault::NotPredicate));
        }
        self.stage = Stage::Behind(Pol::Dup, true);
        Ok(true)
    }

    // Opens a bracket.
    pub(super) fn open_bracket(&mut self, alloc: Global) -> Result<bool, Halt>
        requires { self.old.stage ≡ stage.Operand }
        ensures { Moves (view_of self.old) to_sign.Open (view_of self.new) result }
    {
        if self.depth() >= MOST_OPEN {
            return Err(Halt::Fault(TextFault::TooDeep));
        }
        self.levels.reserve(1)?;
        let none = Chain::new(alloc, self.inside);
        let outer = mem::replace(&mut self.chain, none);
        put(&mut self.levels, Level::Bracket(outer));
        Ok(true)
    }

    // Opens a `not`.
    fn negate(&mut self) -> Result<bool, Halt>
        requires { self.old.stage ≡ stage.Operand }
        ensures { Moves (view_of self.old) to_sign.Not (view_of self.new) result }
    {
        if self.depth() >= MOST_OPEN {
            return Err(Halt::Fault(TextFault::TooDeep));
        }
        self.levels.reserve(1)?;
        let was = mem::replace(&mut self.inside, true);
        put(&mut self.levels, Level::Not(was));
        Ok(true)
    }

    // The sign after a field's name.
    pub(super) fn relation(&mut self, field: Field, sign: Sign) -> Result<bool, Halt>
        ensures { Moves (at self.old (stage.Relation field)) sign (view_of self.new) result }
    {
        match sign {
            Sign::Becomes if self.inside => Err(Halt::Fault(TextFault::NotPredicate)),
            Sign::Equals => {
                self.stage = Stage::Number(field, Operator::Test);
                Ok(true)
            }
            Sign::Becomes => {
                self.stage = Stage::Number(field, Operator::Assign);
                Ok(true)
            }
            sign => Err(Halt::Fault(stray(self.depth(), sign))),
        }
    }

    /// The value after `=` or `:=`, of these bytes.
    pub fn number(&mut self, field: Field, operator: Operator, run: &[u8]) -> Result<(), Halt>
        requires stage { self.old.stage ≡ stage.Number field operator }
        requires some { run.now ≢ [] }
        ensures { TakesRun (view_of self.old) run.now (view_of self.new) result }
    {
        let Some(lit) = literal(field, run) else {
            return Err(Halt::Fault(TextFault::ValueRange));
        };
        if !self.named.name(lit)? {
            return Err(Halt::Fault(TextFault::TooManyValues));
        }
        self.stage = Stage::Behind(policy_of(operator, lit), true);
        Ok(())
    }
}
