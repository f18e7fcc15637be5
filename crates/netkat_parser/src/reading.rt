//! Reading goes on from sign to sign.
//!
//! Layer: texts that are read; private. Called by many modules.
ghost use Rattle.std.specs.Prelude.{◌≡◌, ◌<◌, Bool, true, false, [], length, OnOk};
ghost use Rattle.netkat_parser.specs.declared.stage.Stage.TheVariants as stage;
ghost use Rattle.netkat_parser.specs.Views.{view_of, at, first_reach, Shows, Moves, MovesOn, IsWhole, GivesWhole};
ghost use Rattle.netkat_parser.specs.Views.{KeepsView};
ghost use Rattle.netkat_parser.specs.Showing.{HaveRoom};
ghost use Rattle.nk_syntax.specs.Views.{term_of};
ghost use Rattle.netkat_parser.specs.declared.sign.Sign.{Sign};
ghost use Rattle.netkat_parser.specs.Pairs.{pairs};

use crate::chain::Chain;
use crate::named::NamedPairs;
use crate::sign::Sign;
use crate::stage::Stage;
use crate::stray::stray;
use nk_syntax::Pol;
use nk_values::TextFault;
use std::alloc::{AllocError, Global};
use std::mem;

mod operands;
mod operators;

/// What is open: a `not`, which may stand inside another; or a bracket, with what stands in front of it.
#[derive(Drop)]
pub enum Level {
    Not(bool),
    Bracket(Chain),
}

/// Why a sign is not taken: it is at fault; the whole text was read in front of it; or memory is wanting.
#[derive(Clone, Copy, Debug)]
pub enum Halt {
    Fault(TextFault),
    Done,
    Memory,
}

impl From<AllocError> for Halt {
    ghost use Rattle.netkat_parser.specs.declared.reading.Halt.TheVariants.{Memory};

    ghost from_gives = { λ _ e. e ≡ Memory };

    fn from(_e: AllocError) -> Self {
        Halt::Memory
    }
}

/// What was read of a policy up to some sign: the pairs that it names, where reading stands, what is
/// open, whether a `not` is, and the operands inside the innermost bracket.
#[derive(Drop)]
pub struct Reading {
    pub named: NamedPairs,
    pub stage: Stage,
    pub levels: Vec<Level>,
    pub inside: bool,
    pub chain: Chain,
}

impl Reading {
    /// Nothing was read.
    pub fn new(alloc: Global) -> Reading
        ensures shows { Shows (view_of result) first_reach }
        ensures named { pairs result.named ≡ [] }
    {
        Reading {
            named: NamedPairs::new(alloc),
            stage: Stage::Operand,
            levels: Vec::new(alloc),
            inside: false,
            chain: Chain::new(alloc, false),
        }
    }

    /// Takes a sign, after the nots that end in front of it.
    pub fn pass(&mut self, alloc: Global, sign: Sign) -> Result<(), Halt>
        ensures { MovesOn (view_of self.old) sign (view_of self.new) result }
    {
        loop {
            match self.take(alloc, sign) {
                Ok(true) => return Ok(()),
                Ok(false) => {}
                Err(halt) => return Err(halt),
            }
        }
    }

    // Takes a sign, or ends a `not` in front of it, and tells which.
    fn take(&mut self, alloc: Global, sign: Sign) -> Result<bool, Halt>
        ensures { Moves (view_of self.old) sign (view_of self.new) result }
    {
        match &self.stage {
            Stage::Operand => self.operand(alloc, sign),
            Stage::Relation(field) => {
                let field = *field;
                self.stage = Stage::Operand;
                self.relation(field, sign)
            }
            Stage::Number(_, _) => Err(Halt::Fault(stray(self.depth(), sign))),
            Stage::Behind(_, _) => self.after(alloc, sign),
        }
    }

    // The sign after an operand, which is taken out of the stage.
    fn after(&mut self, alloc: Global, sign: Sign) -> Result<bool, Halt>
        requires { (pol : Pol) × (atom : Bool) × (self.old.stage ≡ stage.Behind pol atom) }
        ensures { Moves (view_of self.old) sign (view_of self.new) result }
    {
        match mem::replace(&mut self.stage, Stage::Operand) {
            Stage::Behind(pol, atom) => self.behind(alloc, pol, atom, sign),
            _ => unreachable!(),
        }
    }

    // How many brackets and nots are open.
    fn depth(&self) -> usize
        ensures { result ≡ length (view_of self.now).levels }
    {
        self.levels.len()
    }

    /// Makes room for the policy. The state stays.
    pub fn reserve(&mut self) -> Result<(), AllocError>
        ensures room { OnOk result (HaveRoom self.new.chain) }
        ensures keeps { KeepsView (view_of self.old) (view_of self.new) }
        ensures whole { IsWhole (view_of self.old) → IsWhole (view_of self.new) }
    {
        self.chain.reserve()
    }

    /// The policy, if the whole text was read and there is room for it.
    pub fn policy(self) -> Pol
        requires whole { IsWhole (view_of self) }
        requires room { HaveRoom self.chain }
        ensures { GivesWhole (view_of self) (term_of result) }
    {
        let Reading { stage, chain, .. } = self;
        match stage {
            Stage::Behind(pol, _) => chain.policy(pol),
            _ => unreachable!(),
        }
    }
}
