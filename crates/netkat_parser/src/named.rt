//! The values that a policy names.
//!
//! Layer: texts that are read; private. Called by `reading`.
ghost use Rattle.std.specs.Prelude.{◌≡◌, [], ◌==◌, ◌||◌, ◌&&◌, not, nat_le, length, false, ◌++◌, ◌∷◌, IfOk, OnOk};
ghost use Rattle.std.specs.Prelude.{OnErr, if◌then◌else◌};
ghost use Rattle.nk_values.specs.Lits.{lit_field, lit_value};
ghost use Rattle.nk_values.specs.Ranges.{place};
ghost use Rattle.nk_values.specs.declared.field.Field.TheVariants.{IpProto};
ghost use Rattle.netkat_parser.specs.Grammar.{is_named, is_too_many, with_pair, protos};
ghost use Rattle.netkat_parser.specs.Pairs.{pairs};

use indexmap::IndexSet;
use nk_values::{Field, Lit};
use std::alloc::{AllocError, Global};

// How many pairs of field and value a policy may name, and how many of these with ipProto.
const MOST_PAIRS: usize = 2000;

const MOST_PROTOS: usize = 100;

/// Pairs of field and value, each once, in the order in which they were first named.
#[derive(Drop)]
pub struct NamedPairs {
    lits: IndexSet<Lit>,
}

impl NamedPairs {
    /// None.
    pub fn new(alloc: Global) -> NamedPairs
        ensures { pairs result ≡ [] }
    {
        NamedPairs {
            lits: IndexSet::new(alloc),
        }
    }

    /// Names a pair, and tells whether there is room for it.
    pub fn name(&mut self, lit: Lit) -> Result<bool, AllocError>
        ensures room { IfOk result (λ room. room ≡ not (is_too_many (pairs self.old) (lit_field lit) (lit_value lit))) }
        ensures pairs { IfOk result (λ room. pairs self.new
            ≡ (if room then with_pair (pairs self.old) (lit_field lit) (lit_value lit) else pairs self.old)) }
        ensures kept { OnErr result (pairs self.new ≡ pairs self.old) }
    {
        if self.has(lit) {
            return Ok(true);
        }
        if self.is_full(lit.field()) {
            return Ok(false);
        }
        self.add(lit)?;
        Ok(true)
    }

    fn has(&self, lit: Lit) -> bool
        ensures { result ≡ is_named (pairs self.now) (lit_field lit) (lit_value lit) }
    {
        self.lits.contains(&lit)
    }

    // Whether a new pair of this field is too many.
    fn is_full(&self, field: Field) -> bool
        ensures { result ≡ (nat_le 2000 (length (pairs self.now)) ||
            ((place field == place IpProto) && nat_le 100 (protos (pairs self.now)))) }
    {
        self.lits.len() >= MOST_PAIRS || (is_proto(field) && self.protos() >= MOST_PROTOS)
    }

    fn protos(&self) -> usize
        ensures { result ≡ protos (pairs self.now) }
    {
        let mut count = 0;
        for lit in self.lits.as_slice() {
            if is_proto(lit.field()) {
                count += 1;
            }
        }
        count
    }

    fn add(&mut self, lit: Lit) -> Result<(), AllocError>
        requires { is_named (pairs self.old) (lit_field lit) (lit_value lit) ≡ false }
        ensures added { OnOk result (pairs self.new ≡ pairs self.old ++ (lit_field lit, lit_value lit) ∷ []) }
        ensures kept { OnErr result (pairs self.new ≡ pairs self.old) }
    {
        self.lits.insert(lit)?;
        Ok(())
    }
}

fn is_proto(field: Field) -> bool
    ensures { result ≡ (place field == place IpProto) }
{
    matches!(field, Field::IpProto)
}
