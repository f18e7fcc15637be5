//! Policies compiled to split diagrams.
//!
//! Layer: diagrams; public. Called by many crates.
ghost use Rattle.std.specs.Prelude.{◌≡◌, MatchResult, None, OnOk};
ghost use Rattle.nk_syntax.specs.Views.{term_of};
ghost use Rattle.fdd_compile.specs.Compiles.{CompiledOf, IsFaultless, Refuses};
ghost use Rattle.fdd_compile.specs.Leftmost.{leftmost};
ghost use Rattle.fdd_compile.specs.Named.{AreFewNamed, TermNames};
ghost use Rattle.fdd_compile.specs.Places.{diagram_of};

use crate::build::build;
use crate::compiled::CompiledPolicy;
use crate::fault::CompileError;
use crate::guarded::unguarded;
use crate::leftmost::leftmost_fault;
use fdd_split::split;
use fdd_store::Store;
use nk_syntax::Pol;
use nk_values::CompileFault;
use std::alloc::Global;

/// What was made for earlier policies, so that one which differs little from them takes little.
///
/// It changes no answer. It grows with each policy, also with one that is refused.
#[derive(Drop)]
pub struct Compiler {
    store: Store,
}

impl Compiler {
    /// No policy was compiled.
    pub fn new(alloc: Global) -> Compiler {
        Compiler {
            store: Store::new(alloc),
        }
    }

    /// As `compile`. After an error further policies can be compiled.
    pub fn compile(&mut self, alloc: Global, pol: &Pol) -> Result<CompiledPolicy, CompileError>
        requires { AreFewNamed (TermNames (term_of pol.now)) }
        ensures told { MatchResult result (λ c. CompiledOf (term_of pol.now) (diagram_of c))
            (λ e. Refuses (term_of pol.now) e) }
        ensures faultless { OnOk result (IsFaultless (term_of pol.now)) }
    {
        if let Some(fault) = leftmost_fault(pol) {
            return Err(CompileError::Fault(fault));
        }
        compile_in(alloc, &mut self.store, pol)
    }
}

/// The split diagram of a policy, or the first reason against it. In order, these are the leftmost `dup` or assignment
/// to sw, ethTyp or ipProto; the first star that is deep; and a well-shaped packet with a result that is not.
pub fn compile(alloc: Global, pol: &Pol) -> Result<CompiledPolicy, CompileError>
    requires { AreFewNamed (TermNames (term_of pol.now)) }
    ensures told { MatchResult result (λ c. CompiledOf (term_of pol.now) (diagram_of c))
        (λ e. Refuses (term_of pol.now) e) }
    ensures faultless { OnOk result (IsFaultless (term_of pol.now)) }
{
    let mut compiler = Compiler::new(alloc);
    compiler.compile(alloc, pol)
}

// The split diagram of a policy without a leftmost fault, or the first of the other reasons against it.
fn compile_in(alloc: Global, store: &mut Store, pol: &Pol) -> Result<CompiledPolicy, CompileError>
    requires few { AreFewNamed (TermNames (term_of pol.now)) }
    requires no_fault { leftmost (term_of pol.now) ≡ None }
    ensures { MatchResult result (λ c. CompiledOf (term_of pol.now) (diagram_of c)) (λ e. Refuses (term_of pol.now) e) }
{
    let root = build(alloc, store, pol)?;
    match unguarded(alloc, store, pol, root)? {
        Some(packet) => Err(CompileError::Fault(CompileFault::Unguarded { packet })),
        None => {
            let diagram = split(alloc, store, root)?;
            Ok(CompiledPolicy { diagram })
        }
    }
}
