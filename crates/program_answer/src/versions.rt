//! The policies of a document, compiled and put into rows.
//!
//! Layer: the program; private. Called by `input`.
ghost use Rattle.std.specs.Prelude.{◌<◌, ◌-◌, ◌^◌, map, IfOk, IfErr};
ghost use Rattle.nk_syntax.specs.Views.{term_of};
ghost use Rattle.fdd_compile.specs.Named.{AreFewNamed, TermNames};
ghost use Rattle.program_answer.specs.Sound.{AreFewNamedIn, AreStamps};
ghost use Rattle.program_answer.specs.Versions.{IsVersion, AreVersions};
ghost use Rattle.program_answer.specs.Input.{TellsFault, TellsFirst};

use crate::answer::AnswerError;
use document_text::Settings;
use fdd_compile::{CompileError, Compiler};
use nk_syntax::Pol;
use policy_rows::{Intent, Version, band_of, stamp_of};
use report_text::Fault;
use std::alloc::Global;
use table_emitter::{EmitError, emit};
use topology_model::Topology;

/// Each of the policies of a document with its rows in its topology, or the fault of the first policy that has one.
pub fn versions(
    alloc: Global,
    topology: &Topology,
    settings: Settings,
    policies: Vec<Pol>,
) -> Result<Vec<Version>, AnswerError>
    requires few { AreFewNamedIn (map term_of policies.items) }
    requires stamps { AreStamps settings }
    ensures all { IfOk result (λ vs. AreVersions topology.now settings 0 (map term_of policies.items) vs.items) }
    ensures fault { IfErr result (TellsFirst topology.now settings (map term_of policies.items)) }
{
    let mut compiler = Compiler::new(alloc);
    let mut versions = Vec::new(alloc);
    for pol in policies {
        let place = versions.len();
        match version(alloc, &mut compiler, topology, settings, place, pol) {
            Ok(version) => versions.push(version)?,
            Err(error) => return Err(error),
        }
    }
    Ok(versions)
}

// The policy at a place with its rows. It is let go before they are made, so that they may take its memory.
fn version(
    alloc: Global,
    compiler: &mut Compiler,
    topology: &Topology,
    settings: Settings,
    place: usize,
    pol: Pol,
) -> Result<Version, AnswerError>
    requires few { AreFewNamed (TermNames (term_of pol)) }
    requires stamps { AreStamps settings }
    requires place { place < 2 ^ 64 - 1 }
    ensures version { IfOk result (IsVersion topology.now settings place (term_of pol)) }
    ensures fault { IfErr result (TellsFault topology.now settings place (term_of pol)) }
{
    let policy = place as u64 + 1;
    let compiled = match compiler.compile(alloc, &pol) {
        Ok(compiled) => compiled,
        Err(CompileError::Fault(fault)) => {
            return Err(AnswerError::Fault(Fault::Compile { policy, fault }));
        }
        Err(CompileError::Memory) => return Err(AnswerError::Memory),
    };
    let intent = Intent::of(&pol);
    drop(pol);
    let (low, high) = settings.stamps;
    let stamp = stamp_of(low, high, place);
    match emit(alloc, &compiled, intent, topology, stamp, band_of(place)) {
        Ok(version) => Ok(version),
        Err(EmitError::Fault(fault)) => Err(AnswerError::Fault(Fault::Emit { policy, fault })),
        Err(EmitError::Memory) => Err(AnswerError::Memory),
    }
}
