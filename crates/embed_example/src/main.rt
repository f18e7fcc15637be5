//! How a controller of one's own calls the libraries. It reads a document from standard input, compiles each policy and
//! prints, for each of its rows, the port that it is for and the OpenFlow message that adds it to the switch.
//!
//! Layer: tests; nothing calls it.
#![tactic(auto)]

mod adding;
mod policy;

use crate::adding::additions;
use crate::policy::{PolicyError, PolicyFault, version};
use document_text::{DocumentError, read_document};
use nk_syntax::Pol;
use std::alloc::{AllocError, Global};
use std::io;
use topology_model::Topology;

fn main(rt: HostRuntime) -> io::Result<()> {
    let alloc = rt.alloc();
    let text = io::read_to_string(alloc, rt.stdin())?;
    print!(rt; "{}", answer(alloc, text.as_bytes())?)
}

// What is printed of a document, or its first fault.
fn answer(alloc: Global, text: &[u8]) -> Result<String, AllocError> {
    let document = match read_document(alloc, text) {
        Ok(document) => document,
        Err(DocumentError::Fault(it)) => {
            return format!(in alloc; "line {} column {}: {}\n", it.line, it.column, it.fault);
        }
        Err(DocumentError::Memory) => return Err(AllocError),
    };
    let mut told = String::new(alloc);
    for pol in &document.policies {
        told.push_str(&policy_answer(alloc, pol, &document.topology)?)?;
    }
    Ok(told)
}

// What is printed of a policy: a heading and the additions of its rows, or why it has none.
fn policy_answer(alloc: Global, pol: &Pol, topology: &Topology) -> Result<String, AllocError> {
    match version(alloc, pol, topology) {
        Ok(version) => format!(in alloc; "policy\n{}", additions(alloc, &version.rows)?),
        Err(PolicyError::Fault(PolicyFault::ManyNames)) => format!(in alloc;
            "policy refused: too many values\n"
        ),
        Err(PolicyError::Fault(PolicyFault::Compile(fault))) => format!(in alloc;
            "policy refused: {}\n",
            fault.name()
        ),
        Err(PolicyError::Fault(PolicyFault::Emit(fault))) => format!(in alloc;
            "policy refused: {}\n",
            fault.name()
        ),
        Err(PolicyError::Memory) => Err(AllocError),
    }
}
