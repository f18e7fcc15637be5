//! The end of a document.
//!
//! Layer: texts that are read; private. Called by `take`.
ghost use Rattle.std.specs.Prelude.{◌≡◌};
ghost use Rattle.document_text.specs.Answers.{state_of};
ghost use Rattle.document_text.specs.declared.fault.DocumentError.TheVariants as to;

use crate::document::{Document, Settings};
use crate::fault::{DocFault, DocumentError};
use crate::reader::Reader;
use nk_values::{GREATEST_VLAN_ID, TextFault};
use std::alloc::Global;
use topology_model::{LineError, Topology};

impl Reader {
    ghost use Rattle.document_text.specs.Grammar.{finished};
    ghost use Rattle.document_text.specs.Answers.{IsAnswer};
    ghost use Rattle.document_text.specs.Answers.{state_of};

    /// The document of all lines. The line after the last one has this number.
    pub fn finish(self, alloc: Global, line: u64) -> Result<Document, DocumentError>
        ensures { IsAnswer (finished (state_of self) line) result }
    {
        if self.declared.inside {
            return Err(refused(line, TextFault::BadLine));
        }
        let Reader { draft, declared } = self;
        let topology = match Topology::finish(alloc, draft) {
            Ok(topology) => topology,
            Err(LineError::Fault(fault)) => return Err(refused(line, fault)),
            Err(LineError::Memory) => return Err(DocumentError::Memory),
        };
        if declared.policies.is_empty() {
            return Err(refused(line, TextFault::NoPolicy));
        }
        Ok(Document {
            topology,
            policies: declared.policies,
            packets: declared.packets,
            settings: Settings {
                hops: declared.hops.unwrap_or(64),
                capacity: declared.capacity.unwrap_or(200_000),
                stamps: declared.stamps.unwrap_or((1, GREATEST_VLAN_ID)),
                rejoins: declared.rejoins.unwrap_or(0),
                overlap: declared.overlap,
            },
            schedule: declared.events,
        })
    }
}

/// Refused at a line.
pub fn refused(line: u64, fault: TextFault) -> DocumentError
    ensures { result ≡ to.Fault (record { fault = fault; line = line; column = 1 }) }
{
    DocumentError::Fault(DocFault {
        fault,
        line,
        column: 1,
    })
}
