//! A document of which the policies were taken, in the layer of what commands share. `read_input` makes it, and
//! commands read it.
//!
//! Layer: the program; public. Called by `input` here, and by many crates.
ghost use Rattle.std.specs.Prelude.{◌≡◌, IfOk};
ghost use Rattle.document_text.specs.Answers.{doc_of};

use document_text::{Document, PacketLine, ScheduleLine, Settings};
use nk_syntax::Pol;
use policy_rows::Intent;
use std::alloc::{AllocError, Global};
use std::marker::Model;
use topology_model::Topology;

/// A document whose policies were put into rows, and let go. Clauses see it as the document.
#[derive(Drop)]
pub struct ReadyDocument {
    topology: Topology,
    policies: Vec<Intent>,
    packets: Vec<PacketLine>,
    settings: Settings,
    schedule: Vec<ScheduleLine>,
}

impl Model for ReadyDocument {
    ghost use Rattle.document_text.specs.declared.document.Document.{Document};
    ghost use Rattle.document_text.specs.contracts.document.Document as documents;

    ghost Value = { Document };

    // a policy holds itself, so the code of documents is named
    ghost coded = { documents.the_row.coded };

    ghost view = { λ d. record {
      topology = d.topology;
      policies = d.policies;
      packets = d.packets;
      settings = d.settings;
      schedule =
          d.schedule;
    } };
}

/// What a document has beside its policies.
#[derive(Drop)]
pub struct Parts {
    pub topology: Topology,
    pub packets: Vec<PacketLine>,
    pub settings: Settings,
    pub schedule: Vec<ScheduleLine>,
}

// A document, and its policies apart.
#[derive(Drop)]
pub(crate) struct SplitDocument {
    pub(crate) document: ReadyDocument,
    pub(crate) policies: Vec<Pol>,
}

impl ReadyDocument {
    // Takes the policies out of a document.
    pub(crate) fn apart(alloc: Global, document: Document) -> Result<SplitDocument, AllocError>
        ensures document { IfOk result (λ a. doc_of a.document ≡ doc_of document) }
        ensures policies { IfOk result (λ a. a.document.policies.items ≡ a.policies.items) }
    {
        let Document {
            topology,
            policies,
            packets,
            settings,
            schedule,
        } = document;
        let intents = intents_of(alloc, &policies)?;
        let document = ReadyDocument {
            topology,
            policies: intents,
            packets,
            settings,
            schedule,
        };
        Ok(SplitDocument { document, policies })
    }

    /// The topology.
    pub fn topology(&self) -> &Topology
        ensures { result.now ≡ self.now.topology }
    {
        &self.topology
    }

    /// The packets.
    pub fn packets(&self) -> &[PacketLine]
        ensures { result.now ≡ self.now.packets.items }
    {
        &self.packets
    }

    /// The settings.
    pub fn settings(&self) -> Settings
        ensures { result ≡ self.now.settings }
    {
        self.settings
    }

    /// All but the policies.
    pub fn into_parts(self) -> Parts
        ensures topology { result.topology ≡ self.topology }
        ensures packets { result.packets.items ≡ self.packets.items }
        ensures settings { result.settings ≡ self.settings }
        ensures schedule { result.schedule.items ≡ self.schedule.items }
    {
        let ReadyDocument {
            topology,
            policies: _policies,
            packets,
            settings,
            schedule,
        } = self;
        Parts {
            topology,
            packets,
            settings,
            schedule,
        }
    }
}

// What is meant by policies.
fn intents_of(alloc: Global, policies: &[Pol]) -> Result<Vec<Intent>, AllocError>
    ensures { IfOk result (λ v. v.items ≡ policies.now) }
{
    let mut intents = Vec::new(alloc);
    for pol in policies {
        intents.push(Intent::of(pol))?;
    }
    Ok(intents)
}
