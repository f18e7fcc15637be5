//! Documents from their text: a topology, settings, policies, packets and a schedule.
//!
//! Layer: texts that are read. The root of the crate, which many crates call.
#![tactic(auto)]

mod declaration;
mod doc_reader;
mod document;
mod ending;
mod fault;
mod feed;
mod going;
mod head;
mod laws;
mod packet;
mod read;
mod reader;
mod schedule;
mod setting;
mod take;
mod topology;
mod words;

pub use doc_reader::DocReader;
pub use document::{Document, PacketLine, ScheduleLine, ScheduleStep, Settings};
pub use fault::{DocFault, DocumentError};
pub use laws::{one_outcome, says_its_statements, within};
pub use nk_syntax::{Pol, Pols, Pred};
pub use read::read_document;
pub use topology_model::{DeclaredSwitch, Topology};
