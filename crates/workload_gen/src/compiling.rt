//! The policies of workloads with their rows.
//!
//! Layer: the world; public. Called by `driving` here, and by rejoin_tests.
ghost use Rattle.std.specs.Prelude.{◌≡◌, ℕ, None, IfOk};
ghost use Rattle.document_text.specs.Answers.{doc_of};
ghost use Rattle.update_laws.specs.Settings.{AreVersions};
ghost use Rattle.workload_gen.specs.Documents.{document_of};
ghost use Rattle.workload_gen.specs.Versions.{AreVersionsOf};

use document_text::Document;
use policy_rows::{Version, band_of, stamp_of};
use std::alloc::{AllocError, Global};
use workload_laws::version_of;

/// The policies of a number's document with their rows. Each is accepted: only a lack of memory can hinder it.
pub fn versions(alloc: Global, document: &Document) -> Result<Vec<Version>, AllocError>
    requires { (n : ℕ) × (doc_of document.now ≡ document_of n) }
    ensures versions { IfOk result (λ vs. AreVersionsOf (doc_of document.now) vs.items) }
    ensures start { IfOk result (λ vs. AreVersions document.now.topology vs.items None) }
{
    let (low, high) = document.settings.stamps;
    let mut versions = Vec::new(alloc);
    for (place, pol) in document.policies.iter().enumerate() {
        let stamp = stamp_of(low, high, place);
        let version = version_of(alloc, pol, &document.topology, stamp, band_of(place))?;
        versions.push(version)?;
    }
    Ok(versions)
}
