//! The words of the generator.
//!
//! Layer: the world; private. Called by `documents`, `drawing` and `policies`.
ghost use Rattle.std.specs.Prelude.{◌≡◌, ◌≤◌};
ghost use Rattle.workload_gen.specs.Documents.{number_by};
ghost use Rattle.workload_gen.specs.Words.{behind, next_word};

use rand_pcg::Lcg64Xsh32;
use rand_pcg::rand_core::utils::NextWord;

/// Draws the next word.
#[tactic(auto, unfolding(crate::specs::Words::next_word))]
pub(crate) fn next_word(rng: &mut Lcg64Xsh32) -> u32
    ensures word { result ≡ (next_word rng.old).0 }
    ensures behind { rng.new ≡ (next_word rng.old).1 }
{
    rng.next_word()
}

/// Draws a number from 1 to the greatest one.
pub(crate) fn number_by(greatest: u16, rng: &mut Lcg64Xsh32) -> u16
    requires some { 1 ≤ greatest }
    requires few { greatest ≤ 32 }
    ensures number { result ≡ number_by greatest rng.old }
    ensures high { result ≤ greatest }
    ensures behind { rng.new ≡ behind 1 rng.old }
{
    1 + (next_word(rng) % u32::from(greatest)) as u16
}
