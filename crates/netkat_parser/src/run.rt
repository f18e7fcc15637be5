//! How many bytes at the front of a text satisfy a test.
//!
//! Layer: texts that are read; public. Called by `sign` and `token` here, and by document_text.
ghost use Rattle.std.specs.Prelude.{◌≤◌, ◌≡◌, ℕ, Bool, length};
ghost use Rattle.std.specs.List.{prefix_len};
ghost use Rattle.netkat_parser.specs.Signs.{DecidesAs};

/// How many bytes at the front satisfy a test.
pub fn run_len<F: Fn(u8) -> bool>(text: &[u8], is_in: F) -> usize
    requires { F.IsAlwaysCallable is_in }
    ensures len { (test : ℕ → Bool) → DecidesAs (F.post is_in) test → result ≡ prefix_len test text.now }
    ensures within { result ≤ length text.now }
{
    for (i, byte) in text.iter().enumerate() {
        if !is_in(*byte) {
            return i;
        }
    }
    text.len()
}
