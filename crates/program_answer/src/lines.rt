//! The lines of a text that comes in pieces.
//!
//! Layer: the program; private. Called by `reading`.
ghost use Rattle.std.specs.Prelude.{◌≡◌, ◌+◌, ◌<◌, ◌≤◌, ◌^◌, ℕ, List, [], ◌∷◌, ◌++◌, length};
ghost use Rattle.program_answer.specs.Lines.{Counts, line_after};

/// How many lines have ended, and whether bytes stand after the last of these.
#[derive(Drop)]
pub struct LineCount {
    ended: u64,
    goes_on: bool,
}

impl LineCount {
    /// Of the empty text.
    pub fn new() -> LineCount
        ensures counts { Counts result [] }
        ensures none { result.ended ≡ 0 }
    {
        LineCount {
            ended: 0,
            goes_on: false,
        }
    }

    /// Counts a piece that follows.
    pub fn add(&mut self, piece: &[u8])
        requires { self.old.ended + length piece.now < 2 ^ 64 }
        ensures counts { (text : List ℕ) → Counts self.old text → Counts self.new (text ++ piece.now) }
        ensures most { self.new.ended ≤ self.old.ended + length piece.now }
    {
        for byte in piece {
            self.push(*byte);
        }
    }

    // Counts a byte that follows.
    fn push(&mut self, byte: u8)
        requires { self.old.ended + 1 < 2 ^ 64 }
        ensures counts { (text : List ℕ) → Counts self.old text → Counts self.new (text ++ byte ∷ []) }
        ensures most { self.new.ended ≤ self.old.ended + 1 }
    {
        if byte == b'\n' {
            self.ended += 1;
            self.goes_on = false;
        } else {
            self.goes_on = true;
        }
    }

    /// The number of the line after the last one.
    pub fn line_after(&self) -> u64
        requires { self.now.ended < 2 ^ 63 }
        ensures { (text : List ℕ) → Counts self.now text → result ≡ line_after text }
    {
        if self.goes_on {
            self.ended + 2
        } else {
            self.ended + 1
        }
    }
}
