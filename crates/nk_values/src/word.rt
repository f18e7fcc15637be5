//! Numbers of 32 bits that lie at any even place.
//!
//! Layer: values and policies; private. Called by `address_match`.
ghost use Rattle.std.specs.Prelude.{◌≡◌};

use std::marker::Model;

/// A number of 32 bits, held as two of 16. Clauses see the number.
#[derive(Clone, Copy, PartialEq, Eq)]
pub(crate) struct Word {
    low: u16,
    high: u16,
}

impl Model for Word {
    ghost use Rattle.std.specs.Prelude.{ℕ};

    ghost Value = { ℕ };

    ghost use Rattle.nk_values.specs.Words.{joined, IsLow, halves, halves_back};

    ghost view = { joined };

    ghost invariant = { IsLow };

    ghost inverse = { halves };

    ghost inverse_ok = { halves_back };
}

impl Word {
    /// The word of a number.
    pub(crate) const fn of(number: u32) -> Word
        ensures { result ≡ number }
    {
        Word {
            low: (number % 65536) as u16,
            high: (number / 65536) as u16,
        }
    }

    /// The number.
    pub(crate) fn get(self) -> u32
        ensures { result ≡ self }
    {
        u32::from(self.high) * 65536 + u32::from(self.low)
    }
}
