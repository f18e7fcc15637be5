//! What a row asks of an address.
//!
//! Layer: values and policies; public. Called by `pattern` here, and by many crates.
ghost use Rattle.std.specs.Prelude.{◌≡◌};

use crate::pattern::Prefix;
use crate::word::Word;
use std::fmt;
use std::marker::Model;

/// What a row asks of an Ethernet address (OpenFlow 1.0.0, 5.2.3): a number, or nothing. Any number can be held; an
/// address of a frame is below 2^48. Clauses see an optional number. It lies at any even place, so that rows are small.
#[derive(Clone, Copy, PartialEq, Eq)]
pub struct StationMatch {
    low: Word,
    high: Word,
    fixed: bool,
}

impl Model for StationMatch {
    ghost use Rattle.std.specs.Prelude.{ℕ, Option};

    ghost Value = { Option ℕ };

    ghost use Rattle.nk_values.specs.AddressMatches.{station_of, IsStation, station_parts, station_back};

    ghost view = { station_of };

    ghost invariant = { IsStation };

    ghost inverse = { station_parts };

    ghost inverse_ok = { station_back };
}

impl fmt::Debug for StationMatch {
    fn fmt<W: fmt::Write>(&self, f: &mut fmt::Formatter<W>) -> fmt::Result {
        self.get().fmt(f)
    }
}

impl StationMatch {
    ghost use Rattle.std.specs.Prelude.{None};

    /// The match that asks for nothing.
    pub const fn open() -> StationMatch
        ensures { result ≡ None }
    {
        StationMatch {
            low: Word::of(0),
            high: Word::of(0),
            fixed: false,
        }
    }

    /// The match that asks for a number, if there is one.
    pub fn of(number: Option<u64>) -> StationMatch
        ensures { result ≡ number }
    {
        match number {
            None => StationMatch::open(),
            Some(number) => StationMatch {
                low: Word::of((number % 4294967296) as u32),
                high: Word::of((number / 4294967296) as u32),
                fixed: true,
            },
        }
    }

    /// The number that it asks for, if there is one.
    pub fn get(self) -> Option<u64>
        ensures { result ≡ self }
    {
        if self.fixed {
            Some(u64::from(self.high.get()) * 4294967296 + u64::from(self.low.get()))
        } else {
            None
        }
    }
}

/// What a row asks of an IPv4 address (OpenFlow 1.0.0, 5.2.3): its first bits, from 1 to 32 of them, or nothing.
/// Clauses see an optional prefix. It lies at any even place, so that rows are small.
#[derive(Clone, Copy, PartialEq, Eq)]
pub struct NetworkMatch {
    address: Word,
    length: u8,
    fixed: bool,
}

impl Model for NetworkMatch {
    ghost use Rattle.std.specs.Prelude.{Option};
    ghost use Rattle.nk_values.specs.declared.pattern.Prefix.{Prefix};

    ghost Value = { Option Prefix };

    ghost use Rattle.nk_values.specs.AddressMatches.{network_of, IsNetwork, network_parts, network_back};

    ghost view = { network_of };

    ghost invariant = { IsNetwork };

    ghost inverse = { network_parts };

    ghost inverse_ok = { network_back };
}

impl fmt::Debug for NetworkMatch {
    fn fmt<W: fmt::Write>(&self, f: &mut fmt::Formatter<W>) -> fmt::Result {
        self.get().fmt(f)
    }
}

impl NetworkMatch {
    ghost use Rattle.std.specs.Prelude.{None};

    /// The match that asks for nothing.
    pub const fn open() -> NetworkMatch
        ensures { result ≡ None }
    {
        NetworkMatch {
            address: Word::of(0),
            length: 0,
            fixed: false,
        }
    }

    /// The match that asks for some high bits, if there are any.
    pub fn of(prefix: Option<Prefix>) -> NetworkMatch
        ensures { result ≡ prefix }
    {
        match prefix {
            None => NetworkMatch::open(),
            Some(prefix) => NetworkMatch {
                address: Word::of(prefix.address),
                length: prefix.length,
                fixed: true,
            },
        }
    }

    /// The high bits that it asks for, if there are any.
    pub fn get(self) -> Option<Prefix>
        ensures { result ≡ self }
    {
        if self.fixed {
            Some(Prefix {
                address: self.address.get(),
                length: self.length,
            })
        } else {
            None
        }
    }
}
