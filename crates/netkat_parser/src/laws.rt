//! Laws of the grammar, as contracts.
//!
//! Layer: texts that are read; public. No crate here calls it.
ghost use Rattle.netkat_parser.specs.Laws.{NamesFew, OneOutcome, OneReading, SomeOutcome, ReadBack, ReadBackPol};

/// A text has exactly one outcome: it is read as one policy, or has one first fault at one position.
pub fn one_reading()
    ensures outcome { OneOutcome }
    ensures some { SomeOutcome }
    ensures reading { OneReading }
{}

/// The text that is printed for a policy is read as the policy, under four premises. Lists have two or more members,
/// and filters hold `skip`, `drop`, a test or a `not`. The printed brackets and nots nest at most 200 deep. At most
/// 2,000 pairs of field and value are named, at most 100 of them with ipProto.
pub fn read_back()
    ensures term { ReadBack }
    ensures policy { ReadBackPol }
{}

/// A policy that was read names at most 2,000 pairs of field and value, at most 100 with ipProto.
pub fn names_few()
    ensures { NamesFew }
{}
