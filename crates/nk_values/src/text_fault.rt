//! Why a text is no document: each fault by its number and its name.
//!
//! Layer: values and policies; public. Called by many crates. Clauses of program_answer, report_laws and workload_gen
//! name it.
ghost use Rattle.std.specs.Prelude.{◌≡◌};
ghost use Rattle.nk_values.specs.Faults.{text_number, text_name};

use std::error::Error;
use std::fmt;

/// A fault of a text: of a policy 1 to 7, of a document 8 to 13, of its topology 31 to 36.
#[derive(Clone, Copy, Debug, PartialEq, Eq)]
pub enum TextFault {
    /// A byte that begins no token.
    BadChar,
    /// A token that the grammar has no place for, or the end of the text.
    Unexpected,
    /// A name that is not listed.
    UnknownName,
    /// A run of none of the field's forms, or a number out of its range.
    ValueRange,
    /// A `:=`, `*` or `dup` inside the operand of a `not`.
    NotPredicate,
    /// A `(` or `not` that makes more than 200 of them open.
    TooDeep,
    /// The 2,001st pair of field and value, or the 101st value of ipProto.
    TooManyValues,
    /// A line of none of the forms, out of order or repeated, or an `end` that is missing.
    BadLine,
    /// No policy.
    NoPolicy,
    /// Too many bytes, policies, packets or events.
    Limit,
    /// Stamps that are not 1 to 4094, or not in order.
    StampRange,
    /// One stamp alone.
    TooFewStamps,
    /// A packet that arrives at a port with a link.
    NotEdge,
    /// A switch that was declared before.
    DupSwitch,
    /// A switch that was not declared before.
    UnknownSwitch,
    /// A port that its switch does not have.
    UnknownPort,
    /// A port twice in a switch line, or in two ends of links.
    PortUsedTwice,
    /// The 257th switch, or a switch with a 257th port.
    TooMany,
    /// No port without a link.
    NoEdge,
}

impl TextFault {
    /// The number that it is told by.
    pub fn number(self) -> u8
        ensures { result ≡ text_number self }
    {
        match self {
            TextFault::BadChar => 1,
            TextFault::Unexpected => 2,
            TextFault::UnknownName => 3,
            TextFault::ValueRange => 4,
            TextFault::NotPredicate => 5,
            TextFault::TooDeep => 6,
            TextFault::TooManyValues => 7,
            TextFault::BadLine => 8,
            TextFault::NoPolicy => 9,
            TextFault::Limit => 10,
            TextFault::StampRange => 11,
            TextFault::TooFewStamps => 12,
            TextFault::NotEdge => 13,
            TextFault::DupSwitch => 31,
            TextFault::UnknownSwitch => 32,
            TextFault::UnknownPort => 33,
            TextFault::PortUsedTwice => 34,
            TextFault::TooMany => 35,
            TextFault::NoEdge => 36,
        }
    }

    /// The name that it is told by.
    pub fn name(self) -> &'static str
        ensures { result.now ≡ text_name self }
    {
        match self {
            TextFault::BadChar => "BadChar",
            TextFault::Unexpected => "Unexpected",
            TextFault::UnknownName => "UnknownName",
            TextFault::ValueRange => "ValueRange",
            TextFault::NotPredicate => "NotPredicate",
            TextFault::TooDeep => "TooDeep",
            TextFault::TooManyValues => "TooManyValues",
            TextFault::BadLine => "BadLine",
            TextFault::NoPolicy => "NoPolicy",
            TextFault::Limit => "Limit",
            TextFault::StampRange => "StampRange",
            TextFault::TooFewStamps => "TooFewStamps",
            TextFault::NotEdge => "NotEdge",
            TextFault::DupSwitch => "DupSwitch",
            TextFault::UnknownSwitch => "UnknownSwitch",
            TextFault::UnknownPort => "UnknownPort",
            TextFault::PortUsedTwice => "PortUsedTwice",
            TextFault::TooMany => "TooMany",
            TextFault::NoEdge => "NoEdge",
        }
    }
}

/// The number and the name, as `2 Unexpected`.
impl fmt::Display for TextFault {
    ghost use Rattle.std.specs.Prelude.{Some};
    ghost use Rattle.nk_values.specs.Faults.{label, text_number, text_name};

    ghost output = { λ f. Some (label (text_number f) (text_name f)) };

    fn fmt<W: fmt::Write>(&self, f: &mut fmt::Formatter<W>) -> fmt::Result {
        let number = self.number();
        let name = self.name();
        write!(f, "{number} {name}")
    }
}

impl Error for TextFault {}
