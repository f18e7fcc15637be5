//! Laws of the grammar, as contracts.
//!
//! Layer: texts that are read; public. No crate here calls it.
ghost use Rattle.document_text.specs.Laws.{OneOutcome, SomeOutcome, Within};
ghost use Rattle.document_text.specs.Statements.{SaysItsStatements};

/// A text has exactly one outcome: it is one document, or has one first fault at one place.
pub fn one_outcome()
    ensures one { OneOutcome }
    ensures some { SomeOutcome }
{}

/// A document that was read is within the limits. Its settings are in their ranges, and it has 1 to 64 policies, each
/// read from some text. Each packet is well shaped and arrives at a port without a link. Events name switches and
/// packet lines of the document.
pub fn within()
    ensures { Within }
{}

/// A document says what its statements say, in order. Its topology is that of its switch lines and link lines, and its
/// policies are read from the texts between `policy` and `end`. Its packets are those of its packet lines, and each
/// line of its schedule is an event.
pub fn says_its_statements()
    ensures { SaysItsStatements }
{}
