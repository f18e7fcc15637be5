//! Laws of the lines of events, each the contract of a call that does nothing.
//!
//! Layer: laws alone; public. No crate here calls it.
ghost use Rattle.report_laws.specs.Laws.{LinesTell, PrintedIsRead, ReportsTell};

/// The lines of events give back the list of events, but for foreign bytes, which they do not show. So does a report
/// with these lines. The events name switches of a topology in which no two switches have one number.
pub fn lines_tell()
    ensures lines { LinesTell }
    ensures reports { ReportsTell }
{}

/// The line that reports print for an event, without the `e ` in front, is read as that event in a schedule. No
/// schedule has a packet by itself or foreign bytes, and none has a place above 4294967295 or a stamp that is no VLAN
/// id.
pub fn printed_is_read()
    ensures { PrintedIsRead }
{}
