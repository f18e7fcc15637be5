//! The first fault of a line of a topology.
//!
//! Layer: values and policies; private. Adds calls to `Draft`.
ghost use Rattle.std.specs.Prelude.{◌≡◌, ◌&&◌, ◌||◌, Option, Some, None};
ghost use Rattle.topology_model.specs.Layouts.{has_switch, has_port, is_linked};
ghost use Rattle.topology_model.specs.Lines.{has_repeat};
ghost use Rattle.std.specs.Prelude.{◌<◌, ◌+◌, ◌==◌};

use super::{Draft, MOST_PORTS, MOST_SWITCHES};
use crate::line::{PortRef, Ports, TopoLine};
use nk_values::TextFault;

impl Draft {
    ghost use Rattle.topology_model.specs.Lines.{line_fault};

    /// The fault of a line after the lines so far, if it has one.
    pub fn fault(&self, line: &TopoLine) -> Option<TextFault>
        ensures { result ≡ line_fault self.now line.now }
    {
        match line {
            TopoLine::Switch { sw, ports } => self.switch_fault(*sw, ports),
            TopoLine::Link { a, b } => self.link_fault(*a, *b),
        }
    }

    // The fault of a switch line.
    fn switch_fault(&self, sw: u16, ports: &Ports) -> Option<TextFault>
        ensures { result ≡ line_fault self.now (TopoLine.Switch sw ports.now) }
    {
        if self.has_switch(sw) {
            Some(TextFault::DupSwitch)
        } else if self.switches.len() >= MOST_SWITCHES || ports.len() > MOST_PORTS {
            Some(TextFault::TooMany)
        } else if has_repeat(ports.as_slice()) {
            Some(TextFault::PortUsedTwice)
        } else {
            None
        }
    }

    // The fault of a link line.
    fn link_fault(&self, a: PortRef, b: PortRef) -> Option<TextFault>
        ensures { result ≡ line_fault self.now (TopoLine.Link a b) }
    {
        if !(self.has_switch(a.0) && self.has_switch(b.0)) {
            Some(TextFault::UnknownSwitch)
        } else if !(self.has_port(a) && self.has_port(b)) {
            Some(TextFault::UnknownPort)
        } else if self.is_linked(a) || self.is_linked(b) || a == b {
            Some(TextFault::PortUsedTwice)
        } else {
            None
        }
    }
}

// Whether some number comes twice. There are few.
pub(super) fn has_repeat(numbers: &[u16]) -> bool
    ensures { result ≡ has_repeat numbers.now }
{
    for (i, number) in numbers.iter().enumerate() {
        if numbers[i + 1..].contains(number) {
            return true;
        }
    }
    false
}
