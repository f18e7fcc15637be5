//! The lines of a topology.
//!
//! Layer: values and policies; public. Called by many modules here, and by many crates. Clauses of many crates name it.
use nk_values::{Field, List};

/// A port of a switch: the switch's number, 1 to 65535, and the port's, 1 to 65279.
pub type PortRef = (u16, u16);

/// Port numbers in a row.
pub type Ports = List<u16>;

/// A switch and its ports, in declared order.
#[derive(Debug, Drop)]
pub struct DeclaredSwitch {
    pub sw: u16,
    pub ports: Ports,
}

/// A line of a topology.
#[derive(Debug, Drop)]
pub enum TopoLine {
    /// A switch with its ports.
    Switch { sw: u16, ports: Ports },
    /// A link that joins two ports, in both directions.
    Link { a: PortRef, b: PortRef },
}

impl TopoLine {
    ghost use Rattle.std.specs.Prelude.{◌↔◌, IsTrue};
    ghost use Rattle.topology_model.specs.Lines.{IsLineInRange};

    /// Whether each number is in its range.
    pub fn is_in_range(&self) -> bool
        ensures { IsTrue result ↔ IsLineInRange self.now }
    {
        match self {
            TopoLine::Switch { sw, ports } => {
                Field::Sw.is_value(u64::from(*sw)) && are_ports(ports.as_slice())
            }
            TopoLine::Link { a, b } => is_end(*a) && is_end(*b),
        }
    }
}

ghost use Rattle.std.specs.Prelude.{All, ◌↔◌, IsTrue};
ghost use Rattle.nk_values.specs.declared.field.Field.TheVariants.{Pt};
ghost use Rattle.nk_values.specs.Ranges.{IsValue};
ghost use Rattle.topology_model.specs.Lines.{IsEnd};

// Whether each number is a port's.
fn are_ports(numbers: &[u16]) -> bool
    ensures { IsTrue result ↔ All (IsValue Pt) numbers.now }
{
    numbers
        .iter()
        .all(|number| Field::Pt.is_value(u64::from(*number)))
}

// Whether both numbers are in their range.
fn is_end(end: PortRef) -> bool
    ensures { IsTrue result ↔ IsEnd end }
{
    Field::Sw.is_value(u64::from(end.0)) && Field::Pt.is_value(u64::from(end.1))
}
