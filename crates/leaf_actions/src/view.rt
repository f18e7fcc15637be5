//! A port of a switch, and the other ports beside it.
//!
//! Layer: rows and packets; public. Called by many modules here, and by table_emitter and table_tests. Clauses of
//! workload_laws name it.
ghost use Rattle.std.specs.Prelude.{◌≡◌};
ghost use Rattle.leaf_actions.specs.Views.{port_in};

use nk_values::{List, PortKind};

/// A declared port of a switch, and whether a link has it.
#[derive(Clone, Copy, Debug, PartialEq, Eq)]
pub struct SwitchPort {
    pub pt: u16,
    pub kind: PortKind,
}

/// The declared ports of a switch.
pub type SwitchPorts = List<SwitchPort>;

/// A port of a switch as its rows see it: the switch and the port, what kind of port it is, the VLAN id that packets
/// carry between switches, and the declared ports of the switch.
#[derive(Drop)]
pub struct PortView {
    pub sw: u16,
    pub pt: u16,
    pub kind: PortKind,
    pub stamp: u16,
    pub ports: SwitchPorts,
}

impl PortView {
    /// The port of the switch with a number, if it is declared.
    pub fn port(&self, n: u64) -> Option<SwitchPort>
        ensures { result ≡ port_in self.now.ports n }
    {
        port_in(self.ports.as_slice(), n)
    }
}

fn port_in(ports: &[SwitchPort], n: u64) -> Option<SwitchPort>
    ensures { result ≡ port_in ports.now n }
{
    for port in ports {
        if u64::from(port.pt) == n {
            return Some(*port);
        }
    }
    None
}
