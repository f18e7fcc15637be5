//! The kinds of well-shaped packets.
//!
//! Layer: diagrams; public. Called by `witness` here, and by fdd_apart and fdd_compile.
ghost use Rattle.std.specs.Prelude.{◌≡◌, ◌↔◌, IsTrue};
ghost use Rattle.nk_values.specs.Packets.{with_value};
ghost use Rattle.nk_values.specs.Ranges.{IsLiteralOf};
ghost use Rattle.fdd_differ.specs.Frames.{IsFrame, frame_cell, Lacks, Leaves};

use fdd_nodes::Cell;
use nk_values::{Field, IPV4_TYPE, Lit, Packet, TCP, UDP};

/// What kind of frame a well-shaped packet is: without IPv4 (ethTyp is not 2048), TCP or UDP over IPv4 (ipProto is 6 or
/// 17), or other IPv4. It tells which fields hold 0, as OpenFlow 1.0.0 (section 3.1) has no value to match there.
#[derive(Clone, Copy, PartialEq, Eq)]
pub enum Frame {
    NoIp,
    OtherIp,
    Tcp,
    Udp,
}

impl Frame {
    /// Whether a packet is of this kind.
    pub fn includes(self, packet: &Packet) -> bool
        ensures { IsTrue result ↔ IsFrame self packet.now }
    {
        let ip = packet.header.eth_typ == IPV4_TYPE;
        let protocol = packet.header.ip_proto;
        match self {
            Frame::NoIp => !ip,
            Frame::OtherIp => ip && protocol != TCP && protocol != UDP,
            Frame::Tcp => ip && protocol == TCP,
            Frame::Udp => ip && protocol == UDP,
        }
    }

    /// What each packet of this kind holds.
    pub fn cell(self) -> Cell
        ensures { result ≡ frame_cell self }
    {
        let whole = Cell::whole();
        let ip = with_value(&whole, Field::EthTyp, IPV4_TYPE);
        match self {
            Frame::NoIp => whole,
            Frame::OtherIp => ip,
            Frame::Tcp => with_value(&ip, Field::IpProto, TCP),
            Frame::Udp => with_value(&ip, Field::IpProto, UDP),
        }
    }

    /// Whether packets of this kind have no such field, and hold 0 there.
    pub fn lacks(self, f: Field) -> bool
        ensures { IsTrue result ↔ Lacks self f }
    {
        match f {
            Field::IpProto | Field::Ip4Src | Field::Ip4Dst => self == Frame::NoIp,
            Field::TcpSrcPort | Field::TcpDstPort => self == Frame::NoIp || self == Frame::OtherIp,
            _ => false,
        }
    }

    /// Whether the kind leaves a number to a field, if it is one of the field's values.
    pub fn leaves(self, f: Field, value: u64) -> bool
        ensures { IsTrue result ↔ Leaves self f value }
    {
        match f {
            Field::EthTyp => (value == IPV4_TYPE) != (self == Frame::NoIp),
            Field::IpProto => match self {
                Frame::NoIp => value == 0,
                Frame::OtherIp => value != TCP && value != UDP,
                Frame::Tcp => value == TCP,
                Frame::Udp => value == UDP,
            },
            _ => value == 0 || !self.lacks(f),
        }
    }
}

fn with_value(cell: &Cell, f: Field, value: u64) -> Cell
    requires { IsLiteralOf f value }
    ensures { result ≡ with_value cell.now f value }
{
    let Some(l) = Lit::new(f, value) else {
        unreachable!()
    };
    cell.with(&l)
}
