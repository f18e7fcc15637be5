//! Packets of unnamed values.
//!
//! Layer: diagrams; public. Called by `differ` and `witness` here, and by fdd_apart, fdd_compile and fdd_star.
ghost use Rattle.std.specs.Prelude.{◌≡◌};
ghost use Rattle.fdd_differ.specs.Unnamed.{AreFewNames, IsFreshOf, IsUnnamed, first_tried};

use crate::names::Names;
use nk_values::{Field, Header, Packet};

/// A packet in range that holds no value which something names, and is no IPv4. It looks through at most 4,001 values
/// of each field.
pub fn unnamed<N: Names>(names: &N) -> Packet
    requires { AreFewNames (N.names names.now) }
    ensures { IsFreshOf (N.names names.now) result }
{
    Packet {
        sw: unnamed_at(names, Field::Sw),
        pt: unnamed_at(names, Field::Pt),
        header: Header {
            eth_typ: unnamed_at(names, Field::EthTyp),
            ip_proto: unnamed_at(names, Field::IpProto),
            eth_src: unnamed_at(names, Field::EthSrc),
            eth_dst: unnamed_at(names, Field::EthDst),
            ip4_src: unnamed_at(names, Field::Ip4Src),
            ip4_dst: unnamed_at(names, Field::Ip4Dst),
            tcp_src_port: unnamed_at(names, Field::TcpSrcPort),
            tcp_dst_port: unnamed_at(names, Field::TcpDstPort),
        },
    }
}

// The first value that is tried: no unnamed value is to be the type of IPv4.
fn first_tried(f: Field) -> u64
    ensures { result ≡ first_tried f }
{
    match f {
        Field::EthTyp => 2049,
        Field::Sw | Field::Pt => 1,
        _ => 0,
    }
}

fn unnamed_at<N: Names>(names: &N, f: Field) -> u64
    requires { AreFewNames (N.names names.now) }
    ensures { IsUnnamed (N.names names.now) f result }
{
    let first = first_tried(f);
    if first < f.least_literal() {
        return first;
    }
    for i in 0..4001u64 {
        let value = first + i;
        if !names.has(f, value) {
            return value;
        }
    }
    unreachable!()
}
