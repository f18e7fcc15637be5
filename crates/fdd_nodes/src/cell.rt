//! Cells: what a path of a diagram fixes.
//!
//! Layer: diagrams; public. Called by many modules here, and by many crates.
ghost use Rattle.std.specs.Prelude.{◌≡◌};
ghost use Rattle.fdd_nodes.specs.Cells.{pick as the_pick};

use crate::assignments::{Assignments, applied};
use nk_values::{Field, Header, Lit, Packet};
use std::marker::Model;

// The number of a field that nothing fixes. No packet in range holds it, and no literal has it.
const UNSET: u64 = u64::MAX;

/// The packets that hold some numbers in some fields: what the true tests of a path leave (ICFP 2015, section 3).
///
/// Clauses see it as a packet of these numbers, and ask by `fixed_at` and `IsUnset` which fields it fixes.
#[derive(Clone, Copy, PartialEq, Eq, Hash)]
pub struct Cell {
    fixed: Packet,
}

impl Model for Cell {
    ghost use Rattle.nk_values.specs.declared.packet.Packet.{Packet};

    ghost Value = { Packet };

    ghost view = { λ c. c.fixed };

    ghost inverse = { λ p. record { fixed = p } };
}

/// What a cell knows of a literal: nothing, that each packet of it holds the number, or that none does.
#[derive(Clone, Copy, PartialEq, Eq)]
pub enum Knowledge {
    Unset,
    Yes,
    No,
}

impl Cell {
    ghost use Rattle.nk_values.specs.Held.{put};
    ghost use Rattle.fdd_nodes.specs.Cells.{whole_cell, cell_of, fill, fixed_at, is_unset};
    ghost use Rattle.fdd_nodes.specs.Copies.{IsCopy};
    ghost use Rattle.fdd_nodes.specs.Known.{Knows};
    ghost use Rattle.fdd_nodes.specs.Trees.{apply};

    /// The cell of all packets.
    pub fn whole() -> Cell
        ensures { result ≡ whole_cell }
    {
        Cell {
            fixed: Packet {
                sw: UNSET,
                pt: UNSET,
                header: Header {
                    eth_typ: UNSET,
                    ip_proto: UNSET,
                    eth_src: UNSET,
                    eth_dst: UNSET,
                    ip4_src: UNSET,
                    ip4_dst: UNSET,
                    tcp_src_port: UNSET,
                    tcp_dst_port: UNSET,
                },
            },
        }
    }

    /// The cell of the packets that hold a literal's number.
    pub fn of(l: &Lit) -> Cell
        ensures { result ≡ cell_of l.now }
    {
        Cell::whole().with(l)
    }

    /// The packets of the cell that hold a literal's number, if the cell leaves its field open.
    pub fn with(&self, l: &Lit) -> Cell
        ensures { result ≡ put l.now self.now }
    {
        Cell {
            fixed: l.put(&self.fixed),
        }
    }

    /// What a copy makes of the cell: the assignments are fixed, and what else the cell fixes.
    pub fn after(&self, copy: &Assignments) -> Cell
        ensures made { result ≡ apply copy.now self.now }
        ensures copy { IsCopy copy.now }
    {
        Cell {
            fixed: applied(copy.lits(), &self.fixed),
        }
    }

    /// The number that the cell fixes at a field, or none if it leaves the field open.
    pub fn get(&self, f: Field) -> Option<u64>
        ensures { result ≡ fixed_at self.now f }
    {
        if self.is_unset(f) {
            None
        } else {
            Some(self.fixed.get(f))
        }
    }

    /// Whether the cell leaves a field open.
    pub fn is_unset(&self, f: Field) -> bool
        ensures { result ≡ is_unset self.now f }
    {
        self.fixed.get(f) == UNSET
    }

    /// What is known of a literal.
    pub fn knows(&self, l: &Lit) -> Knowledge
        ensures { Knows self.now l.now result }
    {
        let fixed = self.fixed.get(l.field());
        if fixed == UNSET {
            Knowledge::Unset
        } else if fixed == l.value() {
            Knowledge::Yes
        } else {
            Knowledge::No
        }
    }

    /// The packet of the cell that is another one in the fields that the cell leaves open.
    pub fn filled(&self, packet: &Packet) -> Packet
        ensures { result ≡ fill self.now packet.now }
    {
        let (fixed, inner, outer) = (&self.fixed, &self.fixed.header, &packet.header);
        Packet {
            sw: pick(fixed.sw, packet.sw),
            pt: pick(fixed.pt, packet.pt),
            header: Header {
                eth_typ: pick(inner.eth_typ, outer.eth_typ),
                ip_proto: pick(inner.ip_proto, outer.ip_proto),
                eth_src: pick(inner.eth_src, outer.eth_src),
                eth_dst: pick(inner.eth_dst, outer.eth_dst),
                ip4_src: pick(inner.ip4_src, outer.ip4_src),
                ip4_dst: pick(inner.ip4_dst, outer.ip4_dst),
                tcp_src_port: pick(inner.tcp_src_port, outer.tcp_src_port),
                tcp_dst_port: pick(inner.tcp_dst_port, outer.tcp_dst_port),
            },
        }
    }

    /// The packet that stands for the cell: no copy and no test names what it holds in the open fields.
    pub fn generic(&self) -> &Packet
        ensures { result.now ≡ self.now }
    {
        &self.fixed
    }
}

fn pick(fixed: u64, other: u64) -> u64
    ensures { result ≡ the_pick fixed other }
{
    if fixed == UNSET { other } else { fixed }
}
