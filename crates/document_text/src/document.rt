//! What a document says.
//!
//! Layer: texts that are read; public. Called by many modules here, and by many crates. Clauses of audit_command and
//! report_laws name it.
use nk_syntax::Pol;
use nk_values::{Packet, Tag};
use topology_model::Topology;

/// A packet that a host sends, and its tag.
#[derive(Clone, Copy, Debug, PartialEq, Eq)]
pub struct PacketLine {
    pub packet: Packet,
    pub tag: Tag,
}

/// The hop limit, the rows that a switch has room for, the first and last stamp of the policies, and how many sessions
/// may be lost without a halt. If drains overlap, an update may begin while packets of earlier policies are on their
/// way.
#[derive(Clone, Copy, Debug, PartialEq, Eq)]
pub struct Settings {
    pub hops: u32,
    pub capacity: u32,
    pub stamps: (u16, u16),
    pub rejoins: u32,
    pub overlap: bool,
}

/// A command of a schedule. Switches go by their numbers, packet lines count from 1, and flow mods and
/// flights from 0.
#[derive(Clone, Copy, Debug, PartialEq, Eq)]
pub enum ScheduleStep {
    Begin,
    Send(u16),
    Take(u16),
    Apply(u16, u32),
    Reply(u16),
    Heard(u16),
    Arrive(usize),
    Hop(u32),
    Drained(u16),
    Lost(u16),
    Rejoin(u16),
    Stuck(u32),
    Settle,
    Flow,
}

/// A command with the number of its line.
#[derive(Clone, Copy, Debug, PartialEq, Eq)]
pub struct ScheduleLine {
    pub line: u64,
    pub event: ScheduleStep,
}

/// A document: the topology, the policies from the first on, the packets, the settings and the schedule.
#[derive(Drop)]
pub struct Document {
    pub topology: Topology,
    pub policies: Vec<Pol>,
    pub packets: Vec<PacketLine>,
    pub settings: Settings,
    pub schedule: Vec<ScheduleLine>,
}
