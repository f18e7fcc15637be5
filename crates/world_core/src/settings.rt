//! What a world is started with beside its policies and its topology.
//!
//! Layer: the world; public. Called by `world` here, and by many crates. Clauses of plain_commands, run_laws and
//! thread_commands name it.

/// How far a copy goes, how many rows a switch holds, how many sessions may be lost, and whether drains overlap.
#[derive(Clone, Copy, Debug, PartialEq, Eq)]
pub struct Settings {
    /// How many hops a copy may take, at least 1.
    pub hops: u64,
    /// For how many rows a switch has room.
    pub capacity: usize,
    /// How many sessions may be lost without a halt, at most 1,000.
    pub rejoins: usize,
    /// If drains overlap, how many stamps go round.
    pub overlap: Option<u16>,
}
