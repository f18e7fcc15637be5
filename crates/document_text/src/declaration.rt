//! What lines tell beside the topology.
//!
//! Layer: texts that are read; private. Called by many modules.
ghost use Rattle.std.specs.Prelude.{◌≡◌};
ghost use Rattle.document_text.specs.States.{place_of_kind};

use crate::document::{PacketLine, ScheduleLine};
use nk_syntax::Pol;
use std::alloc::Global;

/// The kinds of lines, in the order in which they stand.
#[derive(Clone, Copy, Debug, PartialEq, Eq)]
pub enum LineKind {
    Switch,
    Link,
    Setting,
    Policy,
    Packet,
    Schedule,
}

impl LineKind {
    /// The place in the order, from 0.
    pub fn place(self) -> u8
        ensures { result ≡ place_of_kind self }
    {
        self as u8
    }
}

/// The kind of the latest line, the settings that were given, policies, packets and events. The next
/// line may stand inside the schedule.
#[derive(Drop)]
pub struct Declarations {
    pub reached: LineKind,
    pub hops: Option<u32>,
    pub capacity: Option<u32>,
    pub stamps: Option<(u16, u16)>,
    pub rejoins: Option<u32>,
    pub overlap: bool,
    pub policies: Vec<Pol>,
    pub packets: Vec<PacketLine>,
    pub inside: bool,
    pub events: Vec<ScheduleLine>,
}

ghost use Rattle.topology_model.specs.Layouts.{empty};
ghost use Rattle.document_text.specs.States.{initial_state};
ghost use Rattle.document_text.specs.Answers.{state};

impl Declarations {
    /// Before the first line.
    pub fn new(alloc: Global) -> Declarations
        ensures { state empty result ≡ initial_state }
    {
        Declarations {
            reached: LineKind::Switch,
            hops: None,
            capacity: None,
            stamps: None,
            rejoins: None,
            overlap: false,
            policies: Vec::new(alloc),
            packets: Vec::new(alloc),
            inside: false,
            events: Vec::new(alloc),
        }
    }
}
