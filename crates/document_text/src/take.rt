//! Reading goes on from line to line.
//!
//! Layer: texts that are read; private. Called by `ending` and `feed`.
ghost use Rattle.std.specs.Prelude.{◌≡◌, true};
ghost use Rattle.document_text.specs.States.{has_edge};
ghost use Rattle.document_text.specs.Steps.{scheduled, enters};
ghost use Rattle.document_text.specs.Lines.{packet_line};
ghost use Rattle.document_text.specs.Answers.{state_of, texts};
ghost use Rattle.document_text.specs.declared.fault.DocumentError.TheVariants as to;

use crate::declaration::{Declarations, LineKind};
use crate::document::ScheduleLine;
use crate::fault::Stop;
use crate::head::{Head, head_of};
use crate::packet::packet_line;
use crate::reader::{Continuation, Reader};
use crate::schedule::{event_of, schedule_line};
use crate::setting::{
    capacity_line, hops_line, overlap_line, policy_line, rejoins_line, stamps_line,
};
use crate::topology::{link_line, switch_line};
use crate::words::is_end;
use nk_values::{TextFault, well_shaped};
use std::alloc::Global;
use topology_model::Draft;

mod finishing;

pub use finishing::refused;

// The most policies, packets and events of a document.
const MOST_POLICIES: usize = 64;

const MOST_PACKETS: usize = 10_000;

const MOST_EVENTS: usize = 100_000;

impl Reader {
    ghost use Rattle.std.specs.Prelude.{OnOk};
    ghost use Rattle.document_text.specs.declared.document.PacketLine.{PacketLine as Packet};
    ghost use Rattle.document_text.specs.States.{State, initial_state, is_late};
    ghost use Rattle.document_text.specs.Steps.{step, is_too_many, declares};
    ghost use Rattle.document_text.specs.Answers.{texts};
    ghost use Rattle.document_text.specs.Lines.{after_topology, after_policies};
    ghost use Rattle.document_text.specs.Answers.{state_of, FindsEdge, Lets, TakesLine, Passes};

    /// Before the first line.
    pub fn new(alloc: Global) -> Reader
        ensures { state_of result ≡ initial_state }
    {
        Reader {
            draft: Draft::new(alloc),
            declared: Declarations::new(alloc),
        }
    }

    /// Whether a line of this kind stands after one of a later kind.
    pub fn is_late(&self, kind: LineKind) -> bool
        ensures { result ≡ is_late (state_of self.now) kind }
    {
        kind.place() < self.declared.reached.place()
    }

    /// Stops if no port is without a link.
    pub fn after_topology(&self, alloc: Global) -> Result<(), Stop>
        ensures { FindsEdge (has_edge self.now.draft) result }
    {
        if self.declared.reached.place() >= 2 || !self.draft.edges(alloc)?.is_empty() {
            Ok(())
        } else {
            Err(Stop::Fault(TextFault::NoEdge))
        }
    }

    /// Stops if no port is without a link, or there is no policy.
    pub fn after_policies(&self, alloc: Global) -> Result<(), Stop>
        ensures packets { Lets {A = Packet} (after_policies (state_of self.now)) result }
        ensures states { Lets {A = State} (after_policies (state_of self.now)) result }
        ensures edge { OnOk result (has_edge self.now.draft ≡ true) }
    {
        self.after_topology(alloc)?;
        if self.declared.policies.is_empty() {
            return Err(Stop::Fault(TextFault::NoPolicy));
        }
        Ok(())
    }

    /// Takes the words of the line with this number. If memory runs out, nothing changes.
    pub fn take(&mut self, alloc: Global, line: u64, words: &[&[u8]]) -> Result<Continuation, Stop>
        ensures { TakesLine (step (state_of self.old) line (texts words.now)) (state_of self.old) (state_of self.new)
            result }
    {
        let Some((first, rest)) = words.split_first() else {
            return Ok(Continuation::Line);
        };
        let head = head_of(first);
        if self.is_too_many(head, words) {
            return Err(Stop::Fault(TextFault::Limit));
        }
        if self.declared.inside {
            self.scheduled(line, words)?;
            return Ok(Continuation::Line);
        }
        self.declares(alloc, head, rest)
    }

    // Whether the line is a policy, a packet or an event too many.
    fn is_too_many(&self, head: Head, words: &[&[u8]]) -> bool
        ensures { result ≡ is_too_many (state_of self.now) head (texts words.now) }
    {
        let event = self.declared.inside
            && !is_end(words)
            && self.declared.events.len() >= MOST_EVENTS;
        match head {
            Head::Policy => self.declared.policies.len() >= MOST_POLICIES || event,
            Head::Packet => self.declared.packets.len() >= MOST_PACKETS || event,
            _ => event,
        }
    }

    // Takes a line outside the schedule.
    fn declares(&mut self, alloc: Global, head: Head, words: &[&[u8]]) -> Result<Continuation, Stop>
        ensures { TakesLine (declares (state_of self.old) head (texts words.now)) (state_of self.old)
            (state_of self.new) result }
    {
        match head {
            Head::Switch => switch_line(self, alloc, words)?,
            Head::Link => link_line(self, alloc, words)?,
            Head::Hops => hops_line(self, alloc, words)?,
            Head::Capacity => capacity_line(self, alloc, words)?,
            Head::Stamps => stamps_line(self, alloc, words)?,
            Head::Rejoins => rejoins_line(self, alloc, words)?,
            Head::Overlap => overlap_line(self, alloc, words)?,
            Head::Policy => {
                policy_line(self, alloc, words)?;
                return Ok(Continuation::Opening);
            }
            Head::Packet => self.enters(alloc, words)?,
            Head::Schedule => schedule_line(self, alloc, words)?,
            Head::Unlisted => return Err(Stop::Fault(TextFault::BadLine)),
        }
        Ok(Continuation::Line)
    }

    // Takes a line inside the schedule.
    fn scheduled(&mut self, line: u64, words: &[&[u8]]) -> Result<(), Stop>
        ensures { Passes (scheduled (state_of self.old) line (texts words.now)) (state_of self.old) (state_of self.new)
            result }
    {
        if is_end(words) {
            self.declared.inside = false;
        } else {
            let event = event_of(self, words)?;
            self.declared.events.push(ScheduleLine { line, event })?;
        }
        Ok(())
    }

    // Takes a packet, which has to be well shaped.
    fn enters(&mut self, alloc: Global, words: &[&[u8]]) -> Result<(), Stop>
        ensures { Passes (enters (state_of self.old) (packet_line (state_of self.old) (texts words.now)))
            (state_of self.old) (state_of self.new) result }
    {
        let line = packet_line(self, alloc, words)?;
        if !well_shaped(&line.packet) {
            return Err(Stop::Fault(TextFault::BadLine));
        }
        self.declared.packets.push(line)?;
        self.declared.reached = LineKind::Packet;
        Ok(())
    }
}
