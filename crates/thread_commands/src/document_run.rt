//! A run of a document's policies (SIGCOMM 2012, section 5).
//!
//! Layer: the program; private. Called by `run` and `watch`.
ghost use Rattle.std.specs.Prelude.{◌≡◌, IfOk, IfErr, map};
ghost use Rattle.document_text.specs.Answers.{doc_of};
ghost use Rattle.fleet_workers.specs.Watching.{IsWatched};
ghost use Rattle.program_answer.specs.Called.{change, net_of};
ghost use Rattle.program_answer.specs.Input.{policies_of};
ghost use Rattle.program_answer.specs.Sound.{IsSound};
ghost use Rattle.program_answer.specs.Versions.{AreVersions};
ghost use Rattle.program_answer.specs.Worlds.{IsWorldAnswer, start_of};
ghost use Rattle.thread_commands.specs.Run.{IsRunBy, TellsCut, line_of};
ghost use Rattle.thread_commands.specs.Watch.{IsSeenAnswer};

use crate::kept::{events_of, take_back};
use document_text::PacketLine;
use fleet_workers::{Lookout, Onlooker, Post, RunStart, make_pairs, run_world};
use outside_net::{Net, NetError, NetFault, Spawner};
use policy_rows::Version;
use program_answer::{Answer, AnswerError, Parts, ReadyDocument, world_answer, world_settings};
use std::alloc::{AllocError, Global};
use std::sync::Wait;
use std::time::Clock;
use value_text::Fault;
use watch_text::watch_text;
use worker_desk::{Gate, Host};
use world_core::{Events, World, halts_stay, losses_count};
use world_journal::{Line, RunError, RunFault};

// What a run came to: its world, the events that led to it, and what was seen of it.
#[derive(Drop)]
pub(crate) struct DocumentRun {
    pub world: World,
    pub events: Events,
    pub seen: Vec<Post>,
}

impl DocumentRun {
    // The report of a run, and what was seen of it.
    pub(crate) fn report(self, alloc: Global) -> Result<(Answer, Vec<Post>), AllocError>
        ensures report { IfOk result (λ r. IsWorldAnswer self.world self.events.items r.0) }
        ensures seen { IfOk result (λ r. r.1.items ≡ self.seen.items) }
    {
        let answer = world_answer(alloc, &self.world, &self.events)?;
        Ok((answer, self.seen))
    }

    // The report of a run, and after it what was seen of it.
    pub(crate) fn watched(self, alloc: Global) -> Result<Answer, AllocError>
        ensures { IfOk result (IsSeenAnswer self.world self.events.items self.seen.items) }
    {
        let report = world_answer(alloc, &self.world, &self.events)?;
        let text = watch_text(alloc, &report.text, self.world.coordinator(), &self.seen)?;
        Ok(Answer {
            status: report.status,
            text,
        })
    }
}

// Runs all policies of a document. If it is watched, one more worker keeps what it sees of the run.
pub(crate) fn run_document<
    R: Wait + Clock + Clone + Drop + Send + 'static,
    N: Net,
    T: Spawner,
    G: Gate + Onlooker + Send + Sync + 'static,
>(
    alloc: Global,
    document: ReadyDocument,
    versions: Vec<Version>,
    watched: bool,
    host: &mut Host<R, N, T, G>,
) -> Result<DocumentRun, AnswerError>
where
    N::End: 'static,
    requires sound { IsSound (doc_of document) }
    requires versions { AreVersions document.topology document.settings 0 (policies_of document) versions.items }
    ensures ran { IfOk result
        (λ r. IsRunBy r.events.items r.world (net_of N.faults N.broken N.gathered host.old.net host.new.net)
        (doc_of document) versions.items) }
    ensures seen { IfOk result
        (λ r. IsWatched (start_of (doc_of document) versions.items) r.events.items r.seen.items) }
    ensures cut { IfErr result
        (TellsCut (change N.faults host.old.net host.new.net) (change T.faults host.old.threads host.new.threads)) }
{
    let Parts {
        topology,
        packets,
        settings,
        ..
    } = document.into_parts();
    let lines = lines_of(alloc, &packets)?;
    let count = topology.switches().len() as u32;
    let lookout = Lookout {
        last: versions.len(),
        keeps: watched,
    };
    let world = World::start(alloc, versions, topology, world_settings(settings))?;
    let ends = match make_pairs(alloc, &mut host.net, count) {
        Ok(ends) => ends,
        Err(NetError::Fault(NetFault::Broken)) => return Err(AnswerError::Fault(Fault::Net)),
        Err(NetError::Memory) => return Err(AnswerError::Memory),
    };
    losses_count();
    halts_stay();
    let start = RunStart {
        world,
        lines,
        lookout,
    };
    match run_world(alloc, start, ends, host) {
        Ok(record) => {
            take_back(&mut host.net, record.kept);
            Ok(DocumentRun {
                world: record.world,
                events: events_of(alloc, record.journal)?,
                seen: record.seen,
            })
        }
        Err(RunError::Fault(RunFault::NoThread)) => Err(AnswerError::Fault(Fault::NoThread)),
        Err(RunError::Fault(RunFault::NetFault)) => Err(AnswerError::Fault(Fault::Net)),
        Err(RunError::Memory) => Err(AnswerError::Memory),
    }
}

// The packets that are to come in.
fn lines_of(alloc: Global, packets: &[PacketLine]) -> Result<Vec<Line>, AllocError>
    ensures { IfOk result (λ lines. lines.items ≡ map line_of packets.now) }
{
    let mut lines = Vec::new(alloc);
    for packet in packets {
        lines.push(Line {
            packet: packet.packet,
            tag: packet.tag,
        })?;
    }
    Ok(lines)
}
