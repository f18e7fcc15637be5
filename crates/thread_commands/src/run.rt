//! `nkctl run`: the switches are taken from one policy to the next by threads that talk over links, while packets cross
//! the network (SIGCOMM 2012, section 5).
//!
//! Layer: the program; public. Called by controller_program.
ghost use Rattle.std.specs.Prelude.{IfOk, IfErr};
ghost use Rattle.outside_io.specs.Lists.{TakesAtMost};
ghost use Rattle.program_answer.specs.Called.{change, net_of, source_of};
ghost use Rattle.thread_commands.specs.Run.{IsRunAnswer, RunStops};

use crate::document_run::run_document;
use fleet_workers::Onlooker;
use outside_io::Source;
use outside_net::{Net, Spawner};
use program_answer::{Answer, AnswerError, read_input};
use std::alloc::Global;
use std::sync::Wait;
use std::time::Clock;
use worker_desk::{Gate, Host};

/// The report of a run of the policies of a source's document, with a worker in a thread of its own for each session
/// and each switch, and two that bring its packets in. Pairs of links are made once the document is accepted, and then
/// threads; and a new pair for each switch that was lost and returns. It may wait for a link or a thread.
pub fn run_answer<
    R: Wait + Clock + Clone + Drop + Send + 'static,
    S: Source,
    N: Net,
    T: Spawner,
    G: Gate + Onlooker + Send + Sync + 'static,
>(alloc: Global, source: &mut S, host: &mut Host<R, N, T, G>) -> Result<Answer, AnswerError>
where
    N::End: 'static,
    ensures answer { IfOk result
        (λ a. IsRunAnswer (source_of S.left S.faults source.old source.new)
        (net_of N.faults N.broken N.gathered host.old.net host.new.net) a.status a.text) }
    ensures stops { IfErr result
        (RunStops (source_of S.left S.faults source.old source.new) (change N.faults host.old.net host.new.net)
        (change T.faults host.old.threads host.new.threads)) }
    ensures at_most { TakesAtMost 4194305 (S.left source.old) (S.left source.new) }
{
    let input = read_input(alloc, source)?;
    let run = run_document(alloc, input.document, input.versions, false, host)?;
    let (answer, _seen) = run.report(alloc)?;
    Ok(answer)
}
