//! `nkctl watch`: a run, and what one reader saw of it meanwhile.
//!
//! Layer: the program; public. Called by controller_program.
ghost use Rattle.std.specs.Prelude.{IfOk, IfErr};
ghost use Rattle.outside_io.specs.Lists.{TakesAtMost};
ghost use Rattle.program_answer.specs.Called.{change, net_of, source_of};
ghost use Rattle.thread_commands.specs.Run.{RunStops};
ghost use Rattle.thread_commands.specs.Watch.{IsWatchAnswer};

use crate::document_run::run_document;
use fleet_workers::Onlooker;
use outside_io::Source;
use outside_net::{Net, Spawner};
use program_answer::{Answer, AnswerError, read_input};
use std::alloc::Global;
use std::sync::Wait;
use std::time::Clock;
use worker_desk::{Gate, Host};

/// The report that `run_answer` gives, and then a line for each post that one more worker saw, which reads meanwhile
/// how far the updates are, without a lock. It stops as `run_answer` does.
pub fn watch_answer<
    R: Wait + Clock + Clone + Drop + Send + 'static,
    S: Source,
    N: Net,
    T: Spawner,
    G: Gate + Onlooker + Send + Sync + 'static,
>(alloc: Global, source: &mut S, host: &mut Host<R, N, T, G>) -> Result<Answer, AnswerError>
where
    N::End: 'static,
    ensures answer { IfOk result
        (λ a. IsWatchAnswer (source_of S.left S.faults source.old source.new)
        (net_of N.faults N.broken N.gathered host.old.net host.new.net) a.status a.text) }
    ensures stops { IfErr result
        (RunStops (source_of S.left S.faults source.old source.new) (change N.faults host.old.net host.new.net)
        (change T.faults host.old.threads host.new.threads)) }
    ensures at_most { TakesAtMost 4194305 (S.left source.old) (S.left source.new) }
{
    let input = read_input(alloc, source)?;
    let run = run_document(alloc, input.document, input.versions, true, host)?;
    let answer = run.watched(alloc)?;
    Ok(answer)
}
