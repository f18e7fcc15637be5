//! Which command answers which words.
//!
//! Layer: the program; private. Called by `call`.
ghost use Rattle.std.specs.Prelude.{◌≡◌, ℕ, Err};
ghost use Rattle.outside_io.specs.Lists.{TakesAtMost};
ghost use Rattle.command_line.specs.Commands.{IsReader};
ghost use Rattle.program_answer.specs.Called.{SinkSeen, change, net_of, source_of};
ghost use Rattle.controller_program.specs.Called.{Called, called, reporter_of};
ghost use Rattle.controller_program.specs.Calls.{IsLine, ReadsFrom, no_net, no_reporter, still};
ghost use Rattle.controller_program.specs.Commands.{IsAny, IsReported, IsThreaded, IsThreadless};
ghost use Rattle.controller_program.specs.Told.{AnswersWords, AnswersTo};

use audit_command::audit_answer;
use command_line::{Command, asked};
use drive_command::drive_answer;
use equal_command::equiv_answer;
use outside_io::Source;
use outside_net::{Net, Reporter, Spawner};
use plain_commands::{generate_answer, rules_answer, simulate_answer, trace_answer};
use program_answer::{Answer, AnswerError};
use std::alloc::Global;
use std::sync::Wait;
use std::time::Clock;
use thread_commands::{Onlooker, run_answer, watch_answer};
use value_text::Fault;
use worker_desk::{Gate, Host};

/// What words come to without links and threads: those that ask for a command that needs them are no command line.
pub fn plain_answer<S: Source>(
    alloc: Global,
    words: &[String],
    source: &mut S,
) -> Result<Answer, AnswerError>
    ensures answers { (sink : SinkSeen) →
        AnswersWords IsThreadless
        (called words.now (source_of S.left S.faults source.old source.new) sink no_net still no_reporter) result }
    ensures at_most { TakesAtMost 4194305 (S.left source.old) (S.left source.new) }
    ensures untouched { ¬ (ReadsFrom IsThreadless words.now) → source.new ≡ source.old }
{
    match asked(alloc, words) {
        Ok(Some(command)) => command_answer(alloc, command, source),
        Ok(None) => Err(AnswerError::Fault(Fault::Usage)),
        Err(_) => Err(AnswerError::Memory),
    }
}

/// What words come to.
pub fn any_answer<
    R: Wait + Clock + Clone + Drop + Send + 'static,
    S: Source,
    N: Net,
    T: Spawner,
    G: Gate + Onlooker + Send + Sync + 'static,
    Q: Reporter,
>(
    alloc: Global,
    words: &[String],
    source: &mut S,
    host: &mut Host<R, N, T, G>,
    reporter: &mut Q,
) -> Result<Answer, AnswerError>
where
    N::End: 'static,
    Q::Receipt: Send + 'static,
    ensures answers { (sink : SinkSeen) →
        AnswersWords IsAny (called words.now (source_of S.left S.faults source.old source.new) sink
        (net_of N.faults N.broken N.gathered host.old.net host.new.net)
        (change T.faults host.old.threads host.new.threads)
        (reporter_of Q.Receipt.stamped (change Q.faults reporter.old reporter.new))) result }
    ensures at_most { TakesAtMost 4194305 (S.left source.old) (S.left source.new) }
    ensures untouched { ¬ (ReadsFrom IsAny words.now) → source.new ≡ source.old }
    ensures untouched_net { ¬ (IsLine IsThreaded words.now) → host.new.net ≡ host.old.net }
    ensures untouched_threads { ¬ (IsLine IsThreaded words.now) → host.new.threads ≡ host.old.threads }
    ensures untouched_reporter { ¬ (IsLine IsReported words.now) → reporter.new ≡ reporter.old }
{
    match asked(alloc, words) {
        Ok(Some(command)) => match command {
            Command::Run => run_answer(alloc, source, host),
            Command::Watch => watch_answer(alloc, source, host),
            Command::Drive(first) => drive_answer(alloc, source, first, host, reporter),
            _ => command_answer(alloc, command, source),
        },
        Ok(None) => Err(AnswerError::Fault(Fault::Usage)),
        Err(_) => Err(AnswerError::Memory),
    }
}

// What a command comes to that needs no threads; one that needs them is not taken.
fn command_answer<S: Source>(
    alloc: Global,
    command: Command,
    source: &mut S,
) -> Result<Answer, AnswerError>
    ensures answers { IsThreadless command → (c : Called ℕ) →
        c.source ≡ source_of S.left S.faults source.old source.new → AnswersTo command c result }
    ensures threads { IsThreaded command → result ≡ Err (AnswerError.Fault Fault.Usage) }
    ensures at_most { TakesAtMost 4194305 (S.left source.old) (S.left source.new) }
    ensures untouched { ¬ (IsThreadless command × IsReader command) → source.new ≡ source.old }
{
    match command {
        Command::Rules => rules_answer(alloc, source),
        Command::Trace => trace_answer(alloc, source),
        Command::Simulate => simulate_answer(alloc, source),
        Command::Equiv => equiv_answer(alloc, source),
        Command::Audit => audit_answer(alloc, source),
        Command::Generate(number) => generate_answer(alloc, number),
        Command::Run => Err(AnswerError::Fault(Fault::Usage)),
        Command::Watch => Err(AnswerError::Fault(Fault::Usage)),
        Command::Drive(_) => Err(AnswerError::Fault(Fault::Usage)),
    }
}
