//! The answer of `nkctl drive`.
//!
//! Layer: the program; public. Called by controller_program.
ghost use Rattle.std.specs.Prelude.{◌≡◌, IfOk, IfErr};
ghost use Rattle.document_text.specs.Answers.{doc_of};
ghost use Rattle.drive_journal.specs.Journals.{AreWritable};
ghost use Rattle.outside_io.specs.Lists.{TakesAtMost};
ghost use Rattle.program_answer.specs.Called.{change, source_of};
ghost use Rattle.program_answer.specs.Input.{policies_of};
ghost use Rattle.program_answer.specs.Sound.{IsSound};
ghost use Rattle.program_answer.specs.Versions.{AreVersions};
ghost use Rattle.drive_command.specs.Drive.{DriveStops, IsDriveAnswer, IsDrivenAs, IsToldAs, TellsDriveCut};

use crate::beginning::begin;
use document_text::DeclaredSwitch;
use drive_journal::{Steering, starts_halt_at_loss};
use drive_text::drive_text;
use drive_workers::{DriveError, DriveFault, Gate, Host, Onlooker, drive_over};
use outside_io::Source;
use outside_net::{Net, Reporter, Spawner};
use policy_rows::Version;
use program_answer::{Answer, AnswerError, Fault, ReadyDocument, Status, read_input};
use std::alloc::{AllocError, Global};
use std::sync::Wait;
use std::time::Clock;
use update_coordinator::Coordinator;

/// The report of a drive of the policies of a source's document, with a worker in a thread of its own for each switch.
/// Once the document is accepted, the reporter of drains listens, a port is opened for each switch, and then threads
/// are started. The port of the first switch is `first`, the others follow in the order of the document, and the
/// reporter comes after them. It waits for the switches and for the reports. Packets and the schedule of the document
/// are not used, and the first session that is lost halts the drive.
pub fn drive_answer<
    R: Wait + Clock + Clone + Drop + Send + 'static,
    S: Source,
    N: Net,
    T: Spawner,
    G: Gate + Onlooker + Send + Sync + 'static,
    Q: Reporter,
>(
    alloc: Global,
    source: &mut S,
    first: u16,
    host: &mut Host<R, N, T, G>,
    reporter: &mut Q,
) -> Result<Answer, AnswerError>
where
    N::End: 'static,
    Q::Receipt: Send + 'static,
    ensures answer { IfOk result
        (λ a. IsDriveAnswer Q.Receipt.stamped (source_of S.left S.faults source.old source.new)
        (change N.broken host.old.net host.new.net) a.status a.text) }
    ensures stops { IfErr result
        (DriveStops (source_of S.left S.faults source.old source.new) (change N.faults host.old.net host.new.net)
        (change T.faults host.old.threads host.new.threads) (change Q.faults reporter.old reporter.new)) }
    ensures at_most { TakesAtMost 4194305 (S.left source.old) (S.left source.new) }
{
    let input = read_input(alloc, source)?;
    drive_document(alloc, input.document, input.versions, first, host, reporter)
}

// Drives the switches of a document through all of its policies, and reports the journal.
fn drive_document<
    R: Wait + Clock + Clone + Drop + Send + 'static,
    N: Net,
    T: Spawner,
    G: Gate + Onlooker + Send + Sync + 'static,
    Q: Reporter,
>(
    alloc: Global,
    document: ReadyDocument,
    versions: Vec<Version>,
    first: u16,
    host: &mut Host<R, N, T, G>,
    reporter: &mut Q,
) -> Result<Answer, AnswerError>
where
    N::End: 'static,
    Q::Receipt: Send + 'static,
    requires sound { IsSound (doc_of document) }
    requires versions { AreVersions document.topology document.settings 0 (policies_of document) versions.items }
    ensures driven { IfOk result
        (IsDrivenAs Q.Receipt.stamped (change N.broken host.old.net host.new.net) (doc_of document) versions.items) }
    ensures cut { IfErr result
        (TellsDriveCut (change N.faults host.old.net host.new.net) (change T.faults host.old.threads host.new.threads)
        (change Q.faults reporter.old reporter.new)) }
{
    let topology = document.into_parts().topology;
    starts_halt_at_loss();
    let coordinator = begin(alloc, &topology, versions)?;
    match drive_over(alloc, coordinator, first, host, reporter) {
        Ok((coordinator, journal)) => {
            let answer = report(alloc, topology.switches(), &coordinator, &journal)?;
            Ok(answer)
        }
        Err(DriveError::Fault(DriveFault::Net)) => Err(AnswerError::Fault(Fault::Net)),
        Err(DriveError::Fault(DriveFault::NoThread)) => Err(AnswerError::Fault(Fault::NoThread)),
        Err(DriveError::Fault(DriveFault::Report)) => Err(AnswerError::Fault(Fault::Report)),
        Err(DriveError::Memory) => Err(AnswerError::Memory),
    }
}

// The report of a journal with its coordinator.
fn report(
    alloc: Global,
    switches: &[DeclaredSwitch],
    coordinator: &Coordinator,
    journal: &[Steering],
) -> Result<Answer, AllocError>
    requires { AreWritable journal.now }
    ensures { IfOk result (IsToldAs switches.now coordinator.now journal.now) }
{
    let halt = coordinator.halt();
    let status = if halt.is_some() {
        Status::Halted
    } else {
        Status::Done
    };
    let text = drive_text(alloc, switches, journal, coordinator.phase(), halt)?;
    Ok(Answer { status, text })
}
