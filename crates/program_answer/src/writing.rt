//! The one writing of a call.
//!
//! Layer: the program; public. Called by controller_program.
ghost use Rattle.std.specs.Prelude.{◌≡◌, ◌⊎◌};
ghost use Rattle.std.specs.Result.{ForOk};
ghost use Rattle.report_text.specs.Faults.{HasValues, fault_text};
ghost use Rattle.program_answer.specs.Called.{sink_of};
ghost use Rattle.program_answer.specs.Statuses.{IsReport, status_of};
ghost use Rattle.program_answer.specs.Writing.{Says, SaysAnswer, IsUnsaid};

use crate::answer::{Answer, AnswerError};
use crate::status::Status;
use outside_io::{Sink, write_all};
use report_text::{Fault, fault_text, fixed_line};
use std::alloc::Global;

/// Writes an answer, or the line of the fault that stands in its place, and tells how the call ended. Out of memory,
/// nothing is written; the lines of faults of the outside and of words take none.
pub fn say<K: Sink>(alloc: Global, sink: &mut K, answer: Result<Answer, AnswerError>) -> Status
    requires { ForOk answer (λ a. IsReport a.status) }
    ensures said { SaysAnswer answer result (sink_of K.written K.faults sink.old sink.new) }
    ensures memory { result ≡ Status.Memory → sink.new ≡ sink.old }
{
    match answer {
        Ok(answer) => write(sink, answer.text.as_bytes(), answer.status),
        Err(AnswerError::Fault(fault)) => say_fault(alloc, sink, &fault),
        Err(AnswerError::Memory) => Status::Memory,
    }
}

// Writes the line of a fault.
fn say_fault<K: Sink>(alloc: Global, sink: &mut K, fault: &Fault) -> Status
    ensures said { Says (status_of fault.now) (fault_text fault.now) result
        (sink_of K.written K.faults sink.old sink.new) ⊎
        (HasValues fault.now × IsUnsaid result (sink_of K.written K.faults sink.old sink.new)) }
    ensures memory { result ≡ Status.Memory → sink.new ≡ sink.old }
{
    if let Some(line) = fixed_line(fault) {
        return write(sink, line.as_bytes(), Status::of_fault(fault));
    }
    match fault_text(alloc, fault) {
        Ok(text) => write(sink, text.as_bytes(), Status::of_fault(fault)),
        Err(_) => Status::Memory,
    }
}

// Writes bytes and answers the status, or a write fault.
fn write<K: Sink>(sink: &mut K, bytes: &[u8], status: Status) -> Status
    ensures said { Says status bytes.now result (sink_of K.written K.faults sink.old sink.new) }
    ensures never { result ≡ Status.Memory → status ≡ Status.Memory }
{
    match write_all(sink, bytes) {
        Ok(()) => status,
        Err(_) => Status::WriteFault,
    }
}
