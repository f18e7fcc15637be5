//! `nkctl generate`: the line of a number's workload.
//!
//! Layer: the program; public. Called by controller_program.
ghost use Rattle.std.specs.Prelude.{◌≡◌, IfOk, IfErr};
ghost use Rattle.program_answer.specs.declared.answer.AnswerError.TheVariants as error;
ghost use Rattle.plain_commands.specs.Generate.{IsGenerateAnswer};

use program_answer::{Answer, AnswerError, Status};
use report_text::generated_text;
use std::alloc::Global;
use workload_gen::drive;

/// Makes the document of a number, drives it by drawn events until none can happen, and counts what there was.
pub fn generate_answer(alloc: Global, number: u64) -> Result<Answer, AnswerError>
    ensures answer { IfOk result (λ a. IsGenerateAnswer number a.status a.text) }
    ensures stops { IfErr result (λ e. e ≡ error.Memory) }
{
    let driven = drive(alloc, number)?;
    let text = generated_text(alloc, driven.packets, &driven.world, &driven.events)?;
    Ok(Answer {
        status: Status::Done,
        text,
    })
}
