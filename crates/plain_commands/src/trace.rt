//! `nkctl trace`: the complete hop histories that each policy gives each packet (POPL 2014, sections 2 and 3).
//!
//! Layer: the program; public. Called by controller_program.
ghost use Rattle.std.specs.Prelude.{◌<◌, IfOk, IfErr, OnOk, string_bytes};
ghost use Rattle.document_text.specs.Terms.{Term};
ghost use Rattle.document_text.specs.Answers.{doc_of};
ghost use Rattle.outside_io.specs.Lists.{TakesAtMost};
ghost use Rattle.policy_rows.specs.Means.{RowsMean};
ghost use Rattle.program_answer.specs.Answers.{Stops};
ghost use Rattle.program_answer.specs.Called.{source_of};
ghost use Rattle.program_answer.specs.Input.{IsInputRefused, policies_of};
ghost use Rattle.program_answer.specs.Sound.{IsSound, IsSoundPacket};
ghost use Rattle.program_answer.specs.Versions.{AreVersions};
ghost use Rattle.report_text.specs.Traces.{AddsText, AreTexts};
ghost use Rattle.plain_commands.specs.Trace.{IsTraceAnswer, IsWalkOf, IsPacketLineText, IsTracedPolicyText};

use document_text::PacketLine;
use nk_values::Rows;
use outside_io::Source;
use packet_tracer::{OrderedRows, Walk, walk};
use policy_rows::Version;
use program_answer::{Answer, AnswerError, ReadyDocument, Status, read_input};
use std::alloc::{AllocError, Global};
use value_text::{Text, put_policy_line, put_walk};

/// What becomes of all packets of a source's document under each of its policies.
pub fn trace_answer<S: Source>(alloc: Global, source: &mut S) -> Result<Answer, AnswerError>
    ensures answer { IfOk result
        (λ a. IsTraceAnswer (source_of S.left S.faults source.old source.new) a.status a.text) }
    ensures stops { IfErr result (Stops IsInputRefused (source_of S.left S.faults source.old source.new)) }
    ensures at_most { TakesAtMost 4194305 (S.left source.old) (S.left source.new) }
{
    let input = read_input(alloc, source)?;
    let text = traces(alloc, &input.document, &input.versions)?;
    Ok(Answer {
        status: Status::Done,
        text: Text::new(text),
    })
}

// The texts of the policies. A walk is let go once its text is there, so that no two are held at once.
fn traces(
    alloc: Global,
    document: &ReadyDocument,
    versions: &[Version],
) -> Result<String, AllocError>
    requires sound { IsSound (doc_of document.now) }
    requires versions { AreVersions document.now.topology document.now.settings 0 (policies_of document.now)
        versions.now }
    ensures { IfOk result (λ out. AreTexts (IsTracedPolicyText (doc_of document.now)) 0 (policies_of document.now)
        (string_bytes out)) }
{
    let mut out = String::new(alloc);
    for (before, version) in versions.iter().enumerate() {
        put_policy(alloc, &mut out, before as u64 + 1, document, &version.rows)?;
    }
    Ok(out)
}

// Puts what becomes of the packets under a policy at the end.
fn put_policy(
    alloc: Global,
    out: &mut String,
    policy: u64,
    document: &ReadyDocument,
    rows: &Rows,
) -> Result<(), AllocError>
    requires sound { IsSound (doc_of document.now) }
    requires means { (p : Term) × RowsMean rows.now p document.now.topology }
    ensures { (p : Term) → RowsMean rows.now p document.now.topology →
        OnOk result (AddsText (IsTracedPolicyText (doc_of document.now) policy p) (string_bytes out.old)
        (string_bytes out.new)) }
{
    put_policy_line(out, policy)?;
    let ordered = OrderedRows::new(alloc, rows)?;
    put_packets(alloc, out, document, &ordered)
}

// Puts what becomes of each packet by some rows at the end.
fn put_packets(
    alloc: Global,
    out: &mut String,
    document: &ReadyDocument,
    rows: &OrderedRows,
) -> Result<(), AllocError>
    requires sound { IsSound (doc_of document.now) }
    requires means { (p : Term) × RowsMean rows.now p document.now.topology }
    ensures { (p : Term) → RowsMean rows.now p document.now.topology →
        OnOk result (AddsText (AreTexts (IsPacketLineText (doc_of document.now) p) 0 document.now.packets.items)
        (string_bytes out.old) (string_bytes out.new)) }
{
    for (before, line) in document.packets().iter().enumerate() {
        let walk = walk_of(alloc, document, rows, line)?;
        put_walk(alloc, out, before as u64 + 1, &walk)?;
    }
    Ok(())
}

// What becomes of one.
fn walk_of(
    alloc: Global,
    document: &ReadyDocument,
    rows: &OrderedRows,
    line: &PacketLine,
) -> Result<Walk, AllocError>
    requires means { (p : Term) × RowsMean rows.now p document.now.topology }
    requires packet { IsSoundPacket document.now.topology line.now }
    requires hops { 0 < document.now.settings.hops }
    ensures { (p : Term) → RowsMean rows.now p document.now.topology →
        IfOk result (IsWalkOf (doc_of document.now) p line.now) }
{
    let hops = u64::from(document.settings().hops);
    walk(
        alloc,
        rows,
        document.topology(),
        &line.packet,
        line.tag,
        hops,
    )
}
