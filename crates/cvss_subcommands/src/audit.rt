//! `cvss audit`.

ghost use Rattle.std.specs.Prelude.{◌≡◌, ◌++◌, IfOk, OnOk};
ghost use Rattle.cvss_audit.specs.Task.{audit_ends};
ghost use Rattle.cvss_frame.specs.Operands.{ServesAll};
ghost use Rattle.cvss_frame.specs.Reports.{reported};
ghost use Rattle.cvss_frame.specs.Streams.{state};
ghost use Rattle.cvss_subcommands.specs.Auditing.{Audits, AuditsBy, ReportsCounts, ReportsNumbers, asked_of, audit_form, audit_gate, counted_text, counts_text, has_last_line, layout_of, plural};

use crate::counting::print_count;
use crate::flags::Flags;
use cvss_audit::{Asked, Audit, AuditForm, Counts, Layout};
use cvss_frame::{Host, Report, Served, Streams, serve_operands};
use cvss_lines::{OutputBuffer, RunFault};
use cvss_report::Gate;
use std::alloc::{AllocError, Global};
use std::cell::Cell;
use std::fmt::{self, Write as _};
use std::io::Write;

/// Audits the documents of the operands, and prints or reports what was counted, where that is asked for.
pub(crate) fn audit<H: Host>(
    alloc: Global,
    flags: Flags,
    operands: &[Vec<u8>],
    streams: &mut Streams<H>,
) -> Served
    ensures { Audits flags operands.now (state streams.old) (state streams.new) result }
{
    let counts = Cell::new(Counts::new());
    let served = serve(alloc, flags, &counts, operands, streams);
    if flags.counts() {
        print_count(alloc, counts.get().severities, served, streams)
    } else if has_last_line(flags) {
        report_counts(alloc, counts.get(), served, &mut streams.errors)
    } else {
        served
    }
}

/// Audits the documents of the operands, and counts them.
fn serve<H: Host>(
    alloc: Global,
    flags: Flags,
    counts: &Cell<Counts>,
    operands: &[Vec<u8>],
    streams: &mut Streams<H>,
) -> Served
    ensures { ServesAll (audit_ends (asked_of flags))
        operands.now (state streams.old) (state streams.new) result }
{
    let task = Audit {
        asked: asked_of(flags),
        counts,
    };
    serve_operands(alloc, &task, operands, streams)
}

/// Whether the numbers of documents, vectors and disagreements are reported, if no others are printed.
fn has_last_line(flags: Flags) -> bool
    ensures { result ≡ has_last_line flags }
{
    !flags.json && !flags.quiet
}

/// How documents are audited, by the options.
fn asked_of(flags: Flags) -> Asked
    ensures { result ≡ asked_of flags }
{
    Asked {
        layout: layout_of(flags),
        allow_incomplete: flags.allow_incomplete,
        form: form_of(flags),
        gate: gate_of(flags),
    }
}

/// Which vectors are passed over, and on which the audit fails.
fn gate_of(flags: Flags) -> Gate
    ensures { result ≡ audit_gate flags }
{
    match flags.gate_by() {
        Some(gate) => gate,
        None => Gate {
            minimum: 0,
            fail_on: None,
            quiet: false,
        },
    }
}

/// How inputs hold their documents.
fn layout_of(flags: Flags) -> Layout
    ensures { result ≡ layout_of flags.document }
{
    if flags.document {
        Layout::Whole
    } else {
        Layout::Either
    }
}

/// How the answers of an audit are written.
fn form_of(flags: Flags) -> AuditForm
    ensures { result ≡ audit_form flags.json flags.differing }
{
    match (flags.json, flags.differing) {
        (false, _) => AuditForm::Disagreements,
        (true, false) => AuditForm::Objects,
        (true, true) => AuditForm::DifferingObjects,
    }
}

/// Reports what was counted, unless the command has stopped.
fn report_counts<E: Write>(
    alloc: Global,
    counts: Counts,
    served: Served,
    report: &mut Report<E>,
) -> Served
    ensures { ReportsCounts served (reported E.contents report.old) (reported E.contents report.new) result }
{
    match served.stopped {
        Some(_) => served,
        None => report_numbers(alloc, counts, served, report),
    }
}

fn report_numbers<E: Write>(
    alloc: Global,
    counts: Counts,
    served: Served,
    report: &mut Report<E>,
) -> Served
    ensures { ReportsNumbers served (reported E.contents report.old) (reported E.contents report.new) result }
{
    match counts_text(alloc, counts) {
        Ok(text) => {
            report.write(&text.bytes);
            served
        }
        Err(_) => served.after(Err(RunFault::Memory)),
    }
}

/// The line that says what was counted.
fn counts_text(alloc: Global, counts: Counts) -> Result<OutputBuffer, AllocError>
    ensures { IfOk result (λ text. text.bytes.items ≡ counts_text counts) }
{
    let mut text = OutputBuffer {
        bytes: Vec::new(alloc),
    };
    match write_counts(counts, &mut text) {
        Ok(()) => Ok(text),
        Err(_) => Err(AllocError),
    }
}

fn write_counts(counts: Counts, text: &mut OutputBuffer) -> fmt::Result
    ensures { OnOk result (text.new.bytes.items ≡ text.old.bytes.items ++ counts_text counts) }
{
    write_counted("cvss: ", counts.documents, " document", text)?;
    write_counted(", ", counts.vectors, " vector", text)?;
    write_counted(", ", counts.disagreements, " disagreement", text)?;
    text.write_str("\n")
}

/// Writes how many there are of what a word says.
#[tactic(auto, using(cvss_lines::proofs::TextsLemmas::appended))]
fn write_counted(before: &str, count: u64, word: &str, text: &mut OutputBuffer) -> fmt::Result
    ensures { OnOk result (text.new.bytes.items
        ≡ text.old.bytes.items ++ counted_text before.now count word.now) }
{
    write!(text, "{before}{count}{word}{}", plural(count))
}

/// What follows a word about so many.
fn plural(count: u64) -> &'static str
    ensures { result.now ≡ plural count }
{
    if count == 1 { "" } else { "s" }
}
