//! The answer to a text, which is a JSON document.

ghost use Rattle.std.specs.Prelude.{◌≡◌, [], IfErr, IfOk, OnOk, string_bytes};
ghost use Rattle.cvss_audit.specs.Answers.{AreErrorTexts, IsErrorIn, are_blanks, is_passed_over, not_json};
ghost use Rattle.cvss_audit.specs.Inputs.{input_view};
ghost use Rattle.cvss_audit.specs.Objects.{error_value};
ghost use Rattle.cvss_audit.specs.Locations.{locations_in};
ghost use Rattle.cvss_audit.specs.private.Writing.{Answers, StopsAnswering, StopsFound, StreamsFound, WritesLine, WritesTexts};
ghost use Rattle.cvss_audit.specs.Texts.{WritesObject};
ghost use Rattle.serde_json.specs.View.{view};

use crate::documents::files::is_blank;
use crate::documents::input::{AuditForm, Input};
use crate::locations::walk::vectors_in;
use crate::tree::write::write_tree_object;
use crate::written::lines::write_error;
use crate::written::location::answer_location;
use crate::written::members::{put_error, put_input};
use cvss_lines::{OutputBuffer, RunFault};
use serde_json::{Map, Value};
use std::alloc::{AllocError, Global};
use std::fmt::Write as _;
use std::io::Write;

/// Appends what is to be said of a document, by the form of the input, each text followed by a byte 10,
/// and may write what waits. A line of blanks alone is passed over. Says whether nothing is rejected and
/// nothing differs, and no vector lacks what it may not lack.
///
/// # Errors
///
/// Out of memory, or a failure of the writer. What waits is not to be written then.
pub(crate) fn answer_text<W: Write>(
    alloc: Global,
    input: Input<'_>,
    text: &[u8],
    answers: &mut OutputBuffer,
    writer: &mut W,
) -> Result<bool, RunFault>
    ensures streamed { IfOk result (Answers (input_view input.entry) text.now
        answers.old.bytes.items answers.new.bytes.items
        (W.contents writer.old) (W.contents writer.new)) }
    ensures stopped { IfErr result (StopsAnswering (input_view input.entry) text.now
        answers.old.bytes.items (W.contents writer.old) (W.contents writer.new)) }
{
    if is_passed_over(input, text) {
        return Ok(true);
    }
    let Ok(text) = str::from_utf8(text) else {
        reject_text(alloc, input, "not UTF-8", answers)?;
        return Ok(false);
    };
    match Value::from_str(alloc, text) {
        Ok(document) => {
            input.count_document();
            answer_document(alloc, input, &document, answers, writer)
        }
        Err(error) if error.is_memory() => Err(RunFault::Memory),
        Err(error) => {
            reject_json(alloc, input, error.line(), error.column(), answers)?;
            Ok(false)
        }
    }
}

/// Whether a text is a line that has nothing but the blanks of JSON.
fn is_passed_over(input: Input<'_>, text: &[u8]) -> bool
    ensures { result ≡ is_passed_over (input_view input.entry) text.now }
{
    input.line.is_some() && are_blanks(text)
}

/// Whether a text has nothing but the blanks of JSON.
fn are_blanks(text: &[u8]) -> bool
    ensures { result ≡ are_blanks text.now }
{
    text.iter().all(|byte| is_blank(*byte))
}

/// Writes why a text is no JSON, with the line and the column, in bytes, of the error.
fn reject_json(
    alloc: Global,
    input: Input<'_>,
    line: usize,
    column: usize,
    answers: &mut OutputBuffer,
) -> Result<(), AllocError>
    ensures { OnOk result (WritesTexts (AreErrorTexts input.entry.gate.quiet (input_view input.entry)
        (not_json line column)) answers.old.bytes.items answers.new.bytes.items) }
{
    let reason = not_json(alloc, line, column)?;
    reject_text(alloc, input, reason.as_str(), answers)
}

fn not_json(alloc: Global, line: usize, column: usize) -> Result<String, AllocError>
    ensures { IfOk result (λ reason. string_bytes reason ≡ not_json line column) }
{
    let mut reason = String::new(alloc);
    write!(reason, "not JSON: line {line}, column {column}")?;
    Ok(reason)
}

/// Writes why a text is no document, unless nothing is to be printed, and counts it.
fn reject_text(
    alloc: Global,
    input: Input<'_>,
    reason: &str,
    answers: &mut OutputBuffer,
) -> Result<(), AllocError>
    ensures { OnOk result (WritesTexts (AreErrorTexts input.entry.gate.quiet (input_view input.entry)
        reason.now) answers.old.bytes.items answers.new.bytes.items) }
{
    input.count_rejected();
    if input.gate.quiet {
        Ok(())
    } else {
        write_reason(alloc, input, reason, answers)
    }
}

/// Writes why a text is no document, by the form of the input.
fn write_reason(
    alloc: Global,
    input: Input<'_>,
    reason: &str,
    answers: &mut OutputBuffer,
) -> Result<(), AllocError>
    ensures { OnOk result (WritesLine (IsErrorIn input.entry.form (input_view input.entry) reason.now)
        answers.old.bytes.items answers.new.bytes.items) }
{
    match input.form {
        AuditForm::Disagreements => write_error(input, reason, answers),
        AuditForm::Objects | AuditForm::DifferingObjects => {
            write_error_object(alloc, input, reason, answers)
        }
    }
}

/// Writes the object that says why a text is no document.
fn write_error_object(
    alloc: Global,
    input: Input<'_>,
    reason: &str,
    answers: &mut OutputBuffer,
) -> Result<(), AllocError>
    ensures { OnOk result (WritesObject (error_value (input_view input.entry) reason.now)
        answers.old.bytes.items answers.new.bytes.items) }
{
    let mut members = Map::new(alloc);
    put_input(&mut members, alloc, input)?;
    put_error(&mut members, alloc, String::from_str(alloc, reason)?)?;
    write_tree_object(alloc, &members, answers)
}

/// Writes what is to be said of each location of a vector in a document, one after another. Says whether
/// none is rejected and nothing differs.
fn answer_document<W: Write>(
    alloc: Global,
    input: Input<'_>,
    document: &Value,
    answers: &mut OutputBuffer,
    writer: &mut W,
) -> Result<bool, RunFault>
    ensures streamed { IfOk result (StreamsFound (input_view input.entry)
        (locations_in (view document.now)) [] answers.old.bytes.items answers.new.bytes.items
        (W.contents writer.old) (W.contents writer.new)) }
    ensures stopped { IfErr result (StopsFound (input_view input.entry)
        (locations_in (view document.now)) answers.old.bytes.items
        (W.contents writer.old) (W.contents writer.new)) }
{
    let mut locations = vectors_in(alloc, document)?;
    let mut agree = true;
    while let Some(location) = locations.next_location(alloc)? {
        agree &= answer_location(alloc, input, &location, answers)?;
        answers.write_if_full(writer)?;
    }
    Ok(agree)
}
