//! The answer to one line as a JSON object.

ghost use Rattle.std.specs.Prelude.{◌≡◌, ◌++◌, OnOk, Some, codes, decimal, drop};
ghost use Rattle.cvss_explain.specs.Explanation.{IsExplanationText};
ghost use Rattle.cvss_explain.specs.Json.{IsAnswer, IsInFile, given_member, in_file, rejection_text};
ghost use Rattle.cvss_explain.specs.private.Writing.{WritesLine};
ghost use Rattle.cvss_json.specs.Escapes.{quoted};
ghost use Rattle.cvss_json.specs.Sinks.{Adds};
ghost use Rattle.cvss_lines.specs.Answers.{written_text};
ghost use Rattle.cvss_report.specs.Cells.{given_text};
ghost use Rattle.cvss_report.specs.declared.format.Format.TheVariants.{Json};
ghost use Rattle.cvss_vector.specs.Answers.{HasScore};
ghost use Rattle.cvss_vector.specs.Reasons.{error_message};

use crate::explanation::put_explanation;
use cvss_json::{Growing, Page, Sink, put_string, put_whole};
use cvss_lines::{Answering, OutputBuffer};
use cvss_report::{Format, put_given, put_object_start, reason_of};
use cvss_vector::{Cvss, ReadError};
use std::alloc::{AllocError, Global};

/// Lines, each answered by an object that explains the score of its vector, or by one that says why the
/// line is rejected: a vector of CVSS v3 that lacks base metrics by the first of them, unless they may
/// be missing. With several files the first member is the file.
#[derive(Drop)]
pub struct Explaining<'a> {
    /// Vectors of CVSS v3 may lack base metrics.
    pub allow_incomplete: bool,
    /// The name of the file and a colon, where there are several files.
    pub prefix: &'a [u8],
}

impl Answering for Explaining<'_> {
    ghost rule = { λ explaining. IsAnswer explaining.allow_incomplete explaining.prefix.now };

    fn answer_line(
        &self,
        alloc: Global,
        number: u64,
        line: &[u8],
        answers: &mut OutputBuffer,
    ) -> Result<bool, AllocError> {
        match Cvss::read_by(line, self.allow_incomplete) {
            Ok(cvss) => {
                write_explanation(self.prefix, number, &cvss, answers)?;
                Ok(true)
            }
            Err(error) => {
                write_rejection(alloc, self.prefix, number, line, error, answers)?;
                Ok(false)
            }
        }
    }
}

/// Writes why a vector has its score, and a byte 10.
fn write_explanation(
    prefix: &[u8],
    number: u64,
    cvss: &Cvss,
    answers: &mut OutputBuffer,
) -> Result<(), AllocError>
    requires { HasScore cvss.now }
    ensures { OnOk result (WritesLine
        (IsInFile prefix.now (IsExplanationText (Some number) cvss.now))
        answers.old.bytes.items answers.new.bytes.items) }
{
    let mut page = Page::new();
    put_explanation(&mut page, Some(number), cvss);
    write_in_file(prefix, page.bytes(), answers)
}

/// Writes the text of an object, with the file that the prefix names before its colon as its first
/// member, if the prefix is not empty, and a byte 10.
fn write_in_file(prefix: &[u8], object: &[u8], answers: &mut OutputBuffer) -> Result<(), AllocError>
    ensures { OnOk result (answers.new.bytes.items
        ≡ answers.old.bytes.items ++ written_text (in_file prefix.now object.now)) }
{
    let mut sink = Growing::begin_after(answers);
    put_in_file(&mut sink, prefix, object);
    sink.end_into(answers)
}

#[tactic(auto, using(cvss_json::proofs::AddsLemmas::join2))]
fn put_in_file<S: Sink>(sink: &mut S, prefix: &[u8], object: &[u8])
    ensures { Adds S.Holds (written_text (in_file prefix.now object.now)) sink.old sink.new }
{
    put_object_start(sink, prefix);
    sink.push(after_the_first(object));
    sink.push(b"\n");
}

/// All bytes but the first.
fn after_the_first(bytes: &[u8]) -> &[u8]
    ensures { result.now ≡ drop 1 bytes.now }
{
    match bytes {
        [_, after @ ..] => after,
        [] => bytes,
    }
}

/// Writes why a line is rejected, and a byte 10.
fn write_rejection(
    alloc: Global,
    prefix: &[u8],
    number: u64,
    line: &[u8],
    error: ReadError<'_>,
    answers: &mut OutputBuffer,
) -> Result<(), AllocError>
    ensures { OnOk result (answers.new.bytes.items ≡ answers.old.bytes.items
        ++ written_text (rejection_text prefix.now number line.now (error_message error.entry))) }
{
    let reason = reason_of(alloc, error)?;
    let mut sink = Growing::begin_after(answers);
    put_rejection(&mut sink, prefix, number, line, &reason);
    sink.end_into(answers)
}

#[tactic(auto, using(cvss_json::proofs::AddsLemmas::join2))]
fn put_rejection<S: Sink>(sink: &mut S, prefix: &[u8], number: u64, line: &[u8], reason: &[u8])
    ensures { Adds S.Holds (written_text (rejection_text prefix.now number line.now reason.now))
        sink.old sink.new }
{
    put_object_start(sink, prefix);
    put_reason(sink, reason);
    put_line(sink, line);
    put_number(sink, number);
    sink.push(b"\n");
}

#[tactic(auto, using(cvss_json::proofs::AddsLemmas::join2))]
fn put_reason<S: Sink>(sink: &mut S, reason: &[u8])
    ensures { Adds S.Holds (codes "\"error\":" ++ given_text Json reason.now) sink.old sink.new }
{
    sink.push(b"\"error\":");
    put_given(sink, Format::Json, reason);
}

/// Writes the line as it is given, where it is UTF-8.
#[tactic(auto, using(crate::proofs::GivenLemmas::text_given, crate::proofs::GivenLemmas::nothing_given))]
fn put_line<S: Sink>(sink: &mut S, line: &[u8])
    ensures { Adds S.Holds (given_member line.now) sink.old sink.new }
{
    match str::from_utf8(line) {
        Ok(text) => put_text(sink, text),
        Err(_) => sink.push(b""),
    }
}

#[tactic(auto, using(cvss_json::proofs::AddsLemmas::join2))]
fn put_text<S: Sink>(sink: &mut S, text: &str)
    ensures { Adds S.Holds (codes ",\"given\":" ++ quoted text.now) sink.old sink.new }
{
    sink.push(b",\"given\":");
    put_string(sink, text);
}

#[tactic(auto, using(cvss_json::proofs::AddsLemmas::join2))]
fn put_number<S: Sink>(sink: &mut S, number: u64)
    ensures { Adds S.Holds (codes ",\"line\":" ++ decimal number ++ codes "}") sink.old sink.new }
{
    sink.push(b",\"line\":");
    put_whole(sink, number);
    sink.push(b"}");
}
