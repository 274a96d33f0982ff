//! The lines for people.

ghost use Rattle.std.specs.Prelude.{◌≡◌, ◌++◌, OnOk, codes, flat_map, map, string_bytes};
ghost use Rattle.cvss_audit.specs.Differences.{difference_view};
ghost use Rattle.cvss_audit.specs.Findings.{finding_view};
ghost use Rattle.cvss_audit.specs.Inputs.{input_view};
ghost use Rattle.cvss_audit.specs.Lines.{AreDifferenceLines, AreLines, AreVectorLines, IsDifferenceLine, error_line, missing_line, missing_lines, rejected_line, start_text};
ghost use Rattle.cvss_audit.specs.Objects.{missing_of};
ghost use Rattle.cvss_audit.specs.Locations.{location_view};
ghost use Rattle.cvss_audit.specs.private.Writing.{WritesLine, WritesTexts};
ghost use Rattle.cvss_json.specs.Escapes.{escaped};
ghost use Rattle.cvss_json.specs.Sinks.{Adds};
ghost use Rattle.cvss_lines.specs.Answers.{written_text};

use crate::disagreements::difference::Difference;
use crate::documents::input::Input;
use crate::locations::location::Location;
use crate::written::finding::Finding;
use crate::written::line::{put_location, put_names, put_reason, put_start};
use crate::written::missing::missing_of;
use crate::written::said::{said_text, wanted_text};
use cvss_json::{Growing, Sink, put_escaped};
use cvss_lines::OutputBuffer;
use cvss_vector::Cvss;
use std::alloc::{AllocError, Global};

/// Writes a line for each thing that is wrong at a location.
pub(crate) fn write_lines(
    alloc: Global,
    input: Input<'_>,
    location: &Location<'_>,
    finding: &Finding<'_>,
    answers: &mut OutputBuffer,
) -> Result<(), AllocError>
    ensures { OnOk result (WritesTexts (AreLines (input_view input.entry) (location_view location.now)
        (finding_view finding.now)) answers.old.bytes.items answers.new.bytes.items) }
{
    match finding {
        Finding::Vector(cvss, differences) => {
            write_vector_lines(alloc, input, location, cvss, differences, answers)
        }
        Finding::Rejected(reason) => write_rejected(input, location, reason.as_str(), answers),
    }
}

/// Writes why a document is rejected.
pub(crate) fn write_error(
    input: Input<'_>,
    reason: &str,
    answers: &mut OutputBuffer,
) -> Result<(), AllocError>
    ensures { OnOk result (answers.new.bytes.items ≡ answers.old.bytes.items
        ++ written_text (error_line (input_view input.entry) reason.now)) }
{
    let mut sink = Growing::begin_after(answers);
    put_error(&mut sink, input, reason);
    sink.end_into(answers)
}

#[tactic(auto, using(cvss_json::proofs::AddsLemmas::join2))]
fn put_error<S: Sink>(sink: &mut S, input: Input<'_>, reason: &str)
    ensures { Adds S.Holds (written_text (error_line (input_view input.entry) reason.now))
        sink.old sink.new }
{
    put_location(sink, input, "");
    put_reason(sink, reason);
    sink.push(b"\n");
}

/// Writes why there is no vector at a location.
fn write_rejected(
    input: Input<'_>,
    location: &Location<'_>,
    reason: &str,
    answers: &mut OutputBuffer,
) -> Result<(), AllocError>
    ensures { OnOk result (answers.new.bytes.items ≡ answers.old.bytes.items ++ written_text
        (rejected_line (input_view input.entry) (location_view location.now) reason.now)) }
{
    let mut sink = Growing::begin_after(answers);
    put_rejected(&mut sink, input, location, reason);
    sink.end_into(answers)
}

#[tactic(auto, using(cvss_json::proofs::AddsLemmas::join2))]
fn put_rejected<S: Sink>(sink: &mut S, input: Input<'_>, location: &Location<'_>, reason: &str)
    ensures { Adds S.Holds (written_text (rejected_line (input_view input.entry)
        (location_view location.now) reason.now)) sink.old sink.new }
{
    put_start(sink, input, location);
    put_reason(sink, reason);
    sink.push(b"\n");
}

/// Writes the lines about an accepted vector.
fn write_vector_lines(
    alloc: Global,
    input: Input<'_>,
    location: &Location<'_>,
    cvss: &Cvss,
    differences: &[Difference<'_>],
    answers: &mut OutputBuffer,
) -> Result<(), AllocError>
    ensures { OnOk result (WritesTexts (AreVectorLines (input_view input.entry)
        (location_view location.now) cvss.now (map difference_view differences.now))
        answers.old.bytes.items answers.new.bytes.items) }
{
    write_missing(alloc, input, location, cvss, answers)?;
    write_differences(alloc, input, location, differences, answers)
}

/// Writes the line that names the base metrics that a vector lacks, where it may not lack them.
fn write_missing(
    alloc: Global,
    input: Input<'_>,
    location: &Location<'_>,
    cvss: &Cvss,
    answers: &mut OutputBuffer,
) -> Result<(), AllocError>
    ensures { OnOk result (answers.new.bytes.items ≡ answers.old.bytes.items ++ flat_map written_text
        (missing_lines input.entry.allow_incomplete (input_view input.entry) (location_view location.now)
        (missing_of cvss.now))) }
{
    if input.allow_incomplete {
        return Ok(());
    }
    let names = missing_of(alloc, cvss)?;
    if names.is_empty() {
        return Ok(());
    }
    write_names(input, location, &names, answers)
}

fn write_names(
    input: Input<'_>,
    location: &Location<'_>,
    names: &[&str],
    answers: &mut OutputBuffer,
) -> Result<(), AllocError>
    ensures { OnOk result (answers.new.bytes.items ≡ answers.old.bytes.items ++ written_text
        (missing_line (input_view input.entry) (location_view location.now)
        (map (λ name. name.now) names.now))) }
{
    let mut sink = Growing::begin_after(answers);
    put_missing(&mut sink, input, location, names);
    sink.end_into(answers)
}

fn put_missing<S: Sink>(sink: &mut S, input: Input<'_>, location: &Location<'_>, names: &[&str])
    ensures { Adds S.Holds (written_text (missing_line (input_view input.entry)
        (location_view location.now) (map (λ name. name.now) names.now))) sink.old sink.new }
{
    put_start(sink, input, location);
    sink.push(b"missing:");
    put_names(sink, names);
    sink.push(b"\n");
}

/// Writes a line for each difference.
#[cycle(write_differences)]
fn write_differences(
    alloc: Global,
    input: Input<'_>,
    location: &Location<'_>,
    differences: &[Difference<'_>],
    answers: &mut OutputBuffer,
) -> Result<(), AllocError>
    ensures { OnOk result (WritesTexts (AreDifferenceLines (input_view input.entry)
        (location_view location.now) (map difference_view differences.now))
        answers.old.bytes.items answers.new.bytes.items) }
{
    let [difference, rest @ ..] = differences else {
        return Ok(());
    };
    write_difference(alloc, input, location, difference, answers)?;
    write_differences(alloc, input, location, rest, answers)
}

/// Writes what a member says, and what it should.
fn write_difference(
    alloc: Global,
    input: Input<'_>,
    location: &Location<'_>,
    difference: &Difference<'_>,
    answers: &mut OutputBuffer,
) -> Result<(), AllocError>
    ensures { OnOk result (WritesLine (IsDifferenceLine (input_view input.entry)
        (location_view location.now) (difference_view difference.now))
        answers.old.bytes.items answers.new.bytes.items) }
{
    let says = said_text(alloc, &difference.says)?;
    let wanted = wanted_text(alloc, &difference.is)?;
    let mut sink = Growing::begin_after(answers);
    put_start(&mut sink, input, location);
    put_difference(&mut sink, difference.member, &says, &wanted);
    sink.end_into(answers)
}

fn put_difference<S: Sink>(sink: &mut S, member: &str, says: &[u8], wanted: &[u8])
    ensures { Adds S.Holds (escaped member.now ++ (codes ": says " ++ (says.now
        ++ (codes ", should be " ++ (wanted.now ++ codes "\n"))))) sink.old sink.new }
{
    put_escaped(sink, member);
    sink.push(b": says ");
    sink.push(says);
    sink.push(b", should be ");
    sink.push(wanted);
    sink.push(b"\n");
}
