//! What is written for a location of a vector.

ghost use Rattle.std.specs.Prelude.{◌≡◌, ◌&&◌, IfOk, OnOk, not};
ghost use Rattle.cvss_audit.specs.Answers.{AreTextsIf, AreTextsIn};
ghost use Rattle.cvss_audit.specs.Findings.{HasScoreIn, agrees, finding_view, severity_of, tenths_of};
ghost use Rattle.cvss_audit.specs.Inputs.{input_view};
ghost use Rattle.cvss_audit.specs.Locations.{location_view};
ghost use Rattle.cvss_audit.specs.private.Writing.{WritesLocation, WritesTexts};
ghost use Rattle.cvss_report.specs.Gates.{is_failing};

use crate::documents::input::{AuditForm, Input};
use crate::locations::location::Location;
use crate::written::finding::Finding;
use crate::written::lines::write_lines;
use crate::written::object::write_object;
use cvss_base::Severity;
use cvss_lines::OutputBuffer;
use cvss_report::Gate;
use cvss_vector::Rated;
use std::alloc::{AllocError, Global};

/// Writes what is found at a location, unless its vector is passed over. Says whether that is so, or the
/// vector is accepted, nothing differs, and the gate does not fail on it.
pub(crate) fn answer_location(
    alloc: Global,
    input: Input<'_>,
    location: &Location<'_>,
    answers: &mut OutputBuffer,
) -> Result<bool, AllocError>
    ensures { IfOk result (WritesLocation (input_view input.entry) (location_view location.now)
        answers.old.bytes.items answers.new.bytes.items) }
{
    let finding = Finding::at(alloc, location)?;
    let rated = finding.rated(input);
    let score = tenths_of(rated);
    if input.gate.passes_over(score) {
        return Ok(true);
    }
    let agrees = finding.agrees(input);
    input.count_vector(finding.lines(input), severity_of(rated));
    write_if_shown(alloc, input, location, finding, agrees, answers)?;
    Ok(is_passed(input.gate, score, agrees))
}

fn tenths_of(rated: Option<Rated>) -> Option<u8>
    ensures { result ≡ tenths_of rated }
{
    match rated {
        Some(rated) => Some(rated.tenths),
        None => None,
    }
}

fn severity_of(rated: Option<Rated>) -> Option<Severity>
    ensures { result ≡ severity_of rated }
{
    match rated {
        Some(rated) => Some(rated.severity),
        None => None,
    }
}

/// Whether all agrees, and the gate does not fail on the vector.
fn is_passed(gate: Gate, score: Option<u8>, agrees: bool) -> bool
    ensures { result ≡ (agrees && not (is_failing gate score)) }
{
    agrees && !gate.fails_on(score)
}

/// Writes what is found at a location, unless nothing is to be printed.
fn write_if_shown(
    alloc: Global,
    input: Input<'_>,
    location: &Location<'_>,
    finding: Finding<'_>,
    accepted: bool,
    answers: &mut OutputBuffer,
) -> Result<(), AllocError>
    requires scored { HasScoreIn (finding_view finding) }
    requires reported { accepted ≡ agrees (input_view input) (finding_view finding) }
    ensures { OnOk result (WritesTexts (AreTextsIf input.entry.gate.quiet (input_view input.entry)
        (location_view location.now) (finding_view finding.entry))
        answers.old.bytes.items answers.new.bytes.items) }
{
    if input.gate.quiet {
        Ok(())
    } else {
        write_finding(alloc, input, location, finding, accepted, answers)
    }
}

/// Writes what is found at a location, by the form of the input.
fn write_finding(
    alloc: Global,
    input: Input<'_>,
    location: &Location<'_>,
    finding: Finding<'_>,
    accepted: bool,
    answers: &mut OutputBuffer,
) -> Result<(), AllocError>
    requires scored { HasScoreIn (finding_view finding) }
    requires reported { accepted ≡ agrees (input_view input) (finding_view finding) }
    ensures { OnOk result (WritesTexts (AreTextsIn input.entry.form (input_view input.entry)
        (location_view location.now) (finding_view finding.entry))
        answers.old.bytes.items answers.new.bytes.items) }
{
    match input.form {
        AuditForm::Disagreements => write_lines(alloc, input, location, &finding, answers),
        AuditForm::Objects => write_object(alloc, input, location, finding, answers),
        AuditForm::DifferingObjects if accepted => Ok(()),
        AuditForm::DifferingObjects => write_object(alloc, input, location, finding, answers),
    }
}
