//! What is written of two vectors that are compared.

ghost use Rattle.std.specs.Prelude.{◌≡◌, ◌≤◌, ◌++◌, IfOk, OnOk, codes, flat_map};
ghost use Rattle.cvss_lines.specs.Answers.{written_text};
ghost use Rattle.cvss_lists.specs.Differences.{change_at, change_if, change_text, changes, changes_of, rated_text, value_text, versions_text};
ghost use Rattle.cvss_lists.specs.private.Comparing.{WritesComparison, WritesLines};
ghost use Rattle.cvss_vector.specs.Answers.{HasScore};

use cvss_base::tenths::text_of;
use cvss_lines::OutputBuffer;
use cvss_text::print::Printed;
use cvss_vector::{Cvss, Scoring};
use std::alloc::AllocError;

/// Writes the answer that compares two vectors. Says whether they are of one version.
///
/// # Errors
///
/// Out of memory.
pub(crate) fn write_comparison(
    before: &Cvss,
    after: &Cvss,
    scoring: Scoring,
    answers: &mut OutputBuffer,
) -> Result<bool, AllocError>
    requires before { HasScore before.now }
    requires after { HasScore after.now }
    ensures { IfOk result (WritesComparison scoring before.now after.now
        answers.old.bytes.items answers.new.bytes.items) }
{
    let (tenths, other) = (before.tenths_as(scoring), after.tenths_as(scoring));
    if write_changes_of(before, after, answers)? {
        write_scores(before, after, tenths, other, answers)?;
        Ok(true)
    } else {
        write_versions(before, after, answers)?;
        Ok(false)
    }
}

/// Writes the metrics in which two vectors differ, if they are of one version.
fn write_changes_of(
    before: &Cvss,
    after: &Cvss,
    answers: &mut OutputBuffer,
) -> Result<bool, AllocError>
    ensures { IfOk result (WritesLines (changes_of before.now after.now)
        answers.old.bytes.items answers.new.bytes.items) }
{
    match (before, after) {
        (Cvss::CvssV20(before), Cvss::CvssV20(after)) => write_changes(before, after, answers)?,
        (Cvss::CvssV30(before), Cvss::CvssV30(after)) => write_changes(before, after, answers)?,
        (Cvss::CvssV31(before), Cvss::CvssV31(after)) => write_changes(before, after, answers)?,
        (Cvss::CvssV40(before), Cvss::CvssV40(after)) => write_changes(before, after, answers)?,
        _ => return Ok(false),
    }
    Ok(true)
}

/// Writes the metrics in which two vectors of a version differ, in printing order.
fn write_changes<V: Printed>(
    before: &V,
    after: &V,
    answers: &mut OutputBuffer,
) -> Result<(), AllocError>
    ensures { OnOk result (answers.new.bytes.items ≡ answers.old.bytes.items
        ++ flat_map written_text (changes V.version before.now after.now)) }
{
    for kind in V::printed() {
        write_change(before, after, *kind, answers)?;
    }
    Ok(())
}

/// Writes a metric in which two vectors differ, or nothing where they do not.
fn write_change<V: Printed>(
    before: &V,
    after: &V,
    kind: V::Kind,
    answers: &mut OutputBuffer,
) -> Result<(), AllocError>
    ensures { OnOk result (answers.new.bytes.items ≡ answers.old.bytes.items
        ++ flat_map written_text (change_at V.version before.now after.now kind)) }
{
    let (before, after) = (value_text(before, kind), value_text(after, kind));
    write_change_if(V::name(kind), before, after, answers)
}

/// What is shown of a metric: the spelling of its value, or a hyphen where the vector lacks the metric.
fn value_text<V: Printed>(vector: &V, kind: V::Kind) -> &'static str
    ensures { result.now ≡ value_text V.version vector.now kind }
{
    match vector.spelling(kind) {
        Some(spelling) => spelling,
        None => "-",
    }
}

/// Writes two texts if they differ.
#[tactic(auto, using(cvss_lines::proofs::TextsLemmas::one_text))]
fn write_change_if(
    name: &str,
    before: &str,
    after: &str,
    answers: &mut OutputBuffer,
) -> Result<(), AllocError>
    ensures { OnOk result (answers.new.bytes.items ≡ answers.old.bytes.items
        ++ flat_map written_text (change_if name.now before.now after.now)) }
{
    if before == after {
        return Ok(());
    }
    write_change_line(name, before, after, answers)
}

/// Writes one text and the one that replaces it.
fn write_change_line(
    name: &str,
    before: &str,
    after: &str,
    answers: &mut OutputBuffer,
) -> Result<(), AllocError>
    ensures { OnOk result (answers.new.bytes.items ≡ answers.old.bytes.items
        ++ written_text (change_text name.now before.now after.now)) }
{
    answers.push(name.as_bytes())?;
    answers.push(b": ")?;
    answers.push(before.as_bytes())?;
    answers.push(b" -> ")?;
    answers.push(after.as_bytes())?;
    answers.push(b"\n")
}

/// Writes both scores, with their severities.
fn write_scores(
    before: &Cvss,
    after: &Cvss,
    tenths: u8,
    other: u8,
    answers: &mut OutputBuffer,
) -> Result<(), AllocError>
    requires before { tenths ≤ 100 }
    requires after { other ≤ 100 }
    ensures { OnOk result (answers.new.bytes.items ≡ answers.old.bytes.items
        ++ written_text (change_text (codes "score") (rated_text before.now tenths)
        (rated_text after.now other))) }
{
    answers.push(b"score: ")?;
    push_rated(before, tenths, answers)?;
    answers.push(b" -> ")?;
    push_rated(after, other, answers)?;
    answers.push(b"\n")
}

/// Appends a score of so many tenths, and its severity.
fn push_rated(vector: &Cvss, tenths: u8, answers: &mut OutputBuffer) -> Result<(), AllocError>
    requires { tenths ≤ 100 }
    ensures { OnOk result
        (answers.new.bytes.items ≡ answers.old.bytes.items ++ rated_text vector.now tenths) }
{
    answers.push(text_of(tenths).as_bytes())?;
    answers.push(b" ")?;
    answers.push(vector.severity_of_tenths(tenths).as_str().as_bytes())
}

/// Writes that the versions of two vectors differ.
fn write_versions(before: &Cvss, after: &Cvss, answers: &mut OutputBuffer) -> Result<(), AllocError>
    ensures { OnOk result (answers.new.bytes.items ≡ answers.old.bytes.items
        ++ written_text (versions_text before.now after.now)) }
{
    answers.push(b"error: different versions: ")?;
    answers.push(before.version().as_str().as_bytes())?;
    answers.push(b" and ")?;
    answers.push(after.version().as_str().as_bytes())?;
    answers.push(b"\n")
}
