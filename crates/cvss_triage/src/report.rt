//! What is reported on standard error.

ghost use Rattle.std.specs.Prelude.{◌≡◌, [], None, OnOk, Some};
ghost use Rattle.std.specs.List.{list_any};
ghost use Rattle.cvss_lines.specs.Lines.{lines as lines_of_text};
ghost use Rattle.cvss_frame.specs.Reports.{reported};
ghost use Rattle.cvss_triage.specs.Reports.{ReportsBadLine, ReportsEach, ReportsLines, ReportsLacking, ReportsSetting, ReportsUnknown, ReportsUnknownIn, unknown_line_text, unknown_text};
ghost use Rattle.cvss_triage.specs.Inputs.{lacks_column};
ghost use Rattle.cvss_triage.specs.Locations.{location_text};
ghost use Rattle.cvss_triage.specs.Settings.{as_metrics, line_metrics};
ghost use Rattle.cvss_triage.specs.declared.form.Form.TheVariants.{Lines};
ghost use Rattle.cvss_triage.specs.private.Steps.{rows_of};

use crate::input::Input;
use crate::locations::Locations;
use crate::messages::{bad_line_text, unknown_line_text, unknown_text};
use crate::overrides::Override;
use crate::ranking::BadLine;
use crate::settings::{SettingKind, SettingText};
use cvss_csv::{Column, report_missing};
use cvss_frame::Report;
use cvss_lines::first_line;
use std::alloc::{AllocError, Global};
use std::io::Write;

/// Reports the metrics that hold for no vector of any version.
///
/// # Errors
///
/// Out of memory. A report that cannot be written is lost.
#[tactic(auto, using(crate::proofs::ReadsLemmas::reports_all))]
pub(crate) fn report_unknown<E: Write>(
    alloc: Global,
    texts: &[SettingText<'_>],
    report: &mut Report<E>,
) -> Result<(), AllocError>
    ensures { OnOk result (ReportsEach ReportsSetting texts.now
        (reported E.contents report.old) (reported E.contents report.new)) }
{
    for it in texts {
        report_setting(alloc, it, report)?;
    }
    Ok(())
}

/// Reports the metrics in the text of a setting that hold for no vector.
fn report_setting<E: Write>(
    alloc: Global,
    it: &SettingText<'_>,
    report: &mut Report<E>,
) -> Result<(), AllocError>
    ensures { OnOk result (ReportsSetting it.now
        (reported E.contents report.old) (reported E.contents report.new)) }
{
    match (&it.setting.kind, &it.text) {
        (_, None) => {}
        (SettingKind::Metrics, Some(text)) => report_metrics(alloc, text, report)?,
        (SettingKind::Profile, Some(text)) => report_profile(it.setting.word, text, alloc, report)?,
    }
    Ok(())
}

/// Reports metrics, if they hold for no vector.
fn report_metrics<E: Write>(
    alloc: Global,
    metrics: &[u8],
    report: &mut Report<E>,
) -> Result<(), AllocError>
    ensures { OnOk result (ReportsUnknown (None, metrics.now) (unknown_text metrics.now)
        (reported E.contents report.old) (reported E.contents report.new)) }
{
    if !Override::for_all_versions(metrics).holds_for_some() {
        report.write(&unknown_text(alloc, metrics)?);
    }
    Ok(())
}

/// Reports the lines of a profile that hold for no vector.
fn report_profile<E: Write>(
    name: &[u8],
    text: &[u8],
    alloc: Global,
    report: &mut Report<E>,
) -> Result<(), AllocError>
    ensures { OnOk result (ReportsLines name.now 1 (lines_of_text text.now)
        (reported E.contents report.old) (reported E.contents report.new)) }
{
    let mut number = 1;
    let mut left = text;
    while let Some((line, rest)) = first_line(left) {
        report_line(name, number, line, alloc, report)?;
        number += 1;
        left = rest;
    }
    Ok(())
}

/// Reports the line of this number of a profile, if it is not blank and holds for no vector.
fn report_line<E: Write>(
    name: &[u8],
    number: usize,
    line: &[u8],
    alloc: Global,
    report: &mut Report<E>,
) -> Result<(), AllocError>
    ensures { OnOk result (ReportsUnknownIn (line_metrics line.now) (location_text Lines (Some name.now) number)
        line.now (reported E.contents report.old) (reported E.contents report.new)) }
{
    match Override::by_line(line) {
        Some(it) => report_override(name, number, line, it, alloc, report),
        None => Ok(()),
    }
}

/// Reports the line of this number of a profile that sets these metrics, if they hold for no vector.
fn report_override<E: Write>(
    name: &[u8],
    number: usize,
    line: &[u8],
    it: Override<'_>,
    alloc: Global,
    report: &mut Report<E>,
) -> Result<(), AllocError>
    ensures { OnOk result (ReportsUnknown (as_metrics it.entry)
        (unknown_line_text (location_text Lines (Some name.now) number) line.now)
        (reported E.contents report.old) (reported E.contents report.new)) }
{
    if !it.holds_for_some() {
        report.write(&unknown_line_text(alloc, name, number, line)?);
    }
    Ok(())
}

/// Reports the name or the number of the column, if an input lacks it.
pub(crate) fn report_lacking<E: Write>(
    column: Column<'_>,
    inputs: &[Input<'_>],
    report: &mut Report<E>,
)
    ensures { ReportsLacking (list_any lacks_column inputs.now) column.entry
        (reported E.contents report.old) (reported E.contents report.new) }
{
    if is_any_lacking(inputs) {
        report_missing(column, report);
    }
}

fn is_any_lacking(inputs: &[Input<'_>]) -> bool
    ensures { result ≡ list_any lacks_column inputs.now }
{
    inputs.iter().any(|input| input.lacks_column())
}

/// Reports the lines or records that have no row, each with its number in its input and, where there are
/// several files, with the name of its file.
///
/// # Errors
///
/// Out of memory. A report that cannot be written is lost.
#[tactic(auto, using(crate::proofs::ReadsLemmas::reports_all))]
pub(crate) fn report_bad<E: Write>(
    alloc: Global,
    bad: &[BadLine<'_>],
    locations: &Locations<'_>,
    report: &mut Report<E>,
) -> Result<(), AllocError>
    ensures { OnOk result (ReportsEach
        (ReportsBadLine locations.now.form (rows_of locations.now.lines.now) locations.now.starts.now
        locations.now.many locations.now.operands.now) bad.now (reported E.contents report.old) (reported E.contents report.new)) }
{
    for it in bad {
        report_bad_line(alloc, it, locations, report)?;
    }
    Ok(())
}

fn report_bad_line<E: Write>(
    alloc: Global,
    it: &BadLine<'_>,
    locations: &Locations<'_>,
    report: &mut Report<E>,
) -> Result<(), AllocError>
    ensures { OnOk result
        (ReportsBadLine locations.now.form (rows_of locations.now.lines.now) locations.now.starts.now
        locations.now.many locations.now.operands.now it.now (reported E.contents report.old) (reported E.contents report.new)) }
{
    let (name, number) = locations.of_line(it.number);
    let unclosed = locations.is_unclosed(it.number);
    let text = bad_line_text(alloc, locations.form, unclosed, name, number, &it.reason)?;
    report.write(&text);
    Ok(())
}
