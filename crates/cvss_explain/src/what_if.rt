//! What the score of a vector would be with other values of its metrics.

ghost use Rattle.std.specs.Prelude.{◌≡◌, ◌++◌, ◌≤◌, IfOk, IfSome, MatchOption, OnOk, if◌then◌else◌, codes, option_copied};
ghost use Rattle.cvss_vector.specs.Answers.{HasScore};
ghost use Rattle.cvss_vector.specs.Setting.{IsWith};
ghost use Rattle.cvss_base.specs.Text.{component};
ghost use Rattle.cvss_explain.specs.Lines.{Joins, padded};
ghost use Rattle.cvss_explain.specs.WhatIf.{AreLines, IsCell, IsLine, IsScored, IsTable, cell_text, is_present};
ghost use Rattle.cvss_explain.specs.private.Writing.{Writes};

use crate::lines::write_padded;
use crate::metrics::Explained;
use cvss_base::tenths::text_of;
use cvss_lines::OutputBuffer;
use cvss_report::names::ValueWord;
use cvss_report::spelled;
use cvss_vector::{Cvss, is_undefined};
use std::alloc::{AllocError, Global};

/// Writes a line for each metric, with the overall score that each of its values would give.
pub(crate) fn write_table(
    alloc: Global,
    cvss: &Cvss,
    answers: &mut OutputBuffer,
) -> Result<(), AllocError>
    requires { HasScore cvss.now }
    ensures { OnOk result (Writes (IsTable cvss.now)
        answers.old.bytes.items answers.new.bytes.items) }
{
    match cvss {
        Cvss::CvssV20(vector) => write_lines(alloc, cvss, vector, answers),
        Cvss::CvssV30(vector) | Cvss::CvssV31(vector) => write_lines(alloc, cvss, vector, answers),
        Cvss::CvssV40(vector) => write_lines(alloc, cvss, vector, answers),
    }
}

fn write_lines<V: Explained>(
    alloc: Global,
    cvss: &Cvss,
    vector: &V,
    answers: &mut OutputBuffer,
) -> Result<(), AllocError>
    requires { HasScore cvss.now }
    ensures { OnOk result (Writes (AreLines V.version V.words cvss.now vector.now)
        answers.old.bytes.items answers.new.bytes.items) }
{
    let kinds = V::printed();
    for kind in kinds {
        write_line(alloc, cvss, vector, *kind, answers)?;
    }
    Ok(())
}

fn write_line<V: Explained>(
    alloc: Global,
    cvss: &Cvss,
    vector: &V,
    kind: V::Kind,
    answers: &mut OutputBuffer,
) -> Result<(), AllocError>
    requires { HasScore cvss.now }
    ensures { OnOk result (Writes (IsLine V.version V.words cvss.now vector.now kind)
        answers.old.bytes.items answers.new.bytes.items) }
{
    let name = V::name(kind);
    answers.push(b"  ")?;
    write_padded(3, name.as_bytes(), answers)?;
    write_cells(
        alloc,
        cvss,
        name,
        spelled(vector, kind),
        V::value_words(kind),
        answers,
    )?;
    answers.push(b"\n")
}

/// Writes the values of a metric of this name, of which the vector may have its own.
fn write_cells(
    alloc: Global,
    cvss: &Cvss,
    name: &str,
    own: Option<&[u8]>,
    values: &[ValueWord],
    answers: &mut OutputBuffer,
) -> Result<(), AllocError>
    requires { HasScore cvss.now }
    ensures { OnOk result (Writes
        (Joins (λ value. IsCell cvss.now name.now (option_copied own.entry) (value.0.now, value.1.now)) values.now)
        answers.old.bytes.items answers.new.bytes.items) }
{
    for value in values {
        write_cell(alloc, cvss, name, own, *value, answers)?;
    }
    Ok(())
}

fn write_cell(
    alloc: Global,
    cvss: &Cvss,
    name: &str,
    own: Option<&[u8]>,
    value: ValueWord,
    answers: &mut OutputBuffer,
) -> Result<(), AllocError>
    requires { HasScore cvss.now }
    ensures { OnOk result (Writes
        (IsCell cvss.now name.now (option_copied own.entry)
        (value.entry.0.now, value.entry.1.now))
        answers.old.bytes.items answers.new.bytes.items) }
{
    match tenths_with(alloc, cvss, name, value.0)? {
        Some(tenths) => write_value(is_present(own, value.0), value.0, tenths, answers),
        None => Ok(()),
    }
}

/// The tenths of the overall score of the vector with a value of a metric set.
fn tenths_with(
    alloc: Global,
    cvss: &Cvss,
    name: &str,
    spelling: &str,
) -> Result<Option<u8>, AllocError>
    requires { HasScore cvss.now }
    ensures set { IfOk result (λ tenths. MatchOption tenths
        ((new : Cvss) → ¬ (IsWith cvss.now (component name.now spelling.now) new))
        (IsScored cvss.now (component name.now spelling.now))) }
    ensures bound { IfOk result (λ tenths. IfSome tenths (λ tenths. tenths ≤ 100)) }
{
    let metric = format!(in alloc; "{name}:{spelling}")?;
    match cvss.with_metrics(&metric) {
        Ok(new) => Ok(Some(new.overall_tenths())),
        Err(_) => Ok(None),
    }
}

/// Whether a value is that of a metric, which counts as not defined where the vector lacks it.
fn is_present(own: Option<&[u8]>, spelling: &str) -> bool
    ensures { result ≡ is_present (option_copied own.entry) spelling.now }
{
    match own {
        Some(own) => spelling.as_bytes() == own,
        None => is_undefined(spelling),
    }
}

fn write_value(
    present: bool,
    spelling: &str,
    tenths: u8,
    answers: &mut OutputBuffer,
) -> Result<(), AllocError>
    requires { tenths ≤ 100 }
    ensures { OnOk result (answers.new.bytes.items
        ≡ answers.old.bytes.items ++ cell_text present spelling.now tenths) }
{
    answers.push(if present { b"  *" } else { b"   " })?;
    answers.push(spelling.as_bytes())?;
    answers.push(b" ")?;
    answers.push(text_of(tenths).as_bytes())
}
