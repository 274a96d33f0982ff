//! The cells of a vector.

ghost use Rattle.std.specs.Prelude.{◌≡◌, ◌++◌, codes, OnOk, ◌≤◌};
ghost use Rattle.cvss_base.specs.SeverityText.{text_of as severity_text};
ghost use Rattle.cvss_base.specs.Tenths.{tenths_text};
ghost use Rattle.cvss_csv.specs.Writing.{WritesVector};
ghost use Rattle.cvss_vector.specs.Answers.{HasScore, score_of_tenths, severity_by, text_of};
ghost use Rattle.cvss_vector.specs.Scores.{version_of, version_text};

use crate::asked::Asked;
use cvss_base::tenths::text_of;
use cvss_lines::OutputBuffer;
use cvss_vector::Cvss;
use std::alloc::AllocError;
use std::fmt::{self, Write};

/// Appends the canonical text of a vector.
///
/// # Errors
///
/// Out of memory.
pub(crate) fn push_canonical(cvss: &Cvss, out: &mut OutputBuffer) -> Result<(), AllocError>
    ensures { OnOk result (out.new.bytes.items ≡ out.old.bytes.items ++ text_of cvss.now) }
{
    match write_text(cvss, out) {
        Ok(()) => Ok(()),
        Err(_) => Err(AllocError),
    }
}

#[tactic(auto, using(cvss_lines::proofs::TextsLemmas::appended))]
fn write_text(cvss: &Cvss, out: &mut OutputBuffer) -> fmt::Result
    ensures { OnOk result (out.new.bytes.items ≡ out.old.bytes.items ++ text_of cvss.now) }
{
    write!(out, "{cvss}")
}

/// Appends the cells of a vector, and none for an error.
///
/// # Errors
///
/// Out of memory.
pub fn push_vector(asked: Asked, cvss: &Cvss, out: &mut OutputBuffer) -> Result<(), AllocError>
    requires { HasScore cvss.now }
    ensures { OnOk result (WritesVector asked cvss.now out.old.bytes.items out.new.bytes.items) }
{
    let tenths = cvss.tenths_as(asked.scoring);
    let base = cvss.base_tenths();
    push_named(cvss, out)?;
    push_scores(cvss, tenths, base, out)
}

/// Appends the vector and its version, with a comma before each.
fn push_named(cvss: &Cvss, out: &mut OutputBuffer) -> Result<(), AllocError>
    ensures { OnOk result (out.new.bytes.items ≡ out.old.bytes.items
        ++ (codes "," ++ (text_of cvss.now ++ (codes "," ++ version_text (version_of cvss.now))))) }
{
    out.push(b",")?;
    push_canonical(cvss, out)?;
    out.push(b",")?;
    out.push(cvss.version().as_str().as_bytes())
}

/// Appends a score, its severity and the base score, with a comma before each and one at the end.
fn push_scores(cvss: &Cvss, tenths: u8, base: u8, out: &mut OutputBuffer) -> Result<(), AllocError>
    requires to_ten { tenths ≤ 100 }
    requires base_to_ten { base ≤ 100 }
    ensures { OnOk result (out.new.bytes.items ≡ out.old.bytes.items
        ++ (codes "," ++ (tenths_text tenths ++ (codes ","
        ++ (severity_text (severity_by cvss.now (score_of_tenths tenths)) ++ (codes ","
        ++ (tenths_text base ++ codes ","))))))) }
{
    out.push(b",")?;
    out.push(text_of(tenths).as_bytes())?;
    out.push(b",")?;
    out.push(cvss.severity_of_tenths(tenths).as_str().as_bytes())?;
    push_last(base, out)
}

/// Appends the base score, with a comma before and after it.
fn push_last(base: u8, out: &mut OutputBuffer) -> Result<(), AllocError>
    requires { base ≤ 100 }
    ensures { OnOk result (out.new.bytes.items
        ≡ out.old.bytes.items ++ (codes "," ++ (tenths_text base ++ codes ","))) }
{
    out.push(b",")?;
    out.push(text_of(base).as_bytes())?;
    out.push(b",")
}
