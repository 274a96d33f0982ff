//! The explanation of one line's vector, as text for people.

ghost use Rattle.std.specs.Prelude.{ℕ, IfOk, OnOk};
ghost use Rattle.cvss_vector.specs.Answers.{HasScore};
ghost use Rattle.cvss_explain.specs.Text.{AreLines, IsAnswer, Shows};
ghost use Rattle.cvss_explain.specs.private.Writing.{Writes};
ghost use Rattle.cvss_lines.specs.Answers.{WritesAnswer};

use crate::what_if::write_table;
use crate::{v2, v3, v4};
use cvss_lines::OutputBuffer;
use cvss_vector::{Cvss, Scoring, write_error, write_vector};
use std::alloc::{AllocError, Global};

/// Answers a line by the explanation of its vector's scores, or with `what_if` by the scores that other
/// values of its metrics would give; or by why the line is rejected: a vector of CVSS v3 that lacks base
/// metrics by the first of them, unless they may be missing. An empty line follows.
///
/// # Errors
///
/// Out of memory.
pub fn answer_explained(
    alloc: Global,
    line: &[u8],
    what_if: bool,
    allow_incomplete: bool,
    answers: &mut OutputBuffer,
) -> Result<bool, AllocError>
    ensures { (number : ℕ) → IfOk result (WritesAnswer (IsAnswer what_if allow_incomplete) number
        line.now answers.old.bytes.items answers.new.bytes.items) }
{
    match Cvss::read_by(line, allow_incomplete) {
        Ok(cvss) => {
            write_shown(alloc, &cvss, what_if, answers)?;
            answers.push(b"\n")?;
            Ok(true)
        }
        Err(error) => {
            write_error(error, answers)?;
            answers.push(b"\n")?;
            Ok(false)
        }
    }
}

/// Writes the score line of a vector as a heading, and after it why the vector has its scores, or the
/// scores that other values would give.
fn write_shown(
    alloc: Global,
    cvss: &Cvss,
    what_if: bool,
    answers: &mut OutputBuffer,
) -> Result<(), AllocError>
    requires { HasScore cvss.now }
    ensures { OnOk result (Writes (Shows what_if cvss.now)
        answers.old.bytes.items answers.new.bytes.items) }
{
    let published = cvss.published(Scoring::Overall);
    write_vector(cvss, published, answers)?;
    if what_if {
        write_table(alloc, cvss, answers)
    } else {
        write_lines(cvss, published.tenths, answers)
    }
}

/// Writes the lines after the heading.
fn write_lines(cvss: &Cvss, tenths: u8, answers: &mut OutputBuffer) -> Result<(), AllocError>
    requires { HasScore cvss.now }
    ensures { OnOk result (Writes (AreLines cvss.now tenths)
        answers.old.bytes.items answers.new.bytes.items) }
{
    match cvss {
        Cvss::CvssV20(vector) => v2::write_lines(vector, answers),
        Cvss::CvssV30(vector) | Cvss::CvssV31(vector) => v3::write_lines(vector, answers),
        Cvss::CvssV40(vector) => v4::write_lines(vector, tenths, answers),
    }
}
