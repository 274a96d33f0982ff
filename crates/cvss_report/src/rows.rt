//! The row of a line.

ghost use Rattle.std.specs.Prelude.{ℕ, IfOk, OnOk};
ghost use Rattle.cvss_vector.specs.Answers.{HasScore};
ghost use Rattle.cvss_lines.specs.Answers.{WritesAnswer};
ghost use Rattle.cvss_report.specs.Rows.{IsRow, cells_rule};
ghost use Rattle.cvss_report.specs.private.Views.{WritesVectorCells};

use crate::cells::{fields_of, rejected_fields};
use crate::escaping::reason_of;
use crate::format::Format;
use crate::writing::{write_fields, write_start};
use cvss_lines::{Answering, OutputBuffer};
use cvss_vector::Cvss;
use std::alloc::{AllocError, Global};

/// Answers lines by rows: what `cvss_vector::answer_score` answers, with the scores of the groups of
/// metrics.
#[derive(Drop)]
pub struct Rows<'a> {
    pub format: Format,
    /// Whether the first of values with tabs between them is the name of the file, since there are several.
    pub named: bool,
    /// Whether a vector of CVSS v3 may lack base metrics.
    pub allow_incomplete: bool,
    /// The name of the file and a colon, where there are several files.
    pub prefix: &'a [u8],
}

impl Answering for Rows<'_> {
    ghost rule = { λ rows. IsRow rows.format rows.named rows.allow_incomplete rows.prefix.now };

    fn answer_line(
        &self,
        alloc: Global,
        number: u64,
        line: &[u8],
        answers: &mut OutputBuffer,
    ) -> Result<bool, AllocError> {
        write_start(self.format, self.named, self.prefix, line, answers)?;
        write_cells(alloc, self.format, line, self.allow_incomplete, answers)
    }
}

/// Writes what follows the given text in the row of a line, and a byte 10. Says whether the line is
/// accepted.
///
/// # Errors
///
/// Out of memory. A beginning of it may be written then.
pub fn write_cells(
    alloc: Global,
    format: Format,
    line: &[u8],
    allow_incomplete: bool,
    answers: &mut OutputBuffer,
) -> Result<bool, AllocError>
    ensures { (number : ℕ) → IfOk result (WritesAnswer (cells_rule format allow_incomplete) number line.now
        answers.old.bytes.items answers.new.bytes.items) }
{
    match Cvss::read_by(line, allow_incomplete) {
        Ok(cvss) => {
            write_vector_cells(alloc, format, &cvss, answers)?;
            Ok(true)
        }
        Err(error) => {
            let reason = reason_of(alloc, error)?;
            write_fields(format, &rejected_fields(&reason), answers)?;
            Ok(false)
        }
    }
}

/// Writes the cells of a vector, and a byte 10.
fn write_vector_cells(
    alloc: Global,
    format: Format,
    cvss: &Cvss,
    answers: &mut OutputBuffer,
) -> Result<(), AllocError>
    requires { HasScore cvss.now }
    ensures { OnOk result (WritesVectorCells format cvss.now
        answers.old.bytes.items answers.new.bytes.items) }
{
    let text = cvss.to_string(alloc)?;
    let fields = fields_of(cvss, &text);
    write_fields(format, &fields, answers)
}
