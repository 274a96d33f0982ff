//! How the rows of tables are written.

ghost use Rattle.std.specs.Prelude.{◌≡◌, ◌++◌, OnOk};
ghost use Rattle.cvss_triage.specs.Rows.{IsTableRow, header_line, row_end};
ghost use Rattle.cvss_triage.specs.declared.style.Style.TheVariants.{Table};
ghost use Rattle.cvss_triage.specs.private.Steps.{IsToTen, WritesRow};

use crate::row::Row;
use cvss_csv::{Asked, NAMES, push_shown, push_vector};
use cvss_lines::OutputBuffer;
use std::alloc::AllocError;

/// Writes the record of a row, as it is or guarded, and the six cells of its vector.
pub(crate) fn write_table_row(
    asked: Asked,
    crlf: bool,
    row: &Row<'_>,
    text: &mut OutputBuffer,
) -> Result<(), AllocError>
    requires { IsToTen row.now }
    ensures { OnOk result (WritesRow (IsTableRow asked crlf row.now)
        text.old.bytes.items text.new.bytes.items) }
{
    push_shown(asked.guarded, row.line, text)?;
    push_vector(asked, &row.vector, text)?;
    write_row_end(crlf, text)
}

/// Writes a header, as it is or guarded, and the names of the six cells.
pub(crate) fn write_table_header(
    asked: Asked,
    crlf: bool,
    header: &[u8],
    text: &mut OutputBuffer,
) -> Result<(), AllocError>
    ensures { OnOk result (text.new.bytes.items
        ≡ text.old.bytes.items ++ header_line (Table asked crlf) header.now) }
{
    push_shown(asked.guarded, header, text)?;
    text.push(NAMES)?;
    write_row_end(crlf, text)
}

fn write_row_end(crlf: bool, text: &mut OutputBuffer) -> Result<(), AllocError>
    ensures { OnOk result (text.new.bytes.items ≡ text.old.bytes.items ++ row_end crlf) }
{
    if crlf {
        text.push(b"\r\n")
    } else {
        text.push(b"\n")
    }
}
