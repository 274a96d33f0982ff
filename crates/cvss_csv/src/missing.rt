//! What is reported of a text that lacks the column.

ghost use Rattle.cvss_csv.specs.Layouts.{ReportsMissing};
ghost use Rattle.cvss_frame.specs.Reports.{reported};

use crate::asked::Column;
use cvss_frame::{Report, report_about};
use std::io::Write;

/// Reports that no column has the name or the number that is asked for.
pub fn report_missing<E: Write>(column: Column<'_>, report: &mut Report<E>)
    ensures { ReportsMissing column.entry (reported E.contents report.old)
        (reported E.contents report.new) }
{
    match column {
        Column::AnyColumn => {}
        Column::Index(_, number) => {
            report_about(b"cvss: no column has the number ", number, &[b"\n"], report);
        }
        Column::Named(name) => {
            report_about(b"cvss: no column is named '", name, &[b"'\n"], report);
        }
    }
}
