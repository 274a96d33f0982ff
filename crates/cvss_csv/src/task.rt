//! The task of a command to answer CSV.

ghost use Rattle.cvss_csv.specs.Tasks.{TaskEnds};

use crate::asked::{Asked, Column};
use crate::fault::CsvFault;
use crate::running::run_csv;
use cvss_frame::Task;
use cvss_lines::{RunFault, Summary};
use std::alloc::Global;
use std::cell::Cell;
use std::io::{Read, Write};

/// Answers an input as [`run_csv`] does. The records begin as in the input, also where there are several
/// files.
#[derive(Drop)]
pub struct CsvTask<'a> {
    pub asked: Asked,
    pub column: Column<'a>,
    /// Set where the first record of an input lacks the column. The input counts as
    /// one rejected record then.
    pub lacks_column: &'a Cell<bool>,
}

impl Task for CsvTask<'_> {
    ghost ends = { λ task prefix. TaskEnds task.asked task.column };

    fn serve_input<R: Read, W: Write>(
        &self,
        alloc: Global,
        _prefix: &[u8],
        reader: &mut R,
        writer: &mut W,
    ) -> Result<Summary, RunFault> {
        match run_csv(self.asked, self.column, alloc, reader, writer) {
            Ok(summary) => Ok(summary),
            Err(CsvFault::Run(fault)) => Err(fault),
            Err(CsvFault::UnknownColumn) => {
                self.lacks_column.set(true);
                Ok(Summary {
                    accepted: 0,
                    rejected: 1,
                })
            }
        }
    }
}
