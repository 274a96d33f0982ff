ghost use Rattle.cvss_lines.specs.Runs.{Ends};
ghost use Rattle.cvss_vector.specs.Lines.{IsAnswer};

use crate::{RunFault, Summary};
use cvss_vector::Vectors;
use std::alloc::Global;
use std::io::{Read, Write};

/// Answers each line that the reader gives by one line to the writer. Lines are defined at
/// [`cvss_lines::run`].
pub fn run<R: Read, W: Write>(
    alloc: Global,
    reader: &mut R,
    writer: &mut W,
) -> Result<Summary, RunFault>
    ensures { Ends IsAnswer (R.remaining reader.old) (R.remaining reader.new)
        (W.contents writer.old) (W.contents writer.new) result }
{
    cvss_lines::run(&Vectors {}, alloc, reader, writer)
}
