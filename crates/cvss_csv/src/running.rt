//! A run over a text.

ghost use Rattle.std.specs.Io.KnownBytes.{Appends};
ghost use Rattle.std.specs.Prelude.{◌≡◌, ℕ, [], IfErr, OnOk, take};
ghost use Rattle.cvss_csv.specs.Runs.{Ends};
ghost use Rattle.cvss_lines.specs.declared.fault.RunFault.TheVariants.{Write as WriteFault};

use crate::asked::{Asked, Column};
use crate::fault::CsvFault;
use crate::pending::Pending;
use cvss_lines::{OutputBuffer, RunFault, Summary, read_buffer, write_whole};
use std::alloc::Global;
use std::io::{Read, Write};

/// Writes the records that the reader gives, in order, each with six cells after its own.
///
/// The records that end in what was read are answered before the next read. Of the input only the
/// record is kept that the end of a read has cut.
///
/// # Errors
///
/// The first record lacks the column, and nothing is written; or out of memory, or a
/// failure of the reader or the writer, after a beginning of the answers.
pub fn run_csv<R: Read, W: Write>(
    asked: Asked,
    column: Column<'_>,
    alloc: Global,
    reader: &mut R,
    writer: &mut W,
) -> Result<Summary, CsvFault>
    ensures { Ends asked column.entry (R.remaining reader.old) (R.remaining reader.new)
        (W.contents writer.old) (W.contents writer.new) result }
{
    let mut pending = Pending::new(alloc, asked);
    let mut chunk = read_buffer(alloc)?;
    for _ in 0..u64::MAX {
        let Ok(count) = reader.read(&mut chunk) else {
            return Err(CsvFault::Run(RunFault::Read));
        };
        if count == 0 {
            pending.answer_end(column)?;
            write_out(&mut pending.progress.answers, writer)?;
            return Ok(pending.progress.summary);
        }
        pending.answer_chunk(column, &chunk[..count])?;
        write_out(&mut pending.progress.answers, writer)?;
    }
    Err(CsvFault::Run(RunFault::Read))
}

/// Writes the answers.
fn write_out<W: Write>(answers: &mut OutputBuffer, writer: &mut W) -> Result<(), RunFault>
    ensures written { OnOk result (Appends (W.contents writer.old) (W.contents writer.new)
        answers.old.bytes.items) }
    ensures none_waits { OnOk result (answers.new.bytes.items ≡ []) }
    ensures cut { IfErr result (λ fault. (fault ≡ WriteFault) × ((count : ℕ)
        × Appends (W.contents writer.old) (W.contents writer.new)
        (take count answers.old.bytes.items))) }
{
    write_whole(writer, &answers.bytes)?;
    answers.bytes.clear();
    Ok(())
}
