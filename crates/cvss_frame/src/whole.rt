//! An operand that is read whole.

ghost use Rattle.std.specs.Prelude.{◌≡◌, ◌≢◌, IfErr, IfOk};
ghost use Rattle.cvss_lines.specs.declared.fault.RunFault.TheVariants.{Write as WriteFault};
ghost use Rattle.std.specs.Option.{option_map};
ghost use Rattle.cvss_frame.specs.Marks.{seen};
ghost use Rattle.cvss_frame.specs.Reports.{ReportsUnread, reported};
ghost use Rattle.cvss_frame.specs.Streams.{state};
ghost use Rattle.cvss_frame.specs.Whole.{IsAllOf, ReadsWhole};

use crate::files::Files;
use crate::operands::report_unread;
use crate::reading::read_whole;
use crate::report::{Report, report_error};
use crate::sources::{Source, source_of};
use crate::streams::{Host, Streams};
use crate::watching::WatchedReader;
use cvss_lines::RunFault;
use std::alloc::{AllocError, Global};
use std::io::Write;

/// Reads one operand whole, for a subcommand that answers after it has read all: the bytes of a
/// vector, of a file or of standard input. What cannot be read is reported.
///
/// # Errors
///
/// Out of memory, or a file or standard input that cannot be read.
pub fn read_operand<H: Host>(
    alloc: Global,
    operand: &[u8],
    streams: &mut Streams<H>,
) -> Result<Vec<u8>, RunFault>
    ensures read { ReadsWhole operand.now (state streams.old) (state streams.new) result }
    ensures fault { IfErr result (λ fault. fault ≢ WriteFault) }
{
    match source_of(operand) {
        Source::Input => {
            let bytes = read_whole(alloc, &mut streams.input);
            if let Err(RunFault::Read) = bytes {
                report_unread(operand, &streams.input, &mut streams.errors);
            }
            bytes
        }
        Source::Vector => Ok(copy(alloc, operand)?),
        Source::File => read_file(alloc, operand, &streams.files, &mut streams.errors),
    }
}

fn read_file<F: Files, E: Write>(
    alloc: Global,
    name: &[u8],
    files: &F,
    report: &mut Report<E>,
) -> Result<Vec<u8>, RunFault>
    ensures read { IfOk result (IsAllOf (option_map seen (F.contents files.now name.now))) }
    ensures fault { IfErr result (λ fault. fault ≢ WriteFault) }
    ensures unread { ReportsUnread name.now result
        (reported E.contents report.old) (reported E.contents report.new) }
{
    match files.open(name) {
        Ok(file) => {
            let mut file = WatchedReader::new(file);
            let bytes = read_whole(alloc, &mut file);
            if let Err(RunFault::Read) = bytes {
                report_unread(name, &file, report);
            }
            bytes
        }
        Err(error) => {
            report_error(name, error, report);
            Err(RunFault::Read)
        }
    }
}

fn copy(alloc: Global, bytes: &[u8]) -> Result<Vec<u8>, AllocError>
    ensures { IfOk result (λ copy. copy.items ≡ bytes.now) }
{
    let mut copy = Vec::new(alloc);
    copy.extend_from_slice(bytes)?;
    Ok(copy)
}
