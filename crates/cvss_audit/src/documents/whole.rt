//! An input that is one JSON document.

ghost use Rattle.cvss_audit.specs.Inputs.{input_view};
ghost use Rattle.std.specs.Prelude.{◌≡◌};
ghost use Rattle.cvss_audit.specs.Whole.{WholeEnds};
ghost use Rattle.cvss_audit.specs.private.Writing.{summary_of_one};

use crate::documents::input::Input;
use crate::written::answer::answer_text;
use cvss_frame::read_whole;
use cvss_lines::{OutputBuffer, RunFault, Summary, write_whole};
use std::alloc::Global;
use std::io::{Read, Write};

/// Answers an input that is one document.
///
/// # Errors
///
/// Out of memory, or a failure of the reader or the writer.
pub(crate) fn answer_whole<R: Read, W: Write>(
    alloc: Global,
    input: Input<'_>,
    reader: &mut R,
    writer: &mut W,
) -> Result<Summary, RunFault>
    ensures { WholeEnds (input_view input.entry) (R.remaining reader.old) (R.remaining reader.new)
        (W.contents writer.old) (W.contents writer.new) result }
{
    let text = read_whole(alloc, reader)?;
    let mut answers = OutputBuffer {
        bytes: Vec::new(alloc),
    };
    let accepted = answer_text(alloc, input, &text, &mut answers, writer)?;
    write_whole(writer, &answers.bytes)?;
    Ok(summary_of_one(accepted))
}

/// The counts of one answer.
fn summary_of_one(accepted: bool) -> Summary
    ensures { result ≡ summary_of_one accepted }
{
    Summary {
        accepted: u64::from(accepted),
        rejected: u64::from(!accepted),
    }
}
