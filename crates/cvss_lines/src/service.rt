//! What answers the lines of an input where an answer may be long.

ghost use Rattle.std.specs.Prelude.{IfErr, IfOk};
ghost use Rattle.cvss_lines.specs.Answers.{Rule};
ghost use Rattle.cvss_lines.specs.Streaming.{Beginning, Stops, Streams};

use crate::{OutputBuffer, RunFault};
use std::alloc::Global;
use std::io::Write;

/// A way to answer lines that may write the answers that wait in the midst of a long one. Each answer is
/// some texts, and accepts its line or rejects it.
pub trait Service {
    /// Which answers a line has.
    ghost rule: { Self → Rule };

    /// What may be written of an answer before the rest of it is known.
    ghost beginning: { Self → Beginning };

    /// Appends an answer to the line of this number, a byte 10 after each of its texts, and may write
    /// the answers that wait. Says whether the line was accepted. Lines are numbered from 1, and the
    /// number stops at `u64::MAX`.
    ///
    /// # Errors
    ///
    /// Out of memory, or a failure of the writer. What waits is not to be written then.
    fn serve_line<W: Write>(
        &self,
        alloc: Global,
        number: u64,
        line: &[u8],
        answers: &mut OutputBuffer,
        writer: &mut W,
    ) -> Result<bool, RunFault>
        ensures streamed { IfOk result (Streams (rule self.now) (beginning self.now) number line.now
            answers.old.bytes.items answers.new.bytes.items
            (W.contents writer.old) (W.contents writer.new)) }
        ensures stopped { IfErr result (Stops (beginning self.now) number line.now
            answers.old.bytes.items (W.contents writer.old) (W.contents writer.new)) };
}
