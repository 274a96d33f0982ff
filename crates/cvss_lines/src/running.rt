ghost use Rattle.cvss_lines.specs.Runs.{Ends};
ghost use Rattle.cvss_lines.specs.Streaming.{StreamEnds};

use crate::answering::Whole;
use crate::pending::Pending;
use crate::reading::read_buffer;
use crate::{Answering, RunFault, Service, Summary};
use std::alloc::Global;
use std::io::{Read, Write};

/// Answers each line that the reader gives, in order, to the writer.
///
/// The input is cut after each byte 10, and a last piece without one is a line if it isn't empty.
/// The byte 10, and one byte 13 before it or at the end of that last piece, are not part of a
/// line's text. Each line that a byte 10 ends is answered before the next read.
#[tactic(auto, using(crate::proofs::RunLemmas::ends_whole))]
pub fn run<A: Answering, R: Read, W: Write>(
    answering: &A,
    alloc: Global,
    reader: &mut R,
    writer: &mut W,
) -> Result<Summary, RunFault>
    ensures { Ends (A.rule answering.now) (R.remaining reader.old) (R.remaining reader.new)
        (W.contents writer.old) (W.contents writer.new) result }
{
    serve(&Whole { answering }, alloc, reader, writer)
}

/// Answers lines as [`run`] does, where an answer may be written before it is whole.
pub fn serve<S: Service, R: Read, W: Write>(
    service: &S,
    alloc: Global,
    reader: &mut R,
    writer: &mut W,
) -> Result<Summary, RunFault>
    ensures { StreamEnds (S.rule service.now) (S.beginning service.now)
        (R.remaining reader.old) (R.remaining reader.new)
        (W.contents writer.old) (W.contents writer.new) result }
{
    let mut pending = Pending::new(alloc);
    let mut chunk = read_buffer(alloc)?;
    for _ in 0..u64::MAX {
        let Ok(count) = reader.read(&mut chunk) else {
            return Err(RunFault::Read);
        };
        if count == 0 {
            pending.answer_end(service, alloc, writer)?;
            pending.progress.answers.write_out(writer)?;
            return Ok(pending.progress.summary);
        }
        pending.answer_chunk(service, alloc, &chunk[..count], writer)?;
        pending.progress.answers.write_out(writer)?;
    }
    Err(RunFault::Read)
}
