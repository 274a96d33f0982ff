//! `cvss diff`.

ghost use Rattle.cvss_lines.specs.Runs.{Ends};
ghost use Rattle.cvss_lists.specs.Differences.{difference_rule};
ghost use Rattle.cvss_subcommands.specs.Comparing.{Compares};
ghost use Rattle.cvss_frame.specs.Streams.{state};

use crate::flags::Flags;
use cvss_frame::{Host, Served, Streams, Task, serve_operands};
use cvss_lines::{Answering, OutputBuffer, RunFault, Summary, run};
use cvss_lists::write_difference;
use cvss_vector::Scoring;
use std::alloc::{AllocError, Global};
use std::io::{Read, Write};

/// Says in which metrics the vectors of the second operand differ from the first, which is a vector.
pub(crate) fn diff<H: Host>(
    alloc: Global,
    flags: Flags,
    operands: &[Vec<u8>],
    streams: &mut Streams<H>,
) -> Served
    ensures { Compares flags.base flags.allow_incomplete
        operands.now (state streams.old) (state streams.new) result }
{
    let Some((first, others)) = operands.split_first() else {
        return Served::nothing();
    };
    let task = Compare {
        first,
        scoring: flags.scoring(),
        allow_incomplete: flags.allow_incomplete,
    };
    serve_operands(alloc, &task, others, streams)
}

/// Compares each line with a text.
#[derive(Clone, Copy, Drop)]
struct Compare<'a> {
    first: &'a [u8],
    scoring: Scoring,
    /// Vectors of CVSS v3 may lack base metrics.
    allow_incomplete: bool,
}

impl Answering for Compare<'_> {
    ghost rule = { λ compare. difference_rule compare.scoring compare.allow_incomplete compare.first.now };

    fn answer_line(
        &self,
        alloc: Global,
        _number: u64,
        line: &[u8],
        answers: &mut OutputBuffer,
    ) -> Result<bool, AllocError> {
        write_difference(
            alloc,
            self.first,
            line,
            self.scoring,
            self.allow_incomplete,
            answers,
        )
    }
}

impl Task for Compare<'_> {
    ghost ends = { λ compare _. Ends (difference_rule compare.scoring compare.allow_incomplete compare.first.now) };

    fn serve_input<R: Read, W: Write>(
        &self,
        alloc: Global,
        _prefix: &[u8],
        reader: &mut R,
        writer: &mut W,
    ) -> Result<Summary, RunFault> {
        run(self, alloc, reader, writer)
    }
}
