//! `cvss score --count`.

ghost use Rattle.cvss_frame.specs.Streams.{state};
ghost use Rattle.cvss_subcommands.specs.Counting.{PrintsCount, PrintsNumbers, PrintsText};

use cvss_frame::{Host, LineAnswer, Served, Streams};
use cvss_lines::{Answering, OutputBuffer, RunFault, write_whole};
use cvss_lists::Scored;
use cvss_report::{Tally, count_text, severity_of};
use cvss_vector::Scoring;
use std::alloc::{AllocError, Global};
use std::cell::Cell;

/// The answers of another, which are counted. No contract speaks of the numbers.
#[derive(Drop)]
pub(crate) struct Counting<'a, A> {
    pub(crate) answer: A,
    pub(crate) scoring: Scoring,
    pub(crate) tally: &'a Cell<Tally>,
}

impl<A: Answering> Answering for Counting<'_, A> {
    ghost rule = { λ counting. A.rule counting.answer };

    fn answer_line(
        &self,
        alloc: Global,
        number: u64,
        line: &[u8],
        answers: &mut OutputBuffer,
    ) -> Result<bool, AllocError> {
        let accepted = self.answer.answer_line(alloc, number, line, answers)?;
        let severity = if accepted {
            severity_of(line, true, self.scoring)
        } else {
            None
        };
        self.tally.set(self.tally.get().with(severity));
        Ok(accepted)
    }
}

impl<A: LineAnswer> LineAnswer for Counting<'_, A> {
    ghost one_text = { λ counting. A.one_text counting.answer };
}

impl<A: Scored> Scored for Counting<'_, A> {
    ghost reports = { λ counting. A.reports counting.answer };

    fn score_of(&self, line: &[u8]) -> Option<u8> {
        self.answer.score_of(line)
    }
}

/// Prints what was counted, unless the command has stopped.
pub(crate) fn print_count<H: Host>(
    alloc: Global,
    tally: Tally,
    served: Served,
    streams: &mut Streams<H>,
) -> Served
    ensures { PrintsCount served (state streams.old) (state streams.new) result }
{
    match served.stopped {
        Some(_) => served,
        None => print_numbers(alloc, tally, served, streams),
    }
}

fn print_numbers<H: Host>(
    alloc: Global,
    tally: Tally,
    served: Served,
    streams: &mut Streams<H>,
) -> Served
    ensures { PrintsNumbers served (state streams.old) (state streams.new) result }
{
    match count_text(alloc, tally) {
        Ok(text) => print_text(&text.bytes, served, streams),
        Err(_) => served.after(Err(RunFault::Memory)),
    }
}

fn print_text<H: Host>(text: &[u8], served: Served, streams: &mut Streams<H>) -> Served
    ensures { PrintsText text.now served (state streams.old) (state streams.new) result }
{
    match write_whole(&mut streams.output, text) {
        Ok(()) => served,
        Err(fault) => served.after(Err(fault)),
    }
}
