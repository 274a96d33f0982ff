//! Answers to lines through a gate.

ghost use Rattle.std.specs.Prelude.{◌≡◌, ℕ, ◌&&◌, IfOk, if◌then◌else◌, length, not, take};
ghost use Rattle.cvss_lines.specs.Answers.{WritesAnswer};
ghost use Rattle.cvss_lists.specs.Gated.{IsGated, IsLetThrough};

use crate::scored::Scored;
use cvss_lines::{Answering, OutputBuffer};
use cvss_report::Gate;
use std::alloc::{AllocError, Global};

/// Answers through a gate. Of a line whose answer reports a score below the gate's minimum nothing is
/// printed, and it counts as accepted. A line on which the gate fails is answered as ever, and counts as
/// rejected. A line without a score is answered as ever. If the gate is quiet nothing is printed of any
/// line, and each counts as it would.
#[derive(Drop)]
pub struct Gated<'a, A> {
    pub gate: Gate,
    pub answering: &'a A,
}

impl<A: Scored> Answering for Gated<'_, A> {
    ghost rule = { λ gated. IsGated gated.gate (A.reports gated.answering.now)
        (A.rule gated.answering.now) };

    fn answer_line(
        &self,
        alloc: Global,
        number: u64,
        line: &[u8],
        answers: &mut OutputBuffer,
    ) -> Result<bool, AllocError> {
        let score = self.answering.score_of(line);
        if self.gate.passes_over(score) {
            return Ok(true);
        }
        let failing = self.gate.fails_on(score);
        self.let_through(alloc, number, line, failing, answers)
    }
}

impl<A: Answering> Gated<'_, A> {
    /// Answers a line that is not passed over.
    fn let_through(
        &self,
        alloc: Global,
        number: u64,
        line: &[u8],
        failing: bool,
        answers: &mut OutputBuffer,
    ) -> Result<bool, AllocError>
        ensures { IfOk result (WritesAnswer (IsLetThrough self.now.gate.quiet failing
            (A.rule self.now.answering.now)) number line.now
            answers.old.bytes.items answers.new.bytes.items) }
    {
        let waiting = waiting_bytes(answers);
        let accepted = self.answering.answer_line(alloc, number, line, answers)?;
        take_back(self.gate.quiet, waiting, answers);
        Ok(accepted && !failing)
    }
}

/// How many bytes wait to be written.
pub fn waiting_bytes(answers: &OutputBuffer) -> usize
    ensures { result ≡ length answers.now.bytes.items }
{
    answers.bytes.as_slice().len()
}

/// Takes back what is after so many bytes, where nothing is to be printed.
fn take_back(quiet: bool, waiting: usize, answers: &mut OutputBuffer)
    ensures { answers.new.bytes.items
        ≡ (if quiet then take waiting answers.old.bytes.items else answers.old.bytes.items) }
{
    if quiet {
        answers.bytes.truncate(waiting);
    }
}
