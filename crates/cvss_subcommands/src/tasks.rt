//! What `cvss score` does with a line.

ghost use Rattle.cvss_vector.specs.Lines.{score_rule};
ghost use Rattle.cvss_lines.specs.Prefixed.{IsPrefixed, is_one_text};
ghost use Rattle.cvss_lines.specs.Runs.{Ends};
ghost use Rattle.cvss_frame.specs.Names.{shown_name};
ghost use Rattle.cvss_lists.specs.Gated.{IsGated};
ghost use Rattle.cvss_report.specs.LineScores.{IsScoreOfLine};
ghost use Rattle.cvss_subcommands.specs.Scoring.{AnswersRow};

use crate::hint::{Hint, hint_that_holds};
use cvss_frame::{LineAnswer, Prefixed, Task};
use cvss_lines::{Answering, OutputBuffer, RunFault, Summary, run};
use cvss_lists::{Gated, Scored, Trimmed};
use cvss_report::{Format, Gate, Rows, score_of};
use cvss_vector::{Scoring, answer_score};
use std::alloc::{AllocError, Global};
use std::cell::Cell;
use std::io::{Read, Write};

/// Prints the score line of the vector.
#[derive(Drop)]
pub(crate) struct Score {
    /// Which score is printed.
    pub(crate) scoring: Scoring,
    /// A vector of CVSS v3 may lack base metrics.
    pub(crate) allow_incomplete: bool,
}

impl Answering for Score {
    ghost rule = { λ score. score_rule score.scoring score.allow_incomplete };

    #[inline(always)]
    fn answer_line(
        &self,
        _alloc: Global,
        _number: u64,
        line: &[u8],
        answers: &mut OutputBuffer,
    ) -> Result<bool, AllocError> {
        answer_score(line, self.allow_incomplete, self.scoring, answers)
    }
}

impl LineAnswer for Score {
    ghost one_text = { λ _. is_one_text _ _ };
}

impl Scored for Score {
    ghost reports = { λ score. IsScoreOfLine score.scoring score.allow_incomplete };

    fn score_of(&self, line: &[u8]) -> Option<u8> {
        score_of(line, self.allow_incomplete, self.scoring)
    }
}

/// The answers of another, which keep a hint for the first rejected line that has one. No contract speaks of
/// the hint.
#[derive(Drop)]
pub(crate) struct Hinting<'a, A> {
    pub(crate) answer: A,
    pub(crate) hint: &'a Cell<Option<Hint>>,
}

impl<A: Answering> Answering for Hinting<'_, A> {
    ghost rule = { λ hinting. A.rule hinting.answer };

    #[inline(always)]
    fn answer_line(
        &self,
        alloc: Global,
        number: u64,
        line: &[u8],
        answers: &mut OutputBuffer,
    ) -> Result<bool, AllocError> {
        let accepted = self.answer.answer_line(alloc, number, line, answers)?;
        if !accepted {
            keep_hint(line, self.hint);
        }
        Ok(accepted)
    }
}

impl<A: LineAnswer> LineAnswer for Hinting<'_, A> {
    ghost one_text = { λ hinting. A.one_text hinting.answer };
}

impl<A: Scored> Scored for Hinting<'_, A> {
    ghost reports = { λ hinting. A.reports hinting.answer };

    fn score_of(&self, line: &[u8]) -> Option<u8> {
        self.answer.score_of(line)
    }
}

/// Keeps the hint for a rejected line, unless there is one already.
#[inline(never)]
fn keep_hint(line: &[u8], hint: &Cell<Option<Hint>>) {
    if hint.get().is_none() {
        hint.set(hint_that_holds(line));
    }
}

/// The task to answer each line of an input by one text, through a gate.
#[derive(Drop)]
pub(crate) struct GatedLines<A> {
    pub(crate) gate: Gate,
    pub(crate) answer: A,
}

impl<A: LineAnswer + Scored> Task for GatedLines<A> {
    ghost ends = { λ task prefix. Ends (IsGated task.gate (A.reports task.answer)
        (IsPrefixed (shown_name prefix) (A.rule task.answer))) };

    fn serve_input<R: Read, W: Write>(
        &self,
        alloc: Global,
        prefix: &[u8],
        reader: &mut R,
        writer: &mut W,
    ) -> Result<Summary, RunFault> {
        let prefixed = Prefixed {
            answer: &self.answer,
            prefix,
        };
        let gated = Gated {
            gate: self.gate,
            answering: &prefixed,
        };
        run(&gated, alloc, reader, writer)
    }
}

/// Scores the vector, in a row.
#[derive(Drop)]
pub(crate) struct ScoreRow<'a> {
    pub(crate) format: Format,
    /// Whether the first of values with tabs between them is the name of the file.
    pub(crate) named: bool,
    /// A vector of CVSS v3 may lack base metrics.
    pub(crate) allow_incomplete: bool,
    /// Which vectors are shown and which fail.
    pub(crate) gate: Option<Gate>,
    /// A hint for a rejected line.
    pub(crate) hint: &'a Cell<Option<Hint>>,
}

impl Task for ScoreRow<'_> {
    ghost ends = { λ row. AnswersRow row.gate row.format row.named row.allow_incomplete };

    fn serve_input<R: Read, W: Write>(
        &self,
        alloc: Global,
        prefix: &[u8],
        reader: &mut R,
        writer: &mut W,
    ) -> Result<Summary, RunFault> {
        let answer = Rows {
            format: self.format,
            named: self.named,
            allow_incomplete: self.allow_incomplete,
            prefix,
        };
        let rows = Trimmed {
            answer: Hinting {
                answer,
                hint: self.hint,
            },
        };
        match self.gate {
            Some(gate) => {
                let answering = &rows;
                run(&Gated { gate, answering }, alloc, reader, writer)
            }
            None => run(&rows, alloc, reader, writer),
        }
    }
}
