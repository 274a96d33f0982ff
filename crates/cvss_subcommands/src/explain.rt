//! `cvss explain`.

ghost use Rattle.std.specs.Prelude.{◌≡◌, ◌∷◌, ◌++◌, [], ℕ, List, OnOk, length};
ghost use Rattle.cvss_subcommands.specs.Done.{explain_ends};
ghost use Rattle.cvss_subcommands.specs.Explaining.{explain_rule};
ghost use Rattle.cvss_explain.specs.Json as json;
ghost use Rattle.cvss_frame.specs.Names.{shown_name};
ghost use Rattle.cvss_lines.specs.Answers.{written_text};
ghost use Rattle.cvss_lines.specs.Prefixed.{is_one_text};
ghost use Rattle.cvss_lines.specs.Runs.{Ends};
ghost use Rattle.cvss_frame.specs.Operands.{ServesAll};
ghost use Rattle.cvss_frame.specs.Streams.{state};

use crate::flags::Flags;
use cvss_explain::{Explaining, answer_explained};
use cvss_frame::{EachLine, Host, LineAnswer, Served, Streams, Task, serve_operands};
use cvss_lines::{Answering, OutputBuffer, RunFault, Summary, run};
use cvss_lists::{show_after, waiting_bytes};
use std::alloc::{AllocError, Global};
use std::io::{Read, Write};

/// Explains the scores of the vectors of the operands.
pub(crate) fn explain<H: Host>(
    alloc: Global,
    flags: Flags,
    operands: &[Vec<u8>],
    streams: &mut Streams<H>,
) -> Served
    ensures { ServesAll (explain_ends flags.json flags.what_if flags.allow_incomplete)
        operands.now (state streams.old) (state streams.new) result }
{
    let allow_incomplete = flags.allow_incomplete;
    if flags.json {
        let task = ExplainObjects { allow_incomplete };
        serve_operands(alloc, &task, operands, streams)
    } else {
        let answer = ExplainText {
            what_if: flags.what_if,
            allow_incomplete,
        };
        let task = EachLine { answer };
        serve_operands(alloc, &task, operands, streams)
    }
}

/// Explains the score by an object.
#[derive(Drop)]
struct ExplainObjects {
    /// A vector of CVSS v3 may lack base metrics.
    allow_incomplete: bool,
}

impl Task for ExplainObjects {
    ghost ends = { λ explain prefix. Ends (json.IsAnswer explain.allow_incomplete prefix) };

    fn serve_input<R: Read, W: Write>(
        &self,
        alloc: Global,
        prefix: &[u8],
        reader: &mut R,
        writer: &mut W,
    ) -> Result<Summary, RunFault> {
        let explaining = Explaining {
            allow_incomplete: self.allow_incomplete,
            prefix,
        };
        run(&explaining, alloc, reader, writer)
    }
}

/// Explains the score by a text for people.
#[derive(Drop)]
struct ExplainText {
    /// Shows the scores that other values would give.
    what_if: bool,
    /// A vector of CVSS v3 may lack base metrics.
    allow_incomplete: bool,
}

impl Answering for ExplainText {
    ghost rule = { λ explain. explain_rule explain.what_if explain.allow_incomplete };

    fn answer_line(
        &self,
        alloc: Global,
        _number: u64,
        line: &[u8],
        answers: &mut OutputBuffer,
    ) -> Result<bool, AllocError> {
        let waiting = waiting_bytes(answers);
        let accepted = answer_explained(alloc, line, self.what_if, self.allow_incomplete, answers)?;
        if accepted {
            return Ok(true);
        }
        show_rejection(alloc, waiting, answers)?;
        Ok(false)
    }
}

impl LineAnswer for ExplainText {
    ghost one_text = { λ _. is_one_text _ _ };
}

/// Shows the rejection after so many bytes, with escapes for what breaks a line or a terminal. An empty line
/// follows it.
fn show_rejection(
    alloc: Global,
    waiting: usize,
    answers: &mut OutputBuffer,
) -> Result<(), AllocError>
    ensures { (before text : List ℕ) → length before ≡ waiting
        → answers.old.bytes.items ≡ before ++ (written_text text ++ 10 ∷ [])
        → OnOk result (answers.new.bytes.items
        ≡ before ++ (written_text (shown_name text) ++ 10 ∷ [])) }
{
    let end = waiting_bytes(answers).saturating_sub(1);
    answers.bytes.truncate(end);
    show_after(alloc, waiting, answers)?;
    answers.push(b"\n")
}
