//! What a command does with each input.

ghost use Rattle.std.specs.Prelude.{◌≡◌, ◌++◌, OnOk};
ghost use Rattle.cvss_lines.specs.Prefixed.{AnswersByOneText, IsPrefixed};
ghost use Rattle.cvss_lines.specs.Runs.{Ends};
ghost use Rattle.cvss_frame.specs.Names.{shown_name};
ghost use Rattle.cvss_frame.specs.Operands.{Endings};

use crate::names::{is_plain, put_shown};
use cvss_json::Growing;
use cvss_lines::{Answering, OutputBuffer, RunFault, Summary, run};
use std::alloc::{AllocError, Global};
use std::io::{Read, Write};

/// A way to answer a whole input, which is a vector of the command line, a file or standard input.
pub trait Task {
    /// How it ends, by what each answer begins with.
    ghost ends: { Self → Endings };

    /// Answers an input. Each answer begins with the prefix.
    ///
    /// # Errors
    ///
    /// Out of memory, or a failure of the reader or the writer.
    fn serve_input<R: Read, W: Write>(
        &self,
        alloc: Global,
        prefix: &[u8],
        reader: &mut R,
        writer: &mut W,
    ) -> Result<Summary, RunFault>
        ensures { ends self.now prefix.now (R.remaining reader.old) (R.remaining reader.new)
            (W.contents writer.old) (W.contents writer.new) result };
}

/// A way to answer each line by one text.
pub trait LineAnswer: Answering {
    ghost one_text: { (answer : Self) → AnswersByOneText (Self.rule answer) };
}

/// The task to answer each line of an input by one text.
#[derive(Drop)]
pub struct EachLine<A> {
    pub answer: A,
}

impl<A: LineAnswer> Task for EachLine<A> {
    ghost ends = { λ task prefix. Ends (IsPrefixed (shown_name prefix) (A.rule task.answer)) };

    fn serve_input<R: Read, W: Write>(
        &self,
        alloc: Global,
        prefix: &[u8],
        reader: &mut R,
        writer: &mut W,
    ) -> Result<Summary, RunFault> {
        let prefixed = Prefixed {
            answer: &self.answer,
            prefix,
        };
        run(&prefixed, alloc, reader, writer)
    }
}

/// Answers that begin with a prefix, as it is shown.
#[derive(Drop)]
pub struct Prefixed<'a, A> {
    pub answer: &'a A,
    pub prefix: &'a [u8],
}

impl<A: LineAnswer> Answering for Prefixed<'_, A> {
    ghost rule = { λ prefixed. IsPrefixed (shown_name prefixed.prefix.now) (A.rule prefixed.answer.now) };

    #[inline(always)]
    fn answer_line(
        &self,
        alloc: Global,
        number: u64,
        line: &[u8],
        answers: &mut OutputBuffer,
    ) -> Result<bool, AllocError> {
        push_prefix(self.prefix, answers)?;
        self.answer.answer_line(alloc, number, line, answers)
    }
}

/// Appends what answers begin with, which mostly is nothing.
#[inline(always)]
fn push_prefix(prefix: &[u8], answers: &mut OutputBuffer) -> Result<(), AllocError>
    ensures { OnOk result (answers.new.bytes.items ≡ answers.old.bytes.items ++ shown_name prefix.now) }
{
    match prefix {
        [] => Ok(()),
        _ => push_shown(prefix, answers),
    }
}

/// Appends a name as it is shown.
#[tactic(auto, using(crate::proofs::NamesLemmas::plain_shown))]
fn push_shown(name: &[u8], answers: &mut OutputBuffer) -> Result<(), AllocError>
    ensures { OnOk result (answers.new.bytes.items ≡ answers.old.bytes.items ++ shown_name name.now) }
{
    if is_plain(name) {
        return answers.push(name);
    }
    push_escapes(name, answers)
}

#[inline(never)]
fn push_escapes(name: &[u8], answers: &mut OutputBuffer) -> Result<(), AllocError>
    ensures { OnOk result (answers.new.bytes.items ≡ answers.old.bytes.items ++ shown_name name.now) }
{
    let mut shown = Growing::begin_after(answers);
    put_shown(&mut shown, name);
    shown.end_into(answers)
}
