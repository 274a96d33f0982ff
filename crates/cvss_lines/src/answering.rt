//! What answers the lines of an input, each by texts that are written once they are whole.

ghost use Rattle.std.specs.Prelude.{IfOk};
ghost use Rattle.cvss_lines.specs.Answers.{Rule, WritesAnswer};

use crate::{OutputBuffer, RunFault, Service};
use std::alloc::{AllocError, Global};
use std::io::Write;

/// A way to answer lines, which may depend on a value, as on the options of a command. Each answer is
/// some texts, and accepts its line or rejects it.
pub trait Answering {
    /// Which answers a line has.
    ghost rule: { Self → Rule };

    /// Appends an answer to the line of this number, a byte 10 after each of its texts. Says whether
    /// the line was accepted. Lines are numbered from 1, and the number stops at `u64::MAX`.
    ///
    /// # Errors
    ///
    /// Out of memory. What follows the earlier answers is not to be written then.
    fn answer_line(
        &self,
        alloc: Global,
        number: u64,
        line: &[u8],
        answers: &mut OutputBuffer,
    ) -> Result<bool, AllocError>
        ensures { IfOk result (WritesAnswer (rule self.now) number line.now
            answers.old.bytes.items answers.new.bytes.items) };
}

/// The service that answers so. It writes nothing of an answer that is not whole.
#[derive(Drop)]
pub(crate) struct Whole<'a, A> {
    pub(crate) answering: &'a A,
}

impl<A: Answering> Service for Whole<'_, A> {
    ghost rule = { λ whole. A.rule whole.answering.now };

    ghost beginning = { λ _ _ _ _. ⊥ };

    #[inline(always)]
    fn serve_line<W: Write>(
        &self,
        alloc: Global,
        number: u64,
        line: &[u8],
        answers: &mut OutputBuffer,
        _writer: &mut W,
    ) -> Result<bool, RunFault> {
        Ok(self.answering.answer_line(alloc, number, line, answers)?)
    }
}
