//! Lines that are JSON documents.

ghost use Rattle.cvss_audit.specs.Answers.{BeginsLine, IsLineAnswer};
ghost use Rattle.cvss_audit.specs.Inputs.{input_view};

use crate::documents::input::Input;
use crate::written::answer::answer_text;
use cvss_lines::{OutputBuffer, RunFault, Service};
use std::alloc::Global;
use std::io::Write;

/// Lines that are JSON documents, each answered by itself. Lines of blanks alone are passed over. A line
/// counts as accepted if nothing in it is rejected, nothing differs, no vector lacks what it may not lack,
/// and the gate fails on none. Vectors that the gate passes over count for nothing.
#[derive(Drop)]
pub(crate) struct Documents<'a> {
    /// Where they are from.
    pub(crate) input: Input<'a>,
}

impl Service for Documents<'_> {
    ghost rule = { λ documents. IsLineAnswer (input_view documents.input) };

    ghost beginning = { λ documents. BeginsLine (input_view documents.input) };

    fn serve_line<W: Write>(
        &self,
        alloc: Global,
        number: u64,
        line: &[u8],
        answers: &mut OutputBuffer,
        writer: &mut W,
    ) -> Result<bool, RunFault> {
        answer_text(alloc, self.input.at_line(number), line, answers, writer)
    }
}
