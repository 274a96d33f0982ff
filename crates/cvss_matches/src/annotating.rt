//! A line that is repeated, with the answers to what is found in it.

ghost use Rattle.std.specs.Prelude.{◌≡◌, ◌++◌, ℕ, List, OnOk};
ghost use Rattle.cvss_matches.specs.private.Reporting.{asked_of, closing, opening, written_as};
ghost use Rattle.cvss_lines.specs.Answers.{written_text};

use crate::form::Form;
use crate::line::Line;
use cvss_lines::OutputBuffer;
use std::alloc::AllocError;

impl Line<'_> {
    /// Writes what is before the matches: the line, where it is repeated.
    pub(crate) fn write_opening(self, answers: &mut OutputBuffer) -> Result<(), AllocError>
        ensures { OnOk result (answers.new.bytes.items
            ≡ answers.old.bytes.items ++ opening self.entry.form (asked_of self.entry)) }
    {
        match self.form {
            Form::Located | Form::Object => Ok(()),
            Form::Annotated { .. } => {
                self.write_prefix(answers)?;
                answers.push(self.bytes)
            }
        }
    }

    /// Takes off the byte 10 after a text that does not end the answer.
    pub(crate) fn end_text(self, answers: &mut OutputBuffer)
        ensures { (before text : List ℕ) → answers.old.bytes.items ≡ before ++ written_text text
            → answers.new.bytes.items ≡ before ++ written_as self.entry.form text }
    {
        match self.form {
            Form::Located | Form::Object => {}
            Form::Annotated { .. } => {
                let _ = answers.bytes.pop();
            }
        }
    }

    /// Writes what is after the matches: a byte 10, where the line is repeated.
    pub(crate) fn write_closing(self, answers: &mut OutputBuffer) -> Result<(), AllocError>
        ensures { OnOk result (answers.new.bytes.items
            ≡ answers.old.bytes.items ++ closing self.entry.form) }
    {
        match self.form {
            Form::Located | Form::Object => Ok(()),
            Form::Annotated { .. } => answers.push(b"\n"),
        }
    }
}
