//! The task to audit documents.

ghost use Rattle.std.specs.Prelude.{◌≡◌, option_map};
ghost use Rattle.cvss_audit.specs.Task.{audit_ends, file_of, text_of};

use crate::counts::Counts;
use crate::documents::files::answer_file;
use crate::documents::input::{AuditForm, Input};
use crate::documents::whole::answer_whole;
use cvss_frame::Task;
use cvss_lines::{RunFault, Summary};
use cvss_report::Gate;
use std::alloc::Global;
use std::cell::Cell;
use std::io::{Read, Write};

/// How an input holds its documents.
#[derive(Drop)]
pub enum Layout {
    /// It is one document.
    Whole,
    /// One a line if its first line that is not blank is a document by itself or there is no such line,
    /// else it is one.
    Either,
}

/// How documents are audited.
#[derive(Drop)]
pub struct Asked {
    pub layout: Layout,
    /// Whether vectors of CVSS v3 may lack base metrics.
    pub allow_incomplete: bool,
    /// How answers are written.
    pub form: AuditForm,
    /// Which vectors are passed over, and on which the audit fails.
    pub gate: Gate,
}

/// The task to audit documents.
#[derive(Drop)]
pub struct Audit<'a> {
    pub asked: Asked,
    /// What is counted. No contract speaks of it.
    pub counts: &'a Cell<Counts>,
}

impl Task for Audit<'_> {
    ghost ends = { λ audit. audit_ends audit.asked };

    fn serve_input<R: Read, W: Write>(
        &self,
        alloc: Global,
        prefix: &[u8],
        reader: &mut R,
        writer: &mut W,
    ) -> Result<Summary, RunFault> {
        let input = Input {
            file: file_of(prefix),
            line: None,
            allow_incomplete: self.asked.allow_incomplete,
            form: self.asked.form,
            gate: self.asked.gate,
            counts: self.counts,
        };
        match self.asked.layout {
            Layout::Whole => answer_whole(alloc, input, reader, writer),
            Layout::Either => answer_file(alloc, input, reader, writer),
        }
    }
}

/// The name of the file whose answers would begin with this prefix, if it is a text.
fn file_of(prefix: &[u8]) -> Option<&str>
    ensures { option_map (λ file. file.now) result ≡ file_of prefix.now }
{
    match prefix {
        [] => None,
        [_, rest @ ..] => text_of(&prefix[..rest.len()]),
    }
}

/// The text of these bytes, if they are one.
fn text_of(bytes: &[u8]) -> Option<&str>
    ensures { option_map (λ text. text.now) result ≡ text_of bytes.now }
{
    match str::from_utf8(bytes) {
        Ok(text) => Some(text),
        Err(_) => None,
    }
}
