//! Where a document is from, and how it is answered.

ghost use Rattle.std.specs.Prelude.{◌≡◌, Some};
ghost use Rattle.cvss_audit.specs.Inputs.{input_view, line_of};

use crate::counts::Counts;
use cvss_base::Severity;
use cvss_report::Gate;
use std::cell::Cell;

/// How answers are written.
#[derive(Clone, Copy, Drop)]
pub enum AuditForm {
    /// For people: one line for each disagreement, and for each vector that is rejected or lacks base
    /// metrics that it may not lack.
    Disagreements,
    /// One JSON object for each vector.
    Objects,
    /// One JSON object for each vector that disagrees, is rejected, or lacks base metrics that it may
    /// not lack.
    DifferingObjects,
}

/// What is known of a document before it is read.
#[derive(Clone, Copy)]
pub(crate) struct Input<'a> {
    /// The name of its file, if answers say it.
    pub(crate) file: Option<&'a str>,
    /// The number of its line, from 1, if there is one document a line.
    pub(crate) line: Option<u64>,
    /// Whether its vectors of CVSS v3 may lack base metrics.
    pub(crate) allow_incomplete: bool,
    /// How answers are written.
    pub(crate) form: AuditForm,
    /// Which vectors are passed over, and on which the audit fails.
    pub(crate) gate: Gate,
    /// What is counted. No contract speaks of it.
    pub(crate) counts: &'a Cell<Counts>,
}

impl<'a> Input<'a> {
    /// The document on the line of this number in the same file.
    pub(crate) fn at_line(self, number: u64) -> Input<'a>
        ensures { input_view result ≡ line_of (input_view self.entry) number }
    {
        Input {
            line: Some(number),
            ..self
        }
    }

    /// Counts the document.
    pub(crate) fn count_document(self) {
        self.counts.set(self.counts.get().with_document());
    }

    /// Counts its text, which is no document.
    pub(crate) fn count_rejected(self) {
        self.counts.set(self.counts.get().with_rejected());
    }

    /// Counts a vector in it, about which there are so many lines for people, by its severity if it is
    /// accepted.
    pub(crate) fn count_vector(self, lines: u64, severity: Option<Severity>) {
        self.counts
            .set(self.counts.get().with_vector(lines, severity));
    }
}
