//! How much an audit has found.

ghost use Rattle.std.specs.Prelude.{◌≡◌};
ghost use Rattle.cvss_audit.specs.Counts.{no_counts, with_document, with_rejected, with_vector};

use cvss_base::Severity;
use cvss_report::{Tally, one_more};

/// How many documents and vectors an audit has seen, and how many disagreements. No number grows beyond the
/// greatest of its type.
#[derive(Clone, Copy, Drop)]
pub struct Counts {
    /// Only what is JSON is a document.
    pub documents: u64,
    /// With those that are rejected.
    pub vectors: u64,
    /// How many lines for people there are about vectors.
    pub disagreements: u64,
    /// How many of the vectors have which severity, and how many vectors and texts of documents are
    /// rejected.
    pub severities: Tally,
}

impl Counts {
    /// Nothing is counted.
    pub fn new() -> Counts
        ensures { result ≡ no_counts }
    {
        Counts {
            documents: 0,
            vectors: 0,
            disagreements: 0,
            severities: Tally::new(),
        }
    }

    /// One more document is counted.
    pub(crate) fn with_document(self) -> Counts
        ensures { result ≡ with_document self }
    {
        Counts {
            documents: one_more(self.documents),
            ..self
        }
    }

    /// One more text is counted that is no document.
    pub(crate) fn with_rejected(self) -> Counts
        ensures { result ≡ with_rejected self }
    {
        Counts {
            severities: self.severities.with(None),
            ..self
        }
    }

    /// One more vector is counted, about which there are so many lines, by its severity if it is
    /// accepted.
    pub(crate) fn with_vector(self, lines: u64, severity: Option<Severity>) -> Counts
        ensures { result ≡ with_vector lines severity self }
    {
        Counts {
            vectors: one_more(self.vectors),
            disagreements: self.disagreements.saturating_add(lines),
            severities: self.severities.with(severity),
            ..self
        }
    }
}
