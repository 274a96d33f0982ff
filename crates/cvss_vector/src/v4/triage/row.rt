//! What triage says of one text.

ghost use Rattle.std.specs.Prelude.{◌≡◌, IfOk, string_bytes};
ghost use Rattle.cvss_base.specs.SeverityScale.{severity_of_score};
ghost use Rattle.cvss_vector.specs.v4.Vector.{v4};
ghost use Rattle.cvss_base.specs.Version.{IsComplete};

use crate::v4::Vector;
use cvss_base::{Severity, severity_of_score};
use cvss_score::ranking::Ranked;
use std::alloc::{AllocError, Global};

/// A text, and what its vector is with the overrides in place.
#[derive(Debug, Drop, PartialEq, Eq)]
pub struct Row {
    /// The text as it was given.
    pub text: String,
    /// The canonical text of the vector with the overrides in place.
    pub scored: String,
    /// The score of that vector, a count of 10^-24 of a score point.
    pub score: i128,
}

impl Row {
    ghost use Rattle.cvss_vector.specs.v4.Triage.{IsRowOf};

    /// The row of a text and of the vector that it is scored as.
    pub(crate) fn of(alloc: Global, text: &str, vector: &Vector) -> Result<Row, AllocError>
        requires { IsComplete v4 vector.now }
        ensures { IfOk result (IsRowOf text.now vector.now) }
    {
        Ok(Row {
            text: String::from_str(alloc, text)?,
            scored: vector.to_string(alloc)?,
            score: vector.score().value(),
        })
    }

    /// The rating of the score (v4.0 specification, section 6).
    pub fn severity(&self) -> Severity
        ensures { result ≡ severity_of_score self.now.score }
    {
        severity_of_score(self.score)
    }
}

impl Ranked for Row {
    ghost score = { λ row. row.score };

    ghost text = { λ row. string_bytes row.text };

    fn score(&self) -> i128 {
        self.score
    }

    fn text(&self) -> &[u8] {
        self.text.as_bytes()
    }
}
