//! The qualitative severity ratings (v3.1 specification, section 5; v4.0 specification, section 6).

ghost use Rattle.std.specs.Prelude.{◌≡◌, IfOk, IfErr, IfSome, Some};
ghost use Rattle.cvss_base.specs.SeverityScale.{severity_of_score};
ghost use Rattle.cvss_base.specs.SeverityText.{text_of, lowered};
ghost use Rattle.cvss_base.specs.Reported.{ReportsNoSeverity};

use crate::error::Error;
use crate::number::{ONE, TENTH};
use std::alloc::Global;
use std::fmt;

/// A qualitative severity rating. CVSS v2 scores are rated by the last four alone.
#[derive(Clone, Copy, Debug, PartialEq, Eq, PartialOrd, Ord, Hash)]
pub enum Severity {
    None,
    Low,
    Medium,
    High,
    Critical,
}

impl Severity {
    const ALL: [Severity; 5] = [
        Severity::None,
        Severity::Low,
        Severity::Medium,
        Severity::High,
        Severity::Critical,
    ];

    /// The rating in lower case.
    pub fn as_str(self) -> &'static str
        ensures { result.now ≡ text_of self }
    {
        match self {
            Severity::None => "none",
            Severity::Low => "low",
            Severity::Medium => "medium",
            Severity::High => "high",
            Severity::Critical => "critical",
        }
    }

    /// The rating with this name, in any ASCII case.
    ///
    /// # Errors
    ///
    /// `InvalidSeverity` with the text as it was given.
    pub fn from_str(alloc: Global, text: &str) -> Result<Severity, Error>
        ensures named { IfOk result (λ severity. text_of severity ≡ lowered text.now) }
        ensures read { (severity : Severity) → text_of severity ≡ lowered text.now
            → result ≡ Ok severity }
        ensures rejected { IfErr result (ReportsNoSeverity text.now) }
    {
        match Severity::read(text) {
            Some(severity) => Ok(severity),
            None => Err(Error::InvalidSeverity {
                name: String::from_str(alloc, text)?,
            }),
        }
    }

    fn read(text: &str) -> Option<Severity>
        ensures named { IfSome result (λ severity. text_of severity ≡ lowered text.now) }
        ensures read { (severity : Severity) → text_of severity ≡ lowered text.now
            → result ≡ Some severity }
    {
        Severity::ALL
            .into_iter()
            .find(|severity| text.eq_ignore_ascii_case(severity.as_str()))
    }
}

impl fmt::Display for Severity {
    ghost output = { λ severity. Some (text_of severity) };

    ghost styled_output = { λ severity _. Some (text_of severity) };

    fn fmt<W: fmt::Write>(&self, f: &mut fmt::Formatter<W>) -> fmt::Result {
        f.write_str(self.as_str())
    }
}

/// The rating of a count of 10^-24 of a score point: none below 0.1, low below 4.0, medium below
/// 7.0, high below 9.0, and critical from there.
pub fn severity_of_score(count: i128) -> Severity
    ensures { result ≡ severity_of_score count }
{
    if count < TENTH {
        Severity::None
    } else if count < 4 * ONE {
        Severity::Low
    } else if count < 7 * ONE {
        Severity::Medium
    } else if count < 9 * ONE {
        Severity::High
    } else {
        Severity::Critical
    }
}
