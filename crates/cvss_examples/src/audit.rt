//! An audit: how many of many texts are findings.

ghost use Rattle.std.specs.Prelude.{◌↔◌, ◌≤◌, IsTrue, map};
ghost use Rattle.cvss.specs.Answers.{HasScore};
ghost use Rattle.cvss_examples.specs.Counts.{IsCountOf};
ghost use Rattle.cvss_examples.specs.Findings.{IsAtOrAbove, IsFinding, IsNoVector, rank};

use cvss::{Cvss, Severity, laws};

/// What an audit counted.
#[derive(Clone, Copy, Debug, PartialEq, Eq)]
pub struct Audit {
    /// The texts of vectors that are rated at or above the level.
    pub findings: usize,
    /// The texts that are no vectors. They are no findings.
    pub rejected: usize,
}

/// Counts the texts of vectors that are rated at or above a level, and the texts that are no
/// vectors. It takes no memory.
pub fn count_findings(texts: &[&str], level: Severity) -> Audit
    ensures findings { IsCountOf (IsFinding level) (map (λ text. text.now) texts.now)
        result.findings }
    ensures rejected { IsCountOf IsNoVector (map (λ text. text.now) texts.now) result.rejected }
{
    let mut findings = 0;
    let mut rejected = 0;
    for text in texts {
        match Cvss::read_bytes(text.as_bytes()) {
            Some(cvss) if is_rated(&cvss, level) => findings += 1,
            Some(_) => {}
            None => rejected += 1,
        }
    }
    Audit { findings, rejected }
}

/// Whether a vector is rated at or above a level.
fn is_rated(cvss: &Cvss, level: Severity) -> bool
    requires { HasScore cvss.now }
    ensures { IsTrue result ↔ IsAtOrAbove level cvss.now }
{
    laws::scores_are_unique();
    is_at_least(cvss.severity_of(cvss.score()), level)
}

/// Whether a severity is a level or above it.
fn is_at_least(severity: Severity, level: Severity) -> bool
    ensures { IsTrue result ↔ rank level ≤ rank severity }
{
    severity >= level
}
