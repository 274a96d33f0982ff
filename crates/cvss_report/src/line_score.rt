//! The score and the severity of the vector that a line denotes.

ghost use Rattle.std.specs.Prelude.{◌≡◌, ℕ, IfSome, MatchOption, Some};
ghost use Rattle.cvss_report.specs.LineScores.{IsScoreOfLine, IsSeverityOfLine};
ghost use Rattle.cvss_vector.specs.Answers.{HasScore};
ghost use Rattle.cvss_vector.specs.Lines.{IsVectorOf};
ghost use Rattle.cvss_vector.specs.declared.vector.Cvss.{Cvss as AnyVector};
ghost use Rattle.cvss_base.specs.declared.severity.Severity.{Severity as AnySeverity};

use cvss_base::Severity;
use cvss_vector::{Cvss, Scoring};

/// The tenths of the score of the vector that a line denotes, which lacks no base metric unless it may.
pub fn score_of(line: &[u8], allow_incomplete: bool, scoring: Scoring) -> Option<u8>
    ensures { MatchOption result
        ((tenths : ℕ) → ¬ (IsScoreOfLine scoring allow_incomplete line.now tenths))
        (IsScoreOfLine scoring allow_incomplete line.now) }
{
    match vector_by(line, allow_incomplete) {
        Some(cvss) => Some(cvss.tenths_as(scoring)),
        None => None,
    }
}

/// The severity of that score.
pub fn severity_of(line: &[u8], allow_incomplete: bool, scoring: Scoring) -> Option<Severity>
    ensures { MatchOption result
        ((severity : AnySeverity) → ¬ (IsSeverityOfLine scoring allow_incomplete line.now severity))
        (IsSeverityOfLine scoring allow_incomplete line.now) }
{
    match vector_by(line, allow_incomplete) {
        Some(cvss) => Some(cvss.severity_of_tenths(cvss.tenths_as(scoring))),
        None => None,
    }
}

/// The vector that a line denotes, which lacks no base metric unless it may.
fn vector_by(line: &[u8], allow_incomplete: bool) -> Option<Cvss>
    ensures is { IfSome result (IsVectorOf allow_incomplete line.now) }
    ensures all { (cvss : AnyVector) → IsVectorOf allow_incomplete line.now cvss → result ≡ Some cvss }
    ensures scored { IfSome result (λ cvss. HasScore cvss) }
{
    let cvss = Cvss::read_bytes(line)?;
    match cvss.missing_by(allow_incomplete) {
        None => Some(cvss),
        Some(_) => None,
    }
}
