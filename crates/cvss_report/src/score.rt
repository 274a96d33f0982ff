//! The scores of a vector, as a record says them.

ghost use Rattle.std.specs.Prelude.{◌≡◌};
ghost use Rattle.cvss_vector.specs.Answers.{HasScore, severity_by, score_of_tenths};
ghost use Rattle.cvss_report.specs.Groups.{AreScoresOf, record_scores, tenths_at, tenths_of};
ghost use Rattle.cvss_report.specs.Record.{severity_word};

use cvss_base::{Severity, TENTH};
use cvss_vector::{Cvss, Evaluation, Group, Rated};

/// The scores that a record says, in tenths from 0 to 100 each.
#[derive(Clone, Copy)]
pub struct Scores {
    /// The base score; of CVSS v4.0, as publishers write it, the score with all metrics in the vector.
    pub base: u8,
    /// The temporal score of CVSS v2 and v3.
    pub temporal: Option<u8>,
    /// The environmental score of CVSS v2 and v3.
    pub environmental: Option<u8>,
}

impl Scores {
    /// The scores of a vector that has one.
    pub fn of(cvss: &Cvss) -> Scores
        requires { HasScore cvss.now }
        ensures { AreScoresOf cvss.now result }
    {
        record_scores(cvss, &Evaluation::of(cvss))
    }

    /// The tenths of a group's score, if a record can say it.
    pub fn at(&self, group: Group) -> Option<u8>
        ensures { result ≡ tenths_at self.now group }
    {
        match group {
            Group::Base => Some(self.base),
            Group::Temporal => self.temporal,
            Group::Environmental => self.environmental,
        }
    }
}

/// The scores that a record says of a vector that has these.
fn record_scores(cvss: &Cvss, found: &Evaluation) -> Scores
    ensures { result ≡ record_scores cvss.now found.now }
{
    match cvss {
        Cvss::CvssV20(_) | Cvss::CvssV30(_) | Cvss::CvssV31(_) => Scores {
            base: found.base.tenths,
            temporal: tenths_of(found.temporal),
            environmental: tenths_of(found.environmental),
        },
        Cvss::CvssV40(_) => Scores {
            base: found.overall.tenths,
            temporal: None,
            environmental: None,
        },
    }
}

fn tenths_of(found: Option<Rated>) -> Option<u8>
    ensures { result ≡ tenths_of found }
{
    Some(found?.tenths)
}

/// The severity that the vector's version gives a score of so many tenths, as a record says it.
pub fn severity_word(cvss: &Cvss, tenths: u8) -> &'static str
    ensures { result.now ≡ severity_word (severity_by cvss.now (score_of_tenths tenths)) }
{
    match cvss.severity_of(i128::from(tenths) * TENTH) {
        Severity::None => "NONE",
        Severity::Low => "LOW",
        Severity::Medium => "MEDIUM",
        Severity::High => "HIGH",
        Severity::Critical => "CRITICAL",
    }
}
