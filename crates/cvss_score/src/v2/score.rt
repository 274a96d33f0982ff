//! A score of CVSS v2.

ghost use Rattle.std.specs.Prelude.{◌≡◌, ◌≤ℤ◌, ◌*ℤ◌, ◌^◌, ℤ, pos, neg_ℤ, Some};
ghost use Rattle.cvss_base.specs.Exact.{of_count, IsWithinLimit};
ghost use Rattle.cvss_base.specs.Rounding.{IsRoundedV2};
ghost use Rattle.cvss_base.specs.Tenths.{score_text, IsInTenths};
ghost use Rattle.cvss_score.specs.v2.SeverityScale.{severity_of};

use crate::v2::equations;
use cvss_base::{ONE, OneDecimal, Severity, TENTH};
use std::fmt;
use std::marker::Model;

/// A score or sub-score: a count of 10^-24 of a score point.
#[derive(Clone, Copy, Debug, Default, PartialEq, Eq, PartialOrd, Ord)]
pub struct Score(i128);

impl Model for Score {
    ghost use Rattle.std.specs.Prelude.{ℤ};

    ghost Value = { ℤ };

    ghost view = { λ s. s.0 };

    ghost inverse = { λ count. record { 0 = count } };
}

impl Score {
    /// The score of this count.
    pub fn new(count: i128) -> Self
        ensures { result ≡ count }
    {
        Score(count)
    }

    /// The nearest tenth, once 10^-6 has been added, and half away from zero.
    pub fn roundup(self) -> Self
        requires { IsWithinLimit self }
        ensures value { IsInTenths (IsRoundedV2 (of_count self)) result }
        ensures limit { IsWithinLimit result }
    {
        of_tenths(equations::round_tenths(self.0 * 10_000))
    }

    /// The rating: low below 4.0, medium below 7.0, and high from there.
    pub fn severity(self) -> Severity
        ensures { result ≡ severity_of self }
    {
        if self.0 < 4 * ONE {
            Severity::Low
        } else if self.0 < 7 * ONE {
            Severity::Medium
        } else {
            Severity::High
        }
    }

    /// The count.
    pub fn value(self) -> i128
        ensures { result ≡ self }
    {
        self.0
    }
}

/// The score of so many tenths.
pub fn of_tenths(tenths: i64) -> Score
    requires low { neg_ℤ (pos (10 ^ 7)) ≤ℤ tenths }
    requires high { tenths ≤ℤ pos (10 ^ 7) }
    ensures value { result ≡ tenths *ℤ pos (10 ^ 23) }
    ensures limit { IsWithinLimit result }
{
    Score(i128::from(tenths) * TENTH)
}

impl fmt::Display for Score {
    ghost output = { λ score. Some (score_text score) };

    /// Writes the tenth nearest to the score, of two equally near the even one.
    fn fmt<W: fmt::Write>(&self, f: &mut fmt::Formatter<W>) -> fmt::Result {
        OneDecimal { count: self.0 }.fmt(f)
    }
}

impl From<i128> for Score {
    ghost from_gives = { λ count score. score ≡ count };

    fn from(count: i128) -> Self {
        Score(count)
    }
}

impl From<Score> for i128 {
    ghost from_gives = { λ score count. count ≡ score };

    fn from(score: Score) -> Self {
        score.0
    }
}

impl From<Score> for Severity {
    ghost from_gives = { λ score severity. severity ≡ severity_of score };

    fn from(score: Score) -> Self {
        score.severity()
    }
}
