//! A score of CVSS v3.

ghost use Rattle.std.specs.Prelude.{◌≡◌, ◌≤◌, ◌*ℤ◌, ◌^◌, ℤ, pos, Some};
ghost use Rattle.cvss_base.specs.Exact.{of_count, IsWithinLimit};
ghost use Rattle.cvss_base.specs.SeverityScale.{severity_of_score};
ghost use Rattle.cvss_base.specs.Tenths.{score_text, IsInTenths, IsFromZeroToTen};
ghost use Rattle.cvss_score.specs.v3.Scores.{IsRounded};

use crate::v3::rounding::round_count;
use crate::v3::rules::Rules;
use cvss_base::{OneDecimal, Severity, TENTH, severity_of_score};
use std::fmt;
use std::marker::Model;

/// A score or sub-score: a count of 10^-24 of a score point.
#[derive(Clone, Copy, Debug, Default, PartialEq, Eq, PartialOrd, Ord)]
pub struct Score(i128);

impl Model for Score {
    ghost use Rattle.std.specs.Prelude.{ℤ};

    ghost Value = { ℤ };

    ghost view = { λ s. s.0 };

    ghost inverse = { λ count. record { 0 = count } };
}

impl Score {
    /// The score of this count.
    pub fn new(count: i128) -> Self
        ensures { result ≡ count }
    {
        Score(count)
    }

    /// The rounding to tenths of v3.1 (Appendix A).
    pub fn roundup(self) -> Self
        requires { IsWithinLimit self }
        ensures value { IsInTenths (IsRounded 1 (of_count self)) result }
        ensures limit { IsWithinLimit result }
    {
        self.roundup_for_version(1)
    }

    /// The rounding to tenths of v3.0 (section 8.1) for minor version 0, and that of v3.1
    /// (Appendix A) for any other.
    pub fn roundup_for_version(self, minor_version: usize) -> Self
        requires { IsWithinLimit self }
        ensures value { IsInTenths (IsRounded minor_version (of_count self)) result }
        ensures limit { IsWithinLimit result }
    {
        Score(round_count(self.0, Rules::of(minor_version)) * TENTH)
    }

    /// The rating: none below 0.1, low below 4.0, medium below 7.0, high below 9.0, and critical
    /// from there (v3.1 specification, section 5).
    pub fn severity(self) -> Severity
        ensures { result ≡ severity_of_score self }
    {
        severity_of_score(self.0)
    }

    /// The count.
    pub fn value(self) -> i128
        ensures { result ≡ self }
    {
        self.0
    }
}

/// The score of so many tenths.
pub fn of_tenths(tenths: u64) -> Score
    requires { tenths ≤ 100 }
    ensures value { result ≡ pos tenths *ℤ pos (10 ^ 23) }
    ensures range { IsInTenths IsFromZeroToTen result }
{
    Score(tenths as i128 * TENTH)
}

impl fmt::Display for Score {
    ghost output = { λ score. Some (score_text score) };

    /// Writes the tenth nearest to the score, of two equally near the even one.
    fn fmt<W: fmt::Write>(&self, f: &mut fmt::Formatter<W>) -> fmt::Result {
        OneDecimal { count: self.0 }.fmt(f)
    }
}

impl From<i128> for Score {
    ghost from_gives = { λ count score. score ≡ count };

    fn from(count: i128) -> Self {
        Score(count)
    }
}

impl From<Score> for i128 {
    ghost from_gives = { λ score count. count ≡ score };

    fn from(score: Score) -> Self {
        score.0
    }
}

impl From<Score> for Severity {
    ghost from_gives = { λ score severity. severity ≡ severity_of_score score };

    fn from(score: Score) -> Self {
        score.severity()
    }
}
