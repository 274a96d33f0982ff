//! A score of CVSS v4.0 with its nomenclature.

ghost use Rattle.std.specs.Prelude.{◌≡◌, ◌≤◌, ◌*ℤ◌, ◌≤ℤ◌, ◌^◌, ℤ, pos, IsTrue, Some};
ghost use Rattle.cvss_base.specs.SeverityScale.{severity_of_score};
ghost use Rattle.cvss_base.specs.Exact.{◌over◌, ◌⊕◌};
ghost use Rattle.cvss_base.specs.Rounding.{IsRoundedV4};
ghost use Rattle.cvss_base.specs.Tenths.{IsInTenths, IsFromZeroToTen};
ghost use Rattle.cvss_score.specs.v4.AsSevere.{IsAsSevere};
ghost use Rattle.cvss_score.specs.v4.Nomenclature.{named_score_text};
ghost use Rattle.cvss_score.specs.v4.Scores.{has_impact, number, IsScore};
ghost use Rattle.cvss_score.specs.declared.v4.scoring.effective.Effective.{Effective};

use crate::v4::nomenclature::Nomenclature;
use crate::v4::scoring::effective::Effective;
use crate::v4::scoring::score_tenths;
use cvss_base::{OneDecimal, Severity, TENTH, severity_of_score};
use std::fmt;
use std::marker::Model;

/// A score, a count of 10^-24 of a score point, and the groups of metrics that it rests on.
#[derive(Clone, Copy, Debug, PartialEq, Eq)]
pub struct Score {
    value: i128,
    nomenclature: Nomenclature,
}

impl Model for Score {
    ghost use Rattle.std.specs.Prelude.{ℤ};
    ghost use Rattle.cvss_score.specs.declared.v4.nomenclature.Nomenclature.{Nomenclature};

    ghost Value = { ℤ × Nomenclature };

    ghost view = { λ s. (s.value, s.nomenclature) };

    ghost inverse = { λ score. record { value = score.0; nomenclature = score.1 } };
}

impl Score {
    /// The score of this count.
    pub fn new(value: i128, nomenclature: Nomenclature) -> Self
        ensures { result ≡ (value, nomenclature) }
    {
        Score {
            value,
            nomenclature,
        }
    }

    /// The score of so many tenths.
    fn of_tenths(tenths: u8, nomenclature: Nomenclature) -> Self
        requires { tenths ≤ 100 }
        ensures value { result.0 ≡ pos tenths *ℤ pos (10 ^ 23) }
        ensures nomenclature { result.1 ≡ nomenclature }
        ensures range { IsInTenths IsFromZeroToTen result.0 }
        ensures some { 1 ≤ tenths → IsInTenths (λ r. pos 1 ≤ℤ r) result.0 }
    {
        Score::new(tenths as i128 * TENTH, nomenclature)
    }

    /// The count.
    pub fn value(self) -> i128
        ensures { result ≡ self.0 }
    {
        self.value
    }

    /// The rating (v4.0 specification, section 6).
    pub fn severity(self) -> Severity
        ensures { result ≡ severity_of_score self.0 }
    {
        severity_of_score(self.value)
    }
}

/// The score of effective values with a nomenclature: the value of their class less the mean of gap
/// times distance over depth, to the nearest tenth, half up; 0 without impact, and at least a tenth
/// with it (v4.0 specification, section 8.2).
#[inline(always)]
#[tactic(auto, using(crate::proofs::v4_lemmas::CountLemmas::lifted_count))]
pub fn score_of(effective: &Effective, nomenclature: Nomenclature) -> Score
    ensures value { IsInTenths (IsScore effective.now) result.0 }
    ensures nomenclature { result.1 ≡ nomenclature }
    ensures range { IsInTenths IsFromZeroToTen result.0 }
    ensures with_impact { IsTrue (has_impact effective.now)
        → IsInTenths (λ r. pos 1 ≤ℤ r) result.0 }
    // Values of the class with no level below these score no more, and a millionth that is added
    // before the rounding changes nothing.
    ensures order { (less : Effective) → (count : ℤ) → IsAsSevere effective.now less
        → IsInTenths (IsScore less) count → count ≤ℤ result.0 }
    ensures millionth { IsInTenths
        (IsRoundedV4 (number effective.now ⊕ 1 over 1_000_000)) result.0 }
{
    Score::of_tenths(score_tenths(effective), nomenclature)
}

impl fmt::Display for Score {
    ghost output = { λ score. Some (named_score_text score.0 score.1) };

    fn fmt<W: fmt::Write>(&self, f: &mut fmt::Formatter<W>) -> fmt::Result {
        let number = OneDecimal { count: self.value };
        write!(f, "{number} ({})", self.nomenclature)
    }
}

impl From<Score> for i128 {
    ghost from_gives = { λ score value. value ≡ score.0 };

    fn from(score: Score) -> Self {
        score.value
    }
}

impl From<Score> for Severity {
    ghost from_gives = { λ score severity. severity ≡ severity_of_score score.0 };

    fn from(score: Score) -> Self {
        score.severity()
    }
}
