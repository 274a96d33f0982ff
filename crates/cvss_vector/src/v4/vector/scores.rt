//! The score of a vector.

ghost use Rattle.std.specs.Prelude.{◌≡◌, ◌≤◌, ◌^◌, ◌*ℤ◌, ◌≤ℤ◌, ℤ, pos, IsTrue};
ghost use Rattle.cvss_base.specs.Exact.{◌over◌, ◌⊕◌};
ghost use Rattle.cvss_base.specs.Rounding.{IsRoundedV4};
ghost use Rattle.cvss_base.specs.Tenths.{IsInTenths, IsFromZeroToTen};
ghost use Rattle.cvss_base.specs.Version.{IsComplete};
ghost use Rattle.cvss_score.specs.v4.Explanation.{AreInRange, IsExplanation};
ghost use Rattle.cvss_vector.specs.v4.Merging.{effective_of};
ghost use Rattle.cvss_vector.specs.v4.Nomenclature.{nomenclature_of};
ghost use Rattle.cvss_score.specs.v4.AsSevere.{IsAsSevere};
ghost use Rattle.cvss_score.specs.v4.Scores.{has_impact, number, IsScore};
ghost use Rattle.cvss_vector.specs.v4.Vector.{v4};
ghost use Rattle.cvss_score.specs.declared.v4.scoring.effective.Effective.{Effective};

use crate::v4::vector::Vector;
use cvss_score::v4::scoring::explanation::Explanation;
use cvss_score::v4::scoring::score_tenths;
use cvss_score::v4::{Score, score_of};

impl Vector {
    /// The score (v4.0 specification, section 8.2) of a complete vector, with its nomenclature: the
    /// value of its class less the mean of gap times distance over depth, to the nearest tenth,
    /// half up; 0 without impact, and at least a tenth with it.
    pub fn score(&self) -> Score
        requires complete { IsComplete v4 self.now }
        ensures value { IsInTenths (IsScore (effective_of self.now)) result.0 }
        ensures nomenclature { result.1 ≡ nomenclature_of self.now }
        ensures range { IsInTenths IsFromZeroToTen result.0 }
        ensures with_impact { IsTrue (has_impact (effective_of self.now))
            → IsInTenths (λ r. pos 1 ≤ℤ r) result.0 }
        // Values of the class with no level below these score no more, and a millionth that is added
        // before the rounding changes nothing.
        ensures order { (less : Effective) → (count : ℤ) → IsAsSevere (effective_of self.now) less
            → IsInTenths (IsScore less) count → count ≤ℤ result.0 }
        ensures millionth { IsInTenths
            (IsRoundedV4 (number (effective_of self.now) ⊕ 1 over 1_000_000)) result.0 }
    {
        score_of(&self.effective(), self.nomenclature())
    }

    /// The score of a complete vector in tenths: what `score` counts in 10^-24.
    pub fn tenths(&self) -> u8
        requires complete { IsComplete v4 self.now }
        ensures value { IsInTenths (IsScore (effective_of self.now)) (pos result *ℤ pos (10 ^ 23)) }
        ensures range { result ≤ 100 }
        ensures with_impact { IsTrue (has_impact (effective_of self.now)) → 1 ≤ result }
    {
        score_tenths(&self.effective())
    }

    /// Why a complete vector has its score: its effective values, their class, the value listed for
    /// it, what each group of metrics takes from the value, and the number before the rounding
    /// (v4.0 specification, section 8.2).
    pub fn explanation(&self) -> Explanation
        requires complete { IsComplete v4 self.now }
        ensures explanation { IsExplanation (effective_of self.now) result }
        ensures range { AreInRange result }
    {
        Explanation::of(&self.effective())
    }
}
