//! The scores of a vector.

ghost use Rattle.std.specs.Prelude.{◌≡◌, ◌*◌, ◌≤◌, ◌≤ℤ◌, ◌*ℤ◌, ◌^◌, pos};
ghost use Rattle.std.specs.Int.{int_max};
ghost use Rattle.cvss_base.specs.Exact.{of_count, ◌≈◌, IsWithinLimit};
ghost use Rattle.cvss_score.specs.v2.Scores.{impact, adjusted_impact, exploitability, IsTemporal, IsBaseScore, IsTemporalScore, IsEnvironmentalScore};
ghost use Rattle.cvss_score.specs.v2.Bounds.{IsOnScale};
ghost use Rattle.cvss_base.specs.Tenths.{IsInTenths, IsFromZeroToTen};
ghost use Rattle.cvss_vector.specs.v2.Weights.{weights_of};

use crate::v2::vector::Vector;
use cvss_score::v2::Score;
use cvss_score::v2::score::of_tenths;

impl Vector {
    /// The impact sub-score (guide, section 3.2.1), which is exact, from 0 to 10.001.
    #[tactic(auto, using(cvss_base::proofs::ExactLemmas::equal_trans))]
    pub fn impact(&self) -> Score
        ensures value { of_count result ≈ impact (weights_of self.now) }
        ensures limit { IsWithinLimit result }
        ensures low { pos 0 ≤ℤ result }
        ensures high { result ≤ℤ pos (10_001 * 10 ^ 21) }
    {
        Score::new(i128::from(self.weights().impact()) * 10_000_000_000_000)
    }

    /// The exploitability sub-score (guide, section 3.2.1), which is exact, from 0 to 10.
    #[tactic(auto, using(cvss_base::proofs::ExactLemmas::equal_trans))]
    pub fn exploitability(&self) -> Score
        ensures value { of_count result ≈ exploitability (weights_of self.now) }
        ensures limit { IsWithinLimit result }
        ensures low { pos 0 ≤ℤ result }
        ensures high { result ≤ℤ pos (10 ^ 25) }
    {
        Score::new(i128::from(self.weights().exploitability()) * 1_000_000_000_000_000)
    }

    /// The impact sub-score with the requirements (guide, section 3.2.3), which is exact and at
    /// most 10.
    #[tactic(auto, using(cvss_base::proofs::ExactLemmas::equal_trans))]
    pub fn adjusted_impact(&self) -> Score
        ensures value { of_count result ≈ adjusted_impact (weights_of self.now) }
        ensures limit { IsWithinLimit result }
        ensures low { pos 0 ≤ℤ result }
        ensures high { result ≤ℤ pos (10_001 * 10 ^ 21) }
    {
        Score::new(self.weights().adjusted_impact())
    }

    /// The base score (guide, section 3.2.1), not below 0.
    pub fn score(&self) -> Score
        ensures value { IsBaseScore (weights_of self.now) result }
        ensures range { IsInTenths IsFromZeroToTen result }
    {
        of_tenths(i64::from(self.tenths()))
    }

    /// The base score (guide, section 3.2.1) in tenths, not below 0.
    #[inline(always)]
    pub fn tenths(&self) -> u8
        ensures value { IsBaseScore (weights_of self.now) (pos result *ℤ pos (10 ^ 23)) }
        ensures to_ten { result ≤ 100 }
    {
        raised_to_zero(self.inlined_weights().base())
    }

    /// The temporal score (guide, section 3.2.2), not below 0.
    pub fn temporal_score(&self) -> Score
        ensures value { IsTemporalScore (weights_of self.now) result }
        ensures range { IsInTenths IsFromZeroToTen result }
    {
        of_tenths(i64::from(self.temporal_tenths()))
    }

    /// The temporal score (guide, section 3.2.2) in tenths, not below 0.
    pub fn temporal_tenths(&self) -> u8
        ensures value { IsTemporalScore (weights_of self.now) (pos result *ℤ pos (10 ^ 23)) }
        ensures to_ten { result ≤ 100 }
    {
        raised_to_zero(self.weights().temporal())
    }

    /// The environmental score (guide, section 3.2.3), not below 0.
    pub fn environmental_score(&self) -> Score
        ensures value { IsEnvironmentalScore (weights_of self.now) result }
        ensures range { IsInTenths IsFromZeroToTen result }
    {
        of_tenths(i64::from(self.environmental_tenths()))
    }

    /// The environmental score (guide, section 3.2.3) in tenths, not below 0.
    pub fn environmental_tenths(&self) -> u8
        ensures value { IsEnvironmentalScore (weights_of self.now) (pos result *ℤ pos (10 ^ 23)) }
        ensures to_ten { result ≤ 100 }
    {
        raised_to_zero(self.weights().environmental())
    }

    /// The temporal score with another impact in the place of the vector's own, which may be
    /// below 0.
    pub fn temporal_score_internal(&self, impact: Score) -> Score
        requires { IsWithinLimit impact }
        ensures value { IsInTenths (IsTemporal (weights_of self.now) (of_count impact)) result }
        ensures limit { IsWithinLimit result }
    {
        let weights = self.weights();
        of_tenths(weights.temporal_of(weights.base_of(impact.value())))
    }
}

/// The tenths of a score, raised to 0 where they are negative.
#[inline(always)]
fn raised_to_zero(tenths: i64) -> u8
    requires { IsOnScale tenths }
    ensures value { pos result ≡ int_max (pos 0) tenths }
    ensures to_ten { result ≤ 100 }
{
    tenths.max(0) as u8
}
