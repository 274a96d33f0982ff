//! The scores of a vector.

ghost use Rattle.std.specs.Prelude.{◌≡◌, ◌≤◌, ◌*ℤ◌, ◌^◌, ℤ, pos, IsTrue};
ghost use Rattle.cvss_base.specs.Exact.{of_count, whole, ◌≈◌, ◌⊏◌, IsWithinLimit};
ghost use Rattle.cvss_base.specs.Tenths.{IsInTenths, IsFromZeroToTen};
ghost use Rattle.cvss_score.specs.v3.Certainty.{IsCertain};
ghost use Rattle.cvss_score.specs.v3.Scores.{iss, impact, modified_impact, exploitability, base_number, environmental_number, IsBaseScore, IsTemporalScore, IsEnvironmentalScore};
ghost use Rattle.cvss_vector.specs.v3.VectorWeights.{weights_of};
ghost use Rattle.cvss_base.specs.SeverityScale.{severity_of_score};

use crate::v3::vector::Vector;
use cvss_base::Severity;
use cvss_score::v3::Score;
use cvss_score::v3::rounding::is_certain;
use cvss_score::v3::score::of_tenths;

impl Vector {
    /// The base score (v3.1 specification, section 7.1; v3.0 specification, section 8.1).
    pub fn score(&self) -> Score
        ensures value { IsBaseScore self.now.minor_version (weights_of self.now) result }
        ensures range { IsInTenths IsFromZeroToTen result }
    {
        self.base_score()
    }

    /// The base score (v3.1 specification, section 7.1; v3.0 specification, section 8.1).
    pub fn base_score(&self) -> Score
        ensures value { IsBaseScore self.now.minor_version (weights_of self.now) result }
        ensures range { IsInTenths IsFromZeroToTen result }
    {
        of_tenths(u64::from(self.tenths()))
    }

    /// The base score in tenths, from 0 to 100 (v3.1 specification, section 7.1; v3.0 specification,
    /// section 8.1).
    #[inline(always)]
    pub fn tenths(&self) -> u8
        ensures value { IsBaseScore self.now.minor_version (weights_of self.now)
            (pos result *ℤ pos (10 ^ 23)) }
        ensures to_ten { result ≤ 100 }
    {
        self.inlined_weights().base(self.minor_version) as u8
    }

    /// The temporal score (v3.1 specification, section 7.2; v3.0 specification, section 8.2).
    pub fn temporal_score(&self) -> Score
        ensures value { IsTemporalScore self.now.minor_version (weights_of self.now) result }
        ensures range { IsInTenths IsFromZeroToTen result }
    {
        of_tenths(u64::from(self.temporal_tenths()))
    }

    /// The temporal score in tenths, from 0 to 100 (v3.1 specification, section 7.2; v3.0
    /// specification, section 8.2).
    pub fn temporal_tenths(&self) -> u8
        ensures value { IsTemporalScore self.now.minor_version (weights_of self.now)
            (pos result *ℤ pos (10 ^ 23)) }
        ensures to_ten { result ≤ 100 }
    {
        let weights = self.weights();
        weights.times_temporal(weights.base(self.minor_version), self.minor_version) as u8
    }

    /// The environmental score (v3.1 specification, section 7.3; v3.0 specification, section 8.3).
    pub fn environmental_score(&self) -> Score
        ensures value { IsEnvironmentalScore self.now.minor_version (weights_of self.now) result }
        ensures range { IsInTenths IsFromZeroToTen result }
    {
        of_tenths(u64::from(self.environmental_tenths()))
    }

    /// The environmental score in tenths, from 0 to 100 (v3.1 specification, section 7.3; v3.0
    /// specification, section 8.3).
    pub fn environmental_tenths(&self) -> u8
        ensures value { IsEnvironmentalScore self.now.minor_version (weights_of self.now)
            (pos result *ℤ pos (10 ^ 23)) }
        ensures to_ten { result ≤ 100 }
    {
        let weights = self.weights();
        let first = weights.environmental_first(self.minor_version);
        weights.times_temporal(first, self.minor_version) as u8
    }

    /// The base score, the temporal and the environmental one in tenths, as above, from weights that are
    /// looked up once.
    pub fn all_tenths(&self) -> (u8, u8, u8)
        ensures base { IsBaseScore self.now.minor_version (weights_of self.now)
            (pos result.0 *ℤ pos (10 ^ 23)) }
        ensures temporal { IsTemporalScore self.now.minor_version (weights_of self.now)
            (pos result.1 *ℤ pos (10 ^ 23)) }
        ensures environmental { IsEnvironmentalScore self.now.minor_version (weights_of self.now)
            (pos result.2 *ℤ pos (10 ^ 23)) }
        ensures base_to_ten { result.0 ≤ 100 }
        ensures temporal_to_ten { result.1 ≤ 100 }
        ensures environmental_to_ten { result.2 ≤ 100 }
    {
        let weights = self.weights();
        let base = weights.base(self.minor_version);
        let temporal = weights.times_temporal(base, self.minor_version);
        let first = weights.environmental_first(self.minor_version);
        let environmental = weights.times_temporal(first, self.minor_version);
        (base as u8, temporal as u8, environmental as u8)
    }

    /// The exploitability sub-score, which is exact (v3.1 specification, section 7.1).
    pub fn exploitability(&self) -> Score
        ensures value { of_count result ≈ exploitability (weights_of self.now) }
        ensures limit { IsWithinLimit result }
    {
        Score::new(self.weights().exploitability())
    }

    /// ISS, the impact sub-score of the base metrics, which is exact (v3.1 specification, section
    /// 7.1). It is not yet multiplied by the scope's factor.
    pub fn impact(&self) -> Score
        ensures value { of_count result ≈ iss (weights_of self.now) }
        ensures limit { IsWithinLimit result }
    {
        Score::new(self.weights().iss())
    }

    /// The rating of the base score (v3.1 specification, section 5).
    pub fn severity(&self) -> Severity
        ensures { (count : ℤ) → IsBaseScore self.now.minor_version (weights_of self.now) count
            → result ≡ severity_of_score count }
    {
        self.base_score().severity()
    }

    /// Whether, with impact, an error of 10^-6 in the number that the base score is the rounding of
    /// leaves the score as it is, as long as the number stays at most 10: it always does (v3.1
    /// specification, Appendix A, on numbers that are computed in floating point).
    pub fn base_is_certain(&self) -> bool
        ensures always { IsTrue result }
        ensures certain { IsTrue result
            → whole 0 ⊏ impact (weights_of self.now)
            → IsCertain self.now.minor_version (base_number (weights_of self.now)) }
    {
        is_certain()
    }

    /// Whether, with modified impact, an error of 10^-6 in the number that the environmental score is
    /// first the rounding of leaves that rounding as it is, as long as the number stays at most 10: it
    /// always does. Of the product with E, RL and RC, which is rounded then, nothing is said, as of
    /// the temporal score.
    pub fn environmental_is_certain(&self) -> bool
        ensures always { IsTrue result }
        ensures certain { IsTrue result
            → whole 0 ⊏ modified_impact self.now.minor_version (weights_of self.now)
            → IsCertain self.now.minor_version
            (environmental_number self.now.minor_version (weights_of self.now)) }
    {
        is_certain()
    }
}
