//! The sub-scores of weights, in counts of 10^-24.

ghost use Rattle.cvss_base.specs.Exact.{of_count, ◌≈◌, IsWithinLimit};
ghost use Rattle.cvss_score.specs.v3.Scores.{iss, impact, exploitability, miss};
ghost use Rattle.cvss_score.specs.v3.private.Near.{Approximates};
ghost use Rattle.cvss_score.specs.v3.Bounds.{AreBounded, AreOfTables};

use crate::v3::{Exponent, Weights};

/// 10^-6 in counts of 10^-24.
const MILLIONTH: i128 = 1_000_000_000_000_000_000;

impl Weights {
    /// ISS, which is exact.
    pub fn iss(&self) -> i128
        requires tables { AreOfTables self.now }
        requires bounded { AreBounded self.now }
        ensures value { of_count result ≈ iss self.now }
        ensures limit { IsWithinLimit result }
    {
        i128::from(self.base_parts().sub_score) * MILLIONTH
    }

    /// Exploitability, which is exact.
    pub fn exploitability(&self) -> i128
        requires tables { AreOfTables self.now }
        requires bounded { AreBounded self.now }
        ensures value { of_count result ≈ exploitability self.now }
        ensures limit { IsWithinLimit result }
    {
        i128::from(self.base_parts().exploitability) * 100_000_000_000_000
    }

    /// Impact.
    pub fn impact(&self) -> i128
        requires tables { AreOfTables self.now }
        requires bounded { AreBounded self.now }
        ensures near { Approximates self.now.changed (of_count result) (impact self.now) }
        ensures limit { IsWithinLimit result }
    {
        i128::from(self.base_parts().signed_impact(Exponent::Fifteen)) * 10_000_000_000_000
    }

    /// MISS, which is exact.
    pub fn miss(&self) -> i128
        requires tables { AreOfTables self.now }
        requires bounded { AreBounded self.now }
        ensures value { of_count result ≈ miss self.now }
        ensures limit { IsWithinLimit result }
    {
        i128::from(self.modified_parts().sub_score) * MILLIONTH
    }
}
