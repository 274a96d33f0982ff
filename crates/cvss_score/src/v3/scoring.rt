//! The scores of weights, in tenths.

ghost use Rattle.std.specs.Prelude.{◌≡◌, ◌≤◌, ◌*◌, ◌^◌, ℕ, pos};
ghost use Rattle.cvss_base.specs.Exact.{◌over◌, ◌≈◌};
ghost use Rattle.cvss_score.specs.v3.Scores.{base_number, environmental_number, temporal_number, IsRounded, IsBase};
ghost use Rattle.cvss_score.specs.v3.private.Near.{StandsFor};
ghost use Rattle.cvss_score.specs.v3.private.Units.{ArePossible, base_parts, modified_parts};
ghost use Rattle.cvss_score.specs.v3.Bounds.{AreBounded, AreOfTables};

use crate::v3::equations::{Parts, exploitability, first_number, sub_score, temporal, weighted};
use crate::v3::rounding::round_tenths;
use crate::v3::{Exponent, Rules, Weights};

impl Weights {
    /// The parts of what the base score is the rounding of.
    #[inline(always)]
    pub(super) fn base_parts(&self) -> Parts
        requires tables { AreOfTables self.now }
        requires bounded { AreBounded self.now }
        ensures value { result ≡ base_parts self.now }
        ensures possible { ArePossible result }
        ensures sub_score { result.sub_score ≤ 1_000_000 }
        ensures exploitability { result.exploitability ≤ 822 * 10 ^ 8 }
    {
        Parts {
            sub_score: sub_score(self.c, self.i, self.a),
            exploitability: exploitability(self.av, self.ac, self.pr, self.ui),
            changed: self.changed,
        }
    }

    /// The parts of what the environmental score is first the rounding of.
    #[inline(never)]
    pub fn modified_parts(&self) -> Parts
        requires tables { AreOfTables self.now }
        requires bounded { AreBounded self.now }
        ensures value { result ≡ modified_parts self.now }
        ensures possible { ArePossible result }
        ensures sub_score { result.sub_score ≤ 1_000_000 }
        ensures exploitability { result.exploitability ≤ 822 * 10 ^ 8 }
    {
        let c = weighted(self.cr, self.mc);
        let i = weighted(self.ir, self.mi);
        let a = weighted(self.ar, self.ma);
        Parts {
            sub_score: sub_score(c, i, a).min(915_000),
            exploitability: exploitability(self.mav, self.mac, self.mpr, self.mui),
            changed: self.modified_changed,
        }
    }

    /// A number of 10^-13 that stands for the first number of the base score.
    #[inline(always)]
    pub fn base_units(&self) -> u64
        requires tables { AreOfTables self.now }
        requires bounded { AreBounded self.now }
        ensures value { (minor : ℕ) → StandsFor minor self.now.changed (result over (10 ^ 13))
            (base_number self.now) }
        ensures to_ten { result ≤ 10 ^ 14 }
    {
        first_number(self.base_parts(), Exponent::Fifteen)
    }

    /// A number of 10^-13 that stands for the first number of the environmental score.
    #[inline(never)]
    pub fn environmental_units(&self, minor_version: usize) -> u64
        requires tables { AreOfTables self.now }
        requires bounded { AreBounded self.now }
        ensures value { (minor : ℕ) → StandsFor minor self.now.modified_changed
            (result over (10 ^ 13)) (environmental_number minor_version self.now) }
        ensures to_ten { result ≤ 10 ^ 14 }
    {
        first_number(self.modified_parts(), Exponent::modified(minor_version))
    }

    /// The base score in tenths.
    #[inline(always)]
    pub fn base(&self, minor_version: usize) -> u64
        requires tables { AreOfTables self.now }
        requires bounded { AreBounded self.now }
        ensures value { IsBase minor_version self.now (pos result) }
        ensures to_ten { result ≤ 100 }
    {
        round_tenths(self.base_units(), Rules::of(minor_version))
    }

    /// The first rounding of the environmental score, in tenths.
    #[inline(never)]
    pub fn environmental_first(&self, minor_version: usize) -> u64
        requires tables { AreOfTables self.now }
        requires bounded { AreBounded self.now }
        ensures value { IsRounded minor_version (environmental_number minor_version self.now)
            (pos result) }
        ensures to_ten { result ≤ 100 }
    {
        round_tenths(
            self.environmental_units(minor_version),
            Rules::of(minor_version),
        )
    }

    /// So many tenths times E, RL and RC, in 10^-7.
    #[inline(never)]
    pub fn temporal_units(&self, tenths: u64) -> u64
        requires bounded { AreBounded self.now }
        requires tenths { tenths ≤ 100 }
        ensures value { result over (10 ^ 7) ≈ temporal_number (pos tenths) self.now }
        ensures to_ten { result ≤ 10 ^ 8 }
    {
        temporal(tenths, self.e, self.rl, self.rc)
    }

    /// So many tenths times E, RL and RC, rounded to tenths.
    pub fn times_temporal(&self, tenths: u64, minor_version: usize) -> u64
        requires bounded { AreBounded self.now }
        requires tenths { tenths ≤ 100 }
        ensures value { IsRounded minor_version (temporal_number (pos tenths) self.now) (pos result) }
        ensures to_ten { result ≤ 100 }
    {
        let product = self.temporal_units(tenths) * 1_000_000;
        round_tenths(product, Rules::of(minor_version))
    }
}
