//! The base score in numbers of 64 bits (guide, section 3.2.1). `equations` has it of any impact.

ghost use Rattle.std.specs.Prelude.{◌*◌, ◌^◌, ◌≤◌, ◌≤ℤ◌, pos, neg_ℤ};
ghost use Rattle.cvss_base.specs.Exact.{ratio, ◌≈◌};
ghost use Rattle.cvss_base.specs.Rounding.{IsRoundedV2};
ghost use Rattle.cvss_score.specs.v2.Scores.{impact, exploitability, base_number, IsBase};
ghost use Rattle.cvss_score.specs.v2.Bounds.{AreBounded, IsOnScale, IsOnScaleOf};

use crate::v2::Weights;

impl Weights {
    /// Impact in 10^-11.
    #[inline(always)]
    pub fn impact(&self) -> u64
        requires { AreBounded self.now }
        ensures value { ratio (pos result) (10 ^ 11) ≈ impact self.now }
        ensures bound { result ≤ 10_001 * 10 ^ 8 }
    {
        (1_000_000_000 - (1000 - self.c) * (1000 - self.i) * (1000 - self.a)) * 1041
    }

    /// Exploitability in 10^-9.
    #[inline(always)]
    pub fn exploitability(&self) -> u64
        requires { AreBounded self.now }
        ensures value { ratio (pos result) (10 ^ 9) ≈ exploitability self.now }
        ensures bound { result ≤ 10 ^ 10 }
    {
        self.av * self.ac * self.au * 20
    }

    /// What the base score is the rounding of, in 10^-15.
    #[inline(always)]
    pub fn base_number(&self) -> i64
        requires { AreBounded self.now }
        ensures value { ratio result (10 ^ 15)
            ≈ base_number (impact self.now) (exploitability self.now) }
        ensures on_scale { IsOnScaleOf (10 ^ 14) result }
    {
        number(self.impact(), self.exploitability())
    }

    /// The base score in tenths, which may be below 0.
    #[inline(always)]
    pub fn base(&self) -> i64
        requires { AreBounded self.now }
        ensures value { IsBase self.now (impact self.now) result }
        ensures on_scale { IsOnScale result }
    {
        rounded(self.base_number())
    }
}

/// f(Impact) in thousandths, where Impact is not 0.
const FACTOR: u64 = 1176;

/// What the base score is the rounding of in 10^-15, of an impact in 10^-11 and an exploitability
/// in 10^-9.
#[inline(always)]
fn number(impact: u64, exploitability: u64) -> i64
    requires impact { impact ≤ 10_001 * 10 ^ 8 }
    requires exploitability { exploitability ≤ 10 ^ 10 }
    ensures value { ratio result (10 ^ 15) ≈ base_number (ratio (pos impact) (10 ^ 11))
        (ratio (pos exploitability) (10 ^ 9)) }
    ensures on_scale { IsOnScaleOf (10 ^ 14) result }
{
    if impact == 0 {
        return 0;
    }
    let sum = (6 * impact + 400 * exploitability) as i64;
    (sum - 1_500_000_000_000) * FACTOR as i64
}

/// The v2 rounding to tenths, of a number of 10^-15.
fn rounded(number: i64) -> i64
    requires low { neg_ℤ (pos (10 ^ 17)) ≤ℤ number }
    requires high { number ≤ℤ pos (10 ^ 17) }
    ensures { IsRoundedV2 (ratio number (10 ^ 15)) result }
{
    let lifted = number + 1_000_000_000;
    let tenths = ((lifted.unsigned_abs() + HALF_TENTH) / (2 * HALF_TENTH)) as i64;
    if lifted < 0 { -tenths } else { tenths }
}

/// Half of a tenth in 10^-15.
const HALF_TENTH: u64 = 50_000_000_000_000;
