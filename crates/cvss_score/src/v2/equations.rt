//! The equations of the guide in whole numbers, exact except for a rounding at the end of each score.

ghost use Rattle.std.specs.Prelude.{◌≡◌, ◌*◌, ◌^◌, ◌≤◌, ◌≤ℤ◌, ◌+ℤ◌, ◌-ℤ◌, ◌*ℤ◌, ◌/◌, ◌<◌, pos, neg_ℤ};
ghost use Rattle.cvss_base.specs.Exact.{Exact, ratio, ◌over◌, whole, thousandths, tenths, of_count, ◌≈◌, smaller, IsWithinLimit};
ghost use Rattle.cvss_base.specs.Rounding.{IsRoundedV2};
ghost use Rattle.cvss_score.specs.v2.Scores.{impact, adjusted_impact, impact_of, temporal_number, environmental_number, IsBase, IsTemporal, IsEnvironmental};
ghost use Rattle.cvss_score.specs.v2.Bounds.{AreBounded, IsImpactCount, IsOnScale, IsOnScaleOf};

use crate::v2::Weights;
use cvss_base::ONE;

impl Weights {
    /// Adjusted impact in 10^-24.
    pub fn adjusted_impact(&self) -> i128
        requires { AreBounded self.now }
        ensures value { of_count result ≈ adjusted_impact self.now }
        ensures bound { IsImpactCount result }
    {
        adjusted_impact_count(self.c * self.cr, self.i * self.ir, self.a * self.ar)
    }

    /// The base score in tenths with an impact in 10^-24 in the place of the vector's own.
    pub fn base_of(&self, impact: i128) -> i64
        requires bounded { AreBounded self.now }
        requires impact { IsWithinLimit impact }
        ensures value { (exact : Exact) → 0 < exact.bottom → of_count impact ≈ exact
            → IsBase self.now exact result }
        ensures low { neg_ℤ (pos (10 ^ 7)) ≤ℤ result }
        ensures high { result ≤ℤ pos (10 ^ 7) }
        ensures on_scale { IsImpactCount impact → IsOnScale result }
    {
        if impact == 0 {
            return 0;
        }
        let exploitability = i128::from(self.exploitability()) * 1_000_000_000_000_000;
        round_tenths(base_number(impact, exploitability))
    }

    /// The base score in tenths with the adjusted impact.
    pub fn adjusted_base(&self) -> i64
        requires { AreBounded self.now }
        ensures value { IsBase self.now (adjusted_impact self.now) result }
        ensures on_scale { IsOnScale result }
    {
        self.base_of(self.adjusted_impact())
    }

    /// What the temporal score is the rounding of in 10^-10, of a base score in tenths.
    pub fn temporal_number(&self, base: i64) -> i64
        requires bounded { AreBounded self.now }
        requires low { neg_ℤ (pos (10 ^ 7)) ≤ℤ base }
        requires high { base ≤ℤ pos (10 ^ 7) }
        ensures value { ratio result (10 ^ 10) ≈ temporal_number (tenths base)
            (thousandths self.now.e) (thousandths self.now.rl) (thousandths self.now.rc) }
        ensures low { neg_ℤ (pos (10 ^ 16)) ≤ℤ result }
        ensures high { result ≤ℤ pos (10 ^ 16) }
        ensures on_scale { IsOnScale base → IsOnScaleOf (10 ^ 9) result }
    {
        weighted(base, product(self.e, self.rl, self.rc))
    }

    /// The temporal score in tenths, of a base score in tenths.
    pub fn temporal_of(&self, base: i64) -> i64
        requires bounded { AreBounded self.now }
        requires low { neg_ℤ (pos (10 ^ 7)) ≤ℤ base }
        requires high { base ≤ℤ pos (10 ^ 7) }
        ensures value { (impact : Exact) → IsBase self.now impact base
            → IsTemporal self.now impact result }
        ensures low { neg_ℤ (pos (10 ^ 7)) ≤ℤ result }
        ensures high { result ≤ℤ pos (10 ^ 7) }
        ensures on_scale { IsOnScale base → IsOnScale result }
    {
        round_tenths(i128::from(self.temporal_number(base)) * 1_000_000_000_000_000_000)
    }

    /// The temporal score in tenths, which may be below 0.
    pub fn temporal(&self) -> i64
        requires { AreBounded self.now }
        ensures value { IsTemporal self.now (impact self.now) result }
        ensures on_scale { IsOnScale result }
    {
        self.temporal_of(self.base())
    }

    /// AdjustedTemporal in tenths.
    pub fn adjusted_temporal(&self) -> i64
        requires { AreBounded self.now }
        ensures value { IsTemporal self.now (adjusted_impact self.now) result }
        ensures on_scale { IsOnScale result }
    {
        self.temporal_of(self.adjusted_base())
    }

    /// What the environmental score is the rounding of in 10^-7, of AdjustedTemporal in tenths.
    pub fn environmental_number(&self, temporal: i64) -> i64
        requires bounded { AreBounded self.now }
        requires temporal { IsOnScale temporal }
        ensures value { ratio result (10 ^ 7) ≈ environmental_number (tenths temporal)
            (thousandths self.now.cdp) (thousandths self.now.td) }
        ensures on_scale { IsOnScaleOf (10 ^ 6) result }
    {
        let undamaged = weighted(temporal, product(1000 - self.cdp, self.td, 1));
        let damaged = product(100, self.cdp, self.td) as i64;
        undamaged + damaged
    }

    /// The environmental score in tenths, which may be below 0.
    pub fn environmental(&self) -> i64
        requires { AreBounded self.now }
        ensures value { IsEnvironmental self.now result }
        ensures on_scale { IsOnScale result }
    {
        let number = self.environmental_number(self.adjusted_temporal());
        round_tenths(i128::from(number) * 1_000_000_000_000_000_000_000)
    }
}

/// Impact in 10^-24, of three weights in millionths.
fn impact_count(c: u64, i: u64, a: u64) -> i128
    requires c { c ≤ 1_000_000 }
    requires i { i ≤ 1_000_000 }
    requires a { a ≤ 1_000_000 }
    ensures value { of_count result ≈ impact_of (c over 1_000_000) (i over 1_000_000) (a over 1_000_000) }
    ensures low { pos 0 ≤ℤ result }
{
    let rests = (1_000_000 - c) * (1_000_000 - i) * (1_000_000 - a);
    (1_000_000_000_000_000_000 - rests) as i128 * 10_410_000
}

/// Adjusted impact in 10^-24, of three weights times their requirements in millionths.
fn adjusted_impact_count(c: u64, i: u64, a: u64) -> i128
    requires c { c ≤ 1_000_000 }
    requires i { i ≤ 1_000_000 }
    requires a { a ≤ 1_000_000 }
    ensures value { of_count result
        ≈ smaller (whole 10) (impact_of (c over 1_000_000) (i over 1_000_000) (a over 1_000_000)) }
    ensures bound { IsImpactCount result }
{
    impact_count(c, i, a).min(10 * ONE)
}

/// What the base score is the rounding of in 10^-28, of an impact that is not 0.
fn base_number(impact: i128, exploitability: i128) -> i128
    requires impact { IsWithinLimit impact }
    requires from_zero { pos 0 ≤ℤ exploitability }
    requires to_ten { exploitability ≤ℤ pos (10 ^ 25) }
    ensures value { result ≡ (pos 6 *ℤ impact +ℤ pos 4 *ℤ exploitability
        -ℤ pos (15 * 10 ^ 24)) *ℤ pos 1176 }
    ensures low { neg_ℤ (pos (10 ^ 34)) ≤ℤ result }
    ensures high { result ≤ℤ pos (10 ^ 34) }
    ensures on_scale { IsImpactCount impact → IsOnScaleOf (10 ^ 27) result }
{
    (6 * impact + 4 * exploitability - 15 * ONE) * 1176
}

/// The product of three weights.
fn product(first: u64, second: u64, third: u64) -> u64
    requires first { first ≤ 1000 }
    requires second { second ≤ 1000 }
    requires third { third ≤ 1000 }
    ensures value { result ≡ first * second * third }
    ensures bound { result ≤ 10 ^ 9 }
{
    first * second * third
}

/// A number times a product of weights.
fn weighted(number: i64, weights: u64) -> i64
    requires low { neg_ℤ (pos (10 ^ 7)) ≤ℤ number }
    requires high { number ≤ℤ pos (10 ^ 7) }
    requires weights { weights ≤ 10 ^ 9 }
    ensures value { result ≡ number *ℤ pos weights }
    ensures low { neg_ℤ (pos (10 ^ 16)) ≤ℤ result }
    ensures high { result ≤ℤ pos (10 ^ 16) }
{
    number * weights as i64
}

/// The v2 rounding to tenths, of a number of 10^-28.
#[tactic(auto, using(crate::proofs::v2_lemmas::CountLemmas::rounded_low, crate::proofs::v2_lemmas::CountLemmas::rounded_high))]
pub(crate) fn round_tenths(number: i128) -> i64
    requires low { neg_ℤ (pos (10 ^ 34)) ≤ℤ number }
    requires high { number ≤ℤ pos (10 ^ 34) }
    ensures value { IsRoundedV2 (ratio number (10 ^ 28)) result }
    ensures low { neg_ℤ (pos (10 ^ 7)) ≤ℤ result }
    ensures high { result ≤ℤ pos (10 ^ 7) }
    ensures on_scale { IsOnScaleOf (10 ^ 27) number → IsOnScale result }
{
    rounded(number)
}

fn rounded(number: i128) -> i64
    requires low { neg_ℤ (pos (10 ^ 34)) ≤ℤ number }
    requires high { number ≤ℤ pos (10 ^ 34) }
    ensures { IsRoundedV2 (ratio number (10 ^ 28)) result }
{
    let lifted = number + 10_000_000_000_000_000_000_000;
    let tenths = whole_tenths(lifted.unsigned_abs() + HALF_TENTH) as i64;
    if lifted < 0 { -tenths } else { tenths }
}

/// The whole tenths in a number of 10^-28.
fn whole_tenths(number: u128) -> u64
    requires { number < 10 ^ 36 }
    ensures { result ≡ number / 10 ^ 27 }
{
    // A tenth is 2^27 * 5^13 * 5^14, whose factors divide in 64 bits.
    by_five_to_13(number >> 27) / FIVE_TO_14
}

/// The quotient by 5^13, from the halves of the number.
fn by_five_to_13(number: u128) -> u64
    requires { number < 2 ^ 93 }
    ensures { result ≡ number / 5 ^ 13 }
{
    let high = (number >> 32) as u64;
    let low = (number & 0xffff_ffff) as u64;
    let rest = ((high % FIVE_TO_13) << 32) + low;
    ((high / FIVE_TO_13) << 32) + rest / FIVE_TO_13
}

/// Half of a tenth in 10^-28.
const HALF_TENTH: u128 = 500_000_000_000_000_000_000_000_000;

const FIVE_TO_13: u64 = 1_220_703_125;

const FIVE_TO_14: u64 = 6_103_515_625;
