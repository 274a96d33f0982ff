//! The score of effective values (v4.0 specification, section 8.2).

ghost use Rattle.std.specs.Prelude.{◌≡◌, ◌-◌, ◌*◌, ◌/◌, ◌≤◌, pos, max, IsTrue};
ghost use Rattle.cvss_base.specs.Exact.{◌over◌, ◌≈◌};
ghost use Rattle.cvss_base.specs.Rounding.{IsRoundedV4};
ghost use Rattle.cvss_score.specs.v4.Scores.{has_impact, mean, proportions, IsScore};

use crate::v4::scoring::classified::Classified;
use crate::v4::scoring::effective::{Effective, SafetyImpact, SubsequentImpact, VulnerableImpact};
use crate::v4::scoring::shares::{eq1_terms, eq2_terms, eq3_eq6_terms, eq4_terms, eq5_terms};

/// A tenth of a point, in 504000ths of one.
const TENTH: u32 = 50_400;

/// The score of effective values in tenths: the value of their class less the mean of what the
/// groups with a next lower class take, rounded half up, and 0 without impact.
pub fn score_tenths(effective: &Effective) -> u8
    ensures value { IsScore effective.now (pos result) }
    ensures range { result ≤ 100 }
    ensures with_impact { IsTrue (has_impact effective.now) → 1 ≤ result }
{
    if !has_impact(effective) {
        return 0;
    }
    let values = Classified::of(effective);
    rounded(less_mean(values.value, mean_taken(&values)))
}

/// The mean of what the groups with a next lower class take, in 504000ths of a point.
#[inline(always)]
pub(super) fn mean_taken(values: &Classified) -> u32
    ensures value { result over 504_000 ≈ mean (proportions values.now.effective) }
    ensures bound { result ≤ 50_400 * (values.now.value - 1) }
{
    let eq1 = eq1_terms(values).share(values.value);
    let eq2 = eq2_terms(values).share(values.value);
    let eq3_eq6 = eq3_eq6_terms(values).share(values.value);
    let eq4 = eq4_terms(values).share(values.value);
    let eq5 = eq5_terms(values).share(values.value);
    let taken = eq1.taken + eq2.taken + eq3_eq6.taken + eq4.taken + eq5.taken;
    let counted = eq1.counted + eq2.counted + eq3_eq6.counted + eq4.counted + eq5.counted;
    taken * sixty_by(counted)
}

/// A value in tenths less a mean, in 504000ths of a point.
#[inline(always)]
pub(super) fn less_mean(value: u8, mean: u32) -> u32
    requires some { 1 ≤ value }
    requires value { value ≤ 100 }
    requires mean { mean ≤ 50_400 * (value - 1) }
    ensures value { result ≡ 50_400 * value - mean }
    ensures some { 50_400 ≤ result }
    ensures range { result ≤ 5_040_000 }
{
    value as u32 * TENTH - mean
}

/// A number of 504000ths of a point, rounded to tenths.
#[inline(always)]
fn rounded(number: u32) -> u8
    requires some { 50_400 ≤ number }
    requires range { number ≤ 5_040_000 }
    ensures value { IsRoundedV4 (number over 504_000) (pos result) }
    ensures range { result ≤ 100 }
    ensures some { 1 ≤ result }
    // 1.45, a tie, which goes up: as a binary number 8.6 - 7.15 is below it.
    ensures tie { number ≡ 145 * 5_040 → result ≡ 15 }
{
    ((number + TENTH / 2) / TENTH) as u8
}

/// 60 divided by how many groups count, where one does.
#[inline(always)]
fn sixty_by(counted: u32) -> u32
    requires { counted ≤ 5 }
    ensures { result ≡ 60 / max counted 1 }
{
    match counted {
        0 | 1 => 60,
        2 => 30,
        3 => 20,
        4 => 15,
        _ => 12,
    }
}

/// Whether one of the six impacts is not None.
#[inline(always)]
pub(super) fn has_impact(effective: &Effective) -> bool
    ensures { result ≡ has_impact effective.now }
{
    !matches!(
        effective,
        Effective {
            vc: VulnerableImpact::None,
            vi: VulnerableImpact::None,
            va: VulnerableImpact::None,
            sc: SubsequentImpact::None,
            si: SafetyImpact::None,
            sa: SafetyImpact::None,
            ..
        }
    )
}
