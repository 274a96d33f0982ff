//! The steps on the way to a score: each has its key in an object, its title for people, and what it
//! comes to.

ghost use Rattle.std.specs.Prelude.{◌≡◌, ◌≤◌, ◌*◌, ◌*ℤ◌, ◌^◌, ◌≤ℤ◌, length, neg_ℤ, pos};
ghost use Rattle.cvss_base.specs.Exact.{IsWithinLimit};
ghost use Rattle.cvss_explain.specs.Near.{AreNearest};
ghost use Rattle.cvss_explain.specs.Steps.{IsNumber, words_of};
ghost use Rattle.cvss_explain.specs.declared.step.Amount.TheVariants.{Rated, Score};

use crate::decimal::ten_millionths;
use cvss_vector::Bounds;

/// A number or a score of the equations of CVSS v2 (guide, section 3.2) or v3 (v3.1 specification, section
/// 7; v3.0 specification, section 8).
#[derive(Clone, Copy)]
pub enum Quantity {
    Iss,
    Impact,
    Exploitability,
    /// f(Impact) of CVSS v2.
    Factor,
    /// What the score of a group of metrics is the rounding of.
    BeforeRounding,
    BaseScore,
    TemporalScore,
    Miss,
    ModifiedImpact,
    ModifiedExploitability,
    /// What the environmental score of CVSS v3 is first the rounding of.
    BeforeFirstRounding,
    /// The inner rounding of the environmental score of CVSS v3.
    FirstScore,
    AdjustedImpact,
    AdjustedBase,
    AdjustedTemporal,
    EnvironmentalScore,
}

impl Quantity {
    /// The key in an object and the title for people.
    pub fn words(self) -> (&'static str, &'static str)
        ensures key { result.0.now ≡ (words_of self).0 }
        ensures title { result.1.now ≡ (words_of self).1 }
        ensures short { length result.0.now ≤ 22 }
    {
        match self {
            Quantity::Iss => ("iss", "Impact sub-score (ISS)"),
            Quantity::Impact => ("impact", "Impact"),
            Quantity::Exploitability => ("exploitability", "Exploitability"),
            Quantity::Factor => ("f", "f(Impact)"),
            Quantity::BeforeRounding => ("number", "Before rounding"),
            Quantity::BaseScore => ("score", "Base score"),
            Quantity::TemporalScore => ("score", "Temporal score"),
            Quantity::Miss => ("miss", "Modified impact sub-score (MISS)"),
            Quantity::ModifiedImpact => ("modifiedImpact", "Modified impact"),
            Quantity::ModifiedExploitability => {
                ("modifiedExploitability", "Modified exploitability")
            }
            Quantity::BeforeFirstRounding => ("firstNumber", "Before the first rounding"),
            Quantity::FirstScore => ("firstScore", "After the first rounding"),
            Quantity::AdjustedImpact => ("adjustedImpact", "Adjusted impact"),
            Quantity::AdjustedBase => ("adjustedBase", "Adjusted base score"),
            Quantity::AdjustedTemporal => ("adjustedTemporal", "Adjusted temporal score"),
            Quantity::EnvironmentalScore => ("score", "Environmental score"),
        }
    }
}

/// What a step comes to.
#[derive(Clone, Copy)]
pub enum Amount {
    /// So many ten-millionths.
    Number(i64),
    /// A score of so many tenths.
    Score(u8),
    /// A score of so many tenths, with its severity by such bounds.
    Rated(Bounds, u8),
}

/// A step.
#[derive(Clone, Copy)]
pub struct Step {
    pub quantity: Quantity,
    pub amount: Amount,
}

impl Step {
    /// The ten-millionths that are nearest to a count of 10^-24.
    pub(crate) fn nearest(quantity: Quantity, count: i128) -> Step
        requires { IsWithinLimit count }
        ensures { IsNumber quantity (AreNearest count) result }
    {
        Step::exact(quantity, ten_millionths(count))
    }

    /// The ten-millionths that are nearest to a number of 10^-13.
    pub(crate) fn nearest_units(quantity: Quantity, units: u64) -> Step
        requires { units ≤ 10 ^ 14 }
        ensures { IsNumber quantity (AreNearest (pos (units * 10 ^ 11))) result }
    {
        Step::exact(
            quantity,
            ten_millionths(i128::from(units) * 100_000_000_000),
        )
    }

    /// So many tenths, as a number.
    pub(crate) fn tenths(quantity: Quantity, tenths: i64) -> Step
        requires low { neg_ℤ (pos 100) ≤ℤ tenths }
        requires high { tenths ≤ℤ pos 100 }
        ensures { IsNumber quantity (λ count. count ≡ tenths *ℤ pos 1_000_000) result }
    {
        Step::exact(quantity, tenths * 1_000_000)
    }

    /// So many ten-millionths.
    pub(crate) fn exact(quantity: Quantity, count: i64) -> Step
        ensures { IsNumber quantity (λ number. number ≡ count) result }
    {
        let amount = Amount::Number(count);
        Step { quantity, amount }
    }

    /// A score of so many tenths.
    pub(crate) fn score(quantity: Quantity, tenths: u64) -> Step
        requires { tenths ≤ 100 }
        ensures { result ≡ record { quantity = quantity; amount = Score tenths } }
    {
        let amount = Amount::Score(tenths as u8);
        Step { quantity, amount }
    }

    /// A score of so many tenths, with its severity by such bounds.
    pub(crate) fn rated(quantity: Quantity, bounds: Bounds, tenths: u64) -> Step
        requires { tenths ≤ 100 }
        ensures { result ≡ record { quantity = quantity; amount = Rated bounds tenths } }
    {
        let amount = Amount::Rated(bounds, tenths as u8);
        Step { quantity, amount }
    }
}
