//! The steps to the scores of CVSS v3 (v3.1 specification, section 7; v3.0 specification, section 8).

ghost use Rattle.std.specs.Prelude.{◌≡◌, ◌≤◌, pos};
ghost use Rattle.cvss_base.specs.Exact.{IsWithinLimit, of_count, ◌≈◌};
ghost use Rattle.cvss_explain.specs.Steps.{AreSteps};
ghost use Rattle.cvss_explain.specs.V3.{AreStepsOf, IsFirst, base_steps, environmental_steps, temporal_steps};
ghost use Rattle.cvss_score.specs.v3.Bounds.{AreBounded, AreOfTables};
ghost use Rattle.cvss_score.specs.v3.Scores.{IsBase, modified_exploitability, modified_impact};
ghost use Rattle.cvss_score.specs.v3.private.Near.{Approximates};

use crate::step::{Quantity, Step};
use cvss_score::v3::{Exponent, Weights};
use cvss_vector::Bounds;

/// The steps to each score of a vector.
#[derive(Drop)]
pub struct Steps {
    pub base: [Step; 5],
    pub temporal: [Step; 2],
    pub environmental: [Step; 7],
}

impl Steps {
    /// The steps to each score of a vector with these weights.
    pub fn of(weights: &Weights, minor_version: usize) -> Steps
        requires tables { AreOfTables weights.now }
        requires bounded { AreBounded weights.now }
        ensures { AreStepsOf minor_version weights.now result }
    {
        let base = weights.base(minor_version);
        let first = weights.environmental_first(minor_version);
        Steps {
            base: base_steps(weights, minor_version, base),
            temporal: temporal_steps(weights, minor_version, base),
            environmental: environmental_steps(weights, minor_version, first),
        }
    }
}

fn base_steps(weights: &Weights, minor: usize, base: u64) -> [Step; 5]
    requires tables { AreOfTables weights.now }
    requires bounded { AreBounded weights.now }
    requires base { IsBase minor weights.now (pos base) }
    requires to_ten { base ≤ 100 }
    ensures { AreSteps (base_steps minor weights.now) result }
{
    [
        Step::nearest(Quantity::Iss, weights.iss()),
        Step::nearest(Quantity::Impact, weights.impact()),
        Step::nearest(Quantity::Exploitability, weights.exploitability()),
        Step::nearest_units(Quantity::BeforeRounding, weights.base_units()),
        Step::rated(Quantity::BaseScore, Bounds::SinceV3, base),
    ]
}

fn temporal_steps(weights: &Weights, minor: usize, base: u64) -> [Step; 2]
    requires bounded { AreBounded weights.now }
    requires base { IsBase minor weights.now (pos base) }
    requires to_ten { base ≤ 100 }
    ensures { AreSteps (temporal_steps minor weights.now) result }
{
    [
        Step::exact(
            Quantity::BeforeRounding,
            weights.temporal_units(base) as i64,
        ),
        Step::rated(
            Quantity::TemporalScore,
            Bounds::SinceV3,
            weights.times_temporal(base, minor),
        ),
    ]
}

fn environmental_steps(weights: &Weights, minor: usize, first: u64) -> [Step; 7]
    requires tables { AreOfTables weights.now }
    requires bounded { AreBounded weights.now }
    requires first { IsFirst minor weights.now (pos first) }
    requires to_ten { first ≤ 100 }
    ensures { AreSteps (environmental_steps minor weights.now) result }
{
    [
        Step::nearest(Quantity::Miss, weights.miss()),
        Step::nearest(Quantity::ModifiedImpact, modified_impact(weights, minor)),
        Step::nearest(
            Quantity::ModifiedExploitability,
            modified_exploitability(weights),
        ),
        Step::nearest_units(
            Quantity::BeforeFirstRounding,
            weights.environmental_units(minor),
        ),
        Step::score(Quantity::FirstScore, first),
        Step::exact(
            Quantity::BeforeRounding,
            weights.temporal_units(first) as i64,
        ),
        Step::rated(
            Quantity::EnvironmentalScore,
            Bounds::SinceV3,
            weights.times_temporal(first, minor),
        ),
    ]
}

/// Modified Impact, in counts of 10^-24.
fn modified_impact(weights: &Weights, minor: usize) -> i128
    requires tables { AreOfTables weights.now }
    requires bounded { AreBounded weights.now }
    ensures near { Approximates weights.now.modified_changed (of_count result)
        (modified_impact minor weights.now) }
    ensures limit { IsWithinLimit result }
{
    let exponent = Exponent::modified(minor);
    let units = weights.modified_parts().signed_impact(exponent);
    i128::from(units) * 10_000_000_000_000
}

/// Modified Exploitability, in counts of 10^-24.
fn modified_exploitability(weights: &Weights) -> i128
    requires tables { AreOfTables weights.now }
    requires bounded { AreBounded weights.now }
    ensures value { of_count result ≈ modified_exploitability weights.now }
    ensures limit { IsWithinLimit result }
{
    i128::from(weights.modified_parts().exploitability) * 100_000_000_000_000
}
