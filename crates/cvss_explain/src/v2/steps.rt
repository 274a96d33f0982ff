//! The steps to the scores of CVSS v2 (guide, section 3.2).

ghost use Rattle.std.specs.Prelude.{◌≡◌, ◌≤◌, pos};
ghost use Rattle.std.specs.Int.{int_max};
ghost use Rattle.cvss_base.specs.Exact.{IsWithinLimit, of_count, tenths, thousandths, ◌≈◌};
ghost use Rattle.cvss_explain.specs.Steps.{AreSteps};
ghost use Rattle.cvss_explain.specs.V2.{AreStepsOf, base_steps, environmental_steps, temporal_steps};
ghost use Rattle.cvss_score.specs.v2.Bounds.{AreBounded, IsOnScale};
ghost use Rattle.cvss_score.specs.v2.Scores.{IsBase, IsTemporal, adjusted_impact, base_number, exploitability, f, impact, temporal_number};

use crate::step::{Quantity, Step};
use cvss_score::v2::Weights;
use cvss_vector::Bounds;

/// The steps to each score of a vector.
#[derive(Drop)]
pub struct Steps {
    pub base: [Step; 5],
    pub temporal: [Step; 2],
    pub environmental: [Step; 5],
}

impl Steps {
    /// The steps to each score of a vector with these weights.
    pub fn of(weights: &Weights) -> Steps
        requires { AreBounded weights.now }
        ensures { AreStepsOf weights.now result }
    {
        let base = weights.base();
        let adjusted = weights.adjusted_base();
        let temporal = weights.adjusted_temporal();
        Steps {
            base: base_steps(weights, base),
            temporal: temporal_steps(weights, base),
            environmental: environmental_steps(weights, adjusted, temporal),
        }
    }
}

fn base_steps(weights: &Weights, base: i64) -> [Step; 5]
    requires bounded { AreBounded weights.now }
    requires base { IsBase weights.now (impact weights.now) base }
    requires on_scale { IsOnScale base }
    ensures { AreSteps (base_steps weights.now) result }
{
    [
        Step::nearest(Quantity::Impact, impact(weights)),
        Step::nearest(Quantity::Exploitability, exploitability(weights)),
        Step::nearest(Quantity::Factor, factor(weights)),
        Step::nearest(Quantity::BeforeRounding, base_number(weights)),
        Step::rated(Quantity::BaseScore, Bounds::OfV2, raised_to_zero(base)),
    ]
}

fn temporal_steps(weights: &Weights, base: i64) -> [Step; 2]
    requires bounded { AreBounded weights.now }
    requires base { IsBase weights.now (impact weights.now) base }
    requires on_scale { IsOnScale base }
    ensures { AreSteps (temporal_steps weights.now) result }
{
    let score = weights.temporal();
    [
        Step::nearest(Quantity::BeforeRounding, temporal_number(weights, base)),
        Step::rated(Quantity::TemporalScore, Bounds::OfV2, raised_to_zero(score)),
    ]
}

fn environmental_steps(weights: &Weights, base: i64, temporal: i64) -> [Step; 5]
    requires bounded { AreBounded weights.now }
    requires base { IsBase weights.now (adjusted_impact weights.now) base }
    requires base_scale { IsOnScale base }
    requires temporal { IsTemporal weights.now (adjusted_impact weights.now) temporal }
    requires temporal_scale { IsOnScale temporal }
    ensures { AreSteps (environmental_steps weights.now) result }
{
    let score = weights.environmental();
    [
        Step::nearest(Quantity::AdjustedImpact, weights.adjusted_impact()),
        Step::tenths(Quantity::AdjustedBase, base),
        Step::tenths(Quantity::AdjustedTemporal, temporal),
        Step::exact(
            Quantity::BeforeRounding,
            weights.environmental_number(temporal),
        ),
        Step::rated(
            Quantity::EnvironmentalScore,
            Bounds::OfV2,
            raised_to_zero(score),
        ),
    ]
}

/// Impact, in counts of 10^-24.
#[tactic(auto, using(cvss_base::proofs::ExactLemmas::equal_trans))]
fn impact(weights: &Weights) -> i128
    requires { AreBounded weights.now }
    ensures value { of_count result ≈ impact weights.now }
    ensures limit { IsWithinLimit result }
{
    i128::from(weights.impact()) * 10_000_000_000_000
}

/// Exploitability, in counts of 10^-24.
#[tactic(auto, using(cvss_base::proofs::ExactLemmas::equal_trans))]
fn exploitability(weights: &Weights) -> i128
    requires { AreBounded weights.now }
    ensures value { of_count result ≈ exploitability weights.now }
    ensures limit { IsWithinLimit result }
{
    i128::from(weights.exploitability()) * 1_000_000_000_000_000
}

/// f(Impact), which is 0 without impact and else 1.176, in counts of 10^-24.
fn factor(weights: &Weights) -> i128
    requires { AreBounded weights.now }
    ensures value { of_count result ≈ f (impact weights.now) }
    ensures limit { IsWithinLimit result }
{
    if weights.impact() == 0 {
        0
    } else {
        1_176_000_000_000_000_000_000_000
    }
}

/// What the base score is the rounding of, in counts of 10^-24.
#[tactic(auto, using(cvss_base::proofs::ExactLemmas::equal_trans))]
fn base_number(weights: &Weights) -> i128
    requires { AreBounded weights.now }
    ensures value { of_count result ≈ base_number (impact weights.now) (exploitability weights.now) }
    ensures limit { IsWithinLimit result }
{
    i128::from(weights.base_number()) * 1_000_000_000
}

/// What the temporal score is the rounding of, in counts of 10^-24, of tenths of the base score.
#[tactic(auto, using(cvss_base::proofs::ExactLemmas::equal_trans))]
fn temporal_number(weights: &Weights, base: i64) -> i128
    requires bounded { AreBounded weights.now }
    requires on_scale { IsOnScale base }
    ensures value { of_count result ≈ temporal_number (tenths base) (thousandths weights.now.e)
        (thousandths weights.now.rl) (thousandths weights.now.rc) }
    ensures limit { IsWithinLimit result }
{
    i128::from(weights.temporal_number(base)) * 100_000_000_000_000
}

/// The tenths of a score, raised to 0 where they are negative.
fn raised_to_zero(tenths: i64) -> u64
    requires { IsOnScale tenths }
    ensures value { pos result ≡ int_max (pos 0) tenths }
    ensures to_ten { result ≤ 100 }
{
    tenths.max(0) as u64
}
