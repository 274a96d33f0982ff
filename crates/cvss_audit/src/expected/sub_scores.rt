//! The sub-scores of a vector, as NVD gives them.

ghost use Rattle.std.specs.Prelude.{◌≡◌, false};
ghost use Rattle.cvss_base.specs.Exact.{of_count, ◌≈◌, IsWithinLimit};
ghost use Rattle.cvss_audit.specs.SubScores.{AreSubScores, AreSubScoresOf, is_below_zero};
ghost use Rattle.cvss_audit.specs.private.Tenths.{AreNearest};
ghost use Rattle.cvss_score.specs.v2.Scores as scores_v2;
ghost use Rattle.cvss_score.specs.v3.Closeness.{IsCloseTo};
ghost use Rattle.cvss_score.specs.v3.Scores as scores_v3;
ghost use Rattle.cvss_vector.specs.v2.Weights as weights_v2;
ghost use Rattle.cvss_vector.specs.v3.VectorWeights as weights_v3;

use cvss_base::TENTH;
use cvss_score::v3::Weights;
use cvss_vector::Cvss;

/// The sub-scores of a vector in tenths, each rounded to the nearest.
#[derive(Clone, Copy)]
pub(crate) struct SubScores {
    pub(crate) exploitability: u8,
    pub(crate) impact: u8,
    /// Whether the impact is below 0, and rounded up to it.
    pub(crate) is_below_zero: bool,
}

impl SubScores {
    /// The sub-scores of a vector; CVSS v4.0 has none.
    pub(crate) fn of(cvss: &Cvss) -> Option<SubScores>
        ensures { AreSubScoresOf cvss.now result }
    {
        match cvss {
            Cvss::CvssV20(vector) => Some(SubScores::of_v2(vector)),
            Cvss::CvssV30(vector) | Cvss::CvssV31(vector) => Some(SubScores::of_v3(vector)),
            Cvss::CvssV40(_) => None,
        }
    }

    fn of_v2(vector: &cvss_vector::v2::Vector) -> SubScores
        ensures { AreSubScores false false (scores_v2.exploitability (weights_v2.weights_of vector.now))
            (scores_v2.impact (weights_v2.weights_of vector.now)) result }
    {
        SubScores {
            exploitability: nearest_v2(vector.exploitability()),
            impact: nearest_v2(vector.impact()),
            is_below_zero: false,
        }
    }

    fn of_v3(vector: &cvss_vector::v3::Vector) -> SubScores
        ensures { AreSubScores (weights_v3.weights_of vector.now).changed
            (is_below_zero (weights_v3.weights_of vector.now))
            (scores_v3.exploitability (weights_v3.weights_of vector.now))
            (scores_v3.impact (weights_v3.weights_of vector.now)) result }
    {
        SubScores {
            exploitability: nearest_v3(vector.exploitability()),
            impact: nearest_v3(scoped_impact(vector)),
            is_below_zero: is_below_zero(&vector.weights()),
        }
    }
}

/// Whether Impact of CVSS v3 is below 0.
fn is_below_zero(weights: &Weights) -> bool
    ensures { result ≡ is_below_zero weights.now }
{
    weights.changed && weights.c == 0 && weights.i == 0 && weights.a == 0
}

/// Impact by the scope (v3.1 specification, section 7.1; v3.0 specification, section 8.1). It is exact
/// with the scope unchanged, and else at most half a millionth from the exact number.
fn scoped_impact(vector: &cvss_vector::v3::Vector) -> cvss_vector::v3::Score
    ensures close { IsCloseTo (scores_v3.impact (weights_v3.weights_of vector.now)) (of_count result) }
    ensures exact { (weights_v3.weights_of vector.now).changed ≡ false
        → of_count result ≈ scores_v3.impact (weights_v3.weights_of vector.now) }
    ensures limit { IsWithinLimit result }
{
    cvss_vector::v3::Score::new(vector.weights().impact())
}

fn nearest_v2(number: cvss_vector::v2::Score) -> u8
    requires { IsWithinLimit number }
    ensures { AreNearest number result }
{
    nearest(number.value())
}

fn nearest_v3(number: cvss_vector::v3::Score) -> u8
    requires { IsWithinLimit number }
    ensures { AreNearest number result }
{
    nearest(number.value())
}

/// The tenths from 0 to 25.5 that are nearest to a count of 10^-24, of two the larger.
fn nearest(count: i128) -> u8
    requires { IsWithinLimit count }
    ensures { AreNearest count result }
{
    let tenths = (count + TENTH / 2) / TENTH;
    tenths.clamp(0, 255) as u8
}
