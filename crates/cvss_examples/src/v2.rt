//! Callers of CVSS v2.

ghost use Rattle.std.specs.Prelude.{◌≡◌, ◌⊎◌, IfOk, IfErr, IsTrue, Ok, Err, string_bytes};
ghost use Rattle.cvss.specs.ErrorType.TheVariants.{OutOfMemory};
ghost use Rattle.cvss.specs.Exact.{IsWithinLimit};
ghost use Rattle.cvss.specs.Rejection.{IsFirstRejection};
ghost use Rattle.cvss.specs.laws.ScoreLawsV2.{DefineTheSame};
ghost use Rattle.cvss.specs.ScoresV2.{IsBaseScore, IsTemporalScore, IsEnvironmentalScore};
ghost use Rattle.cvss.specs.TypesV2.{v2_reason};
ghost use Rattle.cvss.specs.VectorTypeV2.{Vector};
ghost use Rattle.cvss.specs.VectorV2.{v2};
ghost use Rattle.cvss.specs.Version.{Denotes, IsComplete};
ghost use Rattle.cvss.specs.WeightsV2.{weights_of};
ghost use Rattle.cvss_examples.specs.Adjusted.{IsAdjustedTemporal};
ghost use Rattle.cvss_examples.specs.Canonical.{IsCanonicalTextOf, ReportsRejection};

use cvss::Error;
use cvss::v2::{Score, Vector, laws};
use std::alloc::Global;

/// Prints a complete vector and reads what was printed, which gives the vector back.
pub fn printed_and_read(alloc: Global, vector: &Vector) -> Result<Vector, Error>
    requires { IsComplete v2 vector.now }
    ensures { (result ≡ Ok vector.now) ⊎ (result ≡ Err OutOfMemory) }
{
    laws::texts_denote_one_vector();
    let text = vector.to_string(alloc)?;
    Vector::from_str(alloc, text.as_str())
}

/// Reads a text and prints the vector that it denotes.
pub fn read_and_printed(alloc: Global, text: &str) -> Result<String, Error>
    ensures canonical { IfOk result (λ printed.
        IsCanonicalTextOf v2 (IsComplete v2) text.now (string_bytes printed)) }
    // Rejected: for the first reason, and no vector's text for another than out of memory.
    ensures rejected { IfErr result (ReportsRejection v2_reason (IsFirstRejection v2 text.now)) }
    ensures accepts { (vector : Vector) → Denotes v2 text.now vector → IsComplete v2 vector
        → IfErr result (λ error. error ≡ OutOfMemory) }
{
    let vector = Vector::from_str(alloc, text)?;
    Ok(vector.to_string(alloc)?)
}

/// Whether to read and print a text twice is to read and print it once, which it is.
pub fn twice_is_once(alloc: Global, text: &str) -> Result<bool, Error>
    ensures same { IfOk result (λ same. IsTrue same) }
    // Rejected: for the first reason, and no vector's text for another than out of memory.
    ensures rejected { IfErr result (ReportsRejection v2_reason (IsFirstRejection v2 text.now)) }
    ensures accepts { (vector : Vector) → Denotes v2 text.now vector → IsComplete v2 vector
        → IfErr result (λ error. error ≡ OutOfMemory) }
{
    laws::texts_denote_one_vector();
    let once = read_and_printed(alloc, text)?;
    let twice = read_and_printed(alloc, once.as_str())?;
    Ok(once == twice)
}

/// Whether two vectors that differ only in `ND` and absent metrics have the same base, temporal and
/// environmental scores, which they have.
pub fn not_defined_scores_as_absent(left: &Vector, right: &Vector) -> bool
    requires { DefineTheSame left.now right.now }
    ensures { IsTrue result }
{
    laws::not_defined_weighs_as_absent();
    laws::scores_are_unique();
    scores_of(left) == scores_of(right)
}

/// The base, temporal and environmental scores of a vector.
fn scores_of(vector: &Vector) -> (Score, Score, Score)
    ensures base { IsBaseScore (weights_of vector.now) result.0 }
    ensures temporal { IsTemporalScore (weights_of vector.now) result.1 }
    ensures environmental { IsEnvironmentalScore (weights_of vector.now) result.2 }
{
    (
        vector.score(),
        vector.temporal_score(),
        vector.environmental_score(),
    )
}

/// The temporal score of a vector with its impact adjusted by the requirements, as it is in the
/// environmental equation (guide, section 3.2.3).
pub fn adjusted_temporal_score(vector: &Vector) -> Score
    ensures value { IsAdjustedTemporal (weights_of vector.now) result }
    ensures limit { IsWithinLimit result }
{
    vector.temporal_score_internal(vector.adjusted_impact())
}
