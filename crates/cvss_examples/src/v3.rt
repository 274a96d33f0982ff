//! Callers of CVSS v3.

ghost use Rattle.std.specs.Prelude.{◌≡◌, ◌⊎◌, IfOk, IfErr, IsTrue, Ok, Err, string_bytes};
ghost use Rattle.cvss.specs.ErrorType.TheVariants.{OutOfMemory};
ghost use Rattle.cvss.specs.Rejection.{IsFirstRejectionAfter};
ghost use Rattle.cvss.specs.laws.ScoreLawsV3.{DefineTheSame, with_modified_as_base};
ghost use Rattle.cvss.specs.ScoresV3.{IsBaseScore, IsTemporalScore, IsEnvironmentalScore};
ghost use Rattle.cvss.specs.TypesV3.{v3_reason};
ghost use Rattle.cvss.specs.VectorTypeV3.{Vector};
ghost use Rattle.cvss.specs.VectorV3.{v3};
ghost use Rattle.cvss.specs.Version.{Denotes, IsWellFormed};
ghost use Rattle.cvss.specs.WeightsV3.{weights_of};
ghost use Rattle.cvss_examples.specs.Canonical.{IsCanonicalTextOf, ReportsRejection};

use cvss::Error;
use cvss::v3::{Score, Vector, laws};
use std::alloc::Global;

/// Prints a well-formed vector and reads what was printed, which gives the vector back.
pub fn printed_and_read(alloc: Global, vector: &Vector) -> Result<Vector, Error>
    requires { IsWellFormed v3 vector.now }
    ensures { (result ≡ Ok vector.now) ⊎ (result ≡ Err OutOfMemory) }
{
    laws::texts_denote_one_vector();
    let text = vector.to_string(alloc)?;
    Vector::from_str(alloc, text.as_str())
}

/// Reads a text and prints the vector that it denotes.
pub fn read_and_printed(alloc: Global, text: &str) -> Result<String, Error>
    ensures canonical { IfOk result (λ printed.
        IsCanonicalTextOf v3 (IsWellFormed v3) text.now (string_bytes printed)) }
    // Rejected: for the first reason, and no vector's text for another than out of memory.
    ensures rejected { IfErr result (ReportsRejection v3_reason (IsFirstRejectionAfter v3 text.now)) }
    ensures accepts { (vector : Vector) → Denotes v3 text.now vector → IsWellFormed v3 vector
        → IfErr result (λ error. error ≡ OutOfMemory) }
{
    let vector = Vector::from_str(alloc, text)?;
    Ok(vector.to_string(alloc)?)
}

/// Whether to read and print a text twice is to read and print it once, which it is.
pub fn twice_is_once(alloc: Global, text: &str) -> Result<bool, Error>
    ensures same { IfOk result (λ same. IsTrue same) }
    // Rejected: for the first reason, and no vector's text for another than out of memory.
    ensures rejected { IfErr result (ReportsRejection v3_reason (IsFirstRejectionAfter v3 text.now)) }
    ensures accepts { (vector : Vector) → Denotes v3 text.now vector → IsWellFormed v3 vector
        → IfErr result (λ error. error ≡ OutOfMemory) }
{
    laws::texts_denote_one_vector();
    let once = read_and_printed(alloc, text)?;
    let twice = read_and_printed(alloc, once.as_str())?;
    Ok(once == twice)
}

/// Whether two vectors of one version that differ only in `X` and absent metrics have the same base,
/// temporal and environmental scores, which they have.
pub fn not_defined_scores_as_absent(left: &Vector, right: &Vector) -> bool
    requires version { left.now.minor_version ≡ right.now.minor_version }
    requires defined { DefineTheSame left.now right.now }
    ensures { IsTrue result }
{
    laws::not_defined_weighs_as_absent();
    laws::scores_are_unique();
    scores_of(left) == scores_of(right)
}

/// The base, temporal and environmental scores of a vector.
fn scores_of(vector: &Vector) -> (Score, Score, Score)
    ensures base { IsBaseScore vector.now.minor_version (weights_of vector.now) result.0 }
    ensures temporal { IsTemporalScore vector.now.minor_version (weights_of vector.now) result.1 }
    ensures environmental { IsEnvironmentalScore vector.now.minor_version (weights_of vector.now)
        result.2 }
{
    (
        vector.score(),
        vector.temporal_score(),
        vector.environmental_score(),
    )
}

/// Whether a vector has the environmental score of the vector whose base metrics have the letters of
/// its modified metrics, which it has.
pub fn modified_scores_as_base(vector: &Vector, base: &Vector) -> bool
    requires { base.now ≡ with_modified_as_base vector.now }
    ensures { IsTrue result }
{
    laws::modified_scores_as_base();
    laws::scores_are_unique();
    vector.environmental_score() == base.environmental_score()
}
