//! Callers of CVSS v4.

ghost use Rattle.std.specs.Prelude.{◌≡◌, ◌⊎◌, IfOk, IfErr, IsTrue, Ok, Err, string_bytes};
ghost use Rattle.cvss.specs.ErrorType.TheVariants.{OutOfMemory};
ghost use Rattle.cvss.specs.Rejection.{IsFirstRejectionAfter};
ghost use Rattle.cvss.specs.laws.MergingLawsV4.{HasModifiedAsBase, DifferInSupplemental};
ghost use Rattle.cvss.specs.MergingV4.{effective_of, letter_at};
ghost use Rattle.cvss.specs.MetricTypeV4.{MetricType};
ghost use Rattle.cvss.specs.NomenclatureV4.{nomenclature_of};
ghost use Rattle.cvss.specs.ScoresV4.{IsScore};
ghost use Rattle.cvss.specs.Tenths.{IsInTenths};
ghost use Rattle.cvss.specs.TypesV4.{v4_reason};
ghost use Rattle.cvss.specs.VectorTypeV4.{Vector};
ghost use Rattle.cvss.specs.VectorV4.{v4};
ghost use Rattle.cvss.specs.Version.{Denotes, IsComplete, IsWellFormed};
ghost use Rattle.cvss_examples.specs.Canonical.{IsCanonicalTextOf, ReportsRejection};

use cvss::Error;
use cvss::v4::{Nomenclature, Vector, laws};
use std::alloc::Global;

/// Prints a well-formed vector and reads what was printed, which gives the vector back.
pub fn printed_and_read(alloc: Global, vector: &Vector) -> Result<Vector, Error>
    requires { IsWellFormed v4 vector.now }
    ensures { (result ≡ Ok vector.now) ⊎ (result ≡ Err OutOfMemory) }
{
    laws::texts_denote_one_vector();
    let text = vector.to_string(alloc)?;
    Vector::from_str(alloc, text.as_str())
}

/// Reads a text and prints the vector that it denotes.
pub fn read_and_printed(alloc: Global, text: &str) -> Result<String, Error>
    ensures canonical { IfOk result (λ printed.
        IsCanonicalTextOf v4 (IsWellFormed v4) text.now (string_bytes printed)) }
    // Rejected: for the first reason, and no vector's text for another than out of memory.
    ensures rejected { IfErr result (ReportsRejection v4_reason (IsFirstRejectionAfter v4 text.now)) }
    ensures accepts { (vector : Vector) → Denotes v4 text.now vector → IsWellFormed v4 vector
        → IfErr result (λ error. error ≡ OutOfMemory) }
{
    let vector = Vector::from_str(alloc, text)?;
    Ok(vector.to_string(alloc)?)
}

/// Whether to read and print a text twice is to read and print it once, which it is.
pub fn twice_is_once(alloc: Global, text: &str) -> Result<bool, Error>
    ensures same { IfOk result (λ same. IsTrue same) }
    // Rejected: for the first reason, and no vector's text for another than out of memory.
    ensures rejected { IfErr result (ReportsRejection v4_reason (IsFirstRejectionAfter v4 text.now)) }
    ensures accepts { (vector : Vector) → Denotes v4 text.now vector → IsWellFormed v4 vector
        → IfErr result (λ error. error ≡ OutOfMemory) }
{
    laws::texts_denote_one_vector();
    let once = read_and_printed(alloc, text)?;
    let twice = read_and_printed(alloc, once.as_str())?;
    Ok(once == twice)
}

/// The scores of two complete vectors that differ only in `X` and absent metrics, which are the same.
pub fn not_defined_scores_as_absent(left: &Vector, right: &Vector) -> (i128, i128)
    requires left { IsComplete v4 left.now }
    requires right { IsComplete v4 right.now }
    requires letters { (kind : MetricType) → letter_at left.now kind ≡ letter_at right.now kind }
    ensures left { IsInTenths (IsScore (effective_of left.now)) result.0 }
    ensures right { IsInTenths (IsScore (effective_of right.now)) result.1 }
    ensures same { result.0 ≡ result.1 }
{
    laws::not_defined_scores_as_absent();
    laws::scores_are_unique();
    (left.score().value(), right.score().value())
}

/// The scores of a complete vector and of one with some or all of its modified metrics written as base
/// metrics, as `AV:L` in place of `MAV:L` beside `MSI:S`, which are the same.
pub fn modified_scores_as_base(vector: &Vector, base: &Vector) -> (i128, i128)
    requires vector { IsComplete v4 vector.now }
    requires base { IsComplete v4 base.now }
    requires letters { HasModifiedAsBase vector.now base.now }
    ensures base { IsInTenths (IsScore (effective_of base.now)) result.0 }
    ensures vector { IsInTenths (IsScore (effective_of vector.now)) result.1 }
    ensures same { result.0 ≡ result.1 }
{
    laws::modified_metrics_score_as_base_metrics();
    laws::scores_are_unique();
    (base.score().value(), vector.score().value())
}

/// The scores and nomenclatures of complete vectors that differ in supplemental metrics alone, which
/// are the same.
pub fn supplemental_metrics_change_nothing(
    without: &Vector,
    vector: &Vector,
) -> (i128, i128, Nomenclature, Nomenclature)
    requires without { IsComplete v4 without.now }
    requires vector { IsComplete v4 vector.now }
    requires same { DifferInSupplemental vector.now without.now }
    ensures without { IsInTenths (IsScore (effective_of without.now)) result.0 }
    ensures with { IsInTenths (IsScore (effective_of vector.now)) result.1 }
    ensures score { result.0 ≡ result.1 }
    ensures named { result.3 ≡ nomenclature_of vector.now }
    ensures nomenclature { result.2 ≡ result.3 }
{
    laws::supplemental_metrics_change_nothing();
    laws::scores_are_unique();
    (
        without.score().value(),
        vector.score().value(),
        without.nomenclature(),
        vector.nomenclature(),
    )
}
