//! Laws of CVSS v3, each the contract of a function that does nothing. A proof that needs a law
//! calls it.

ghost use Rattle.std.specs.Ordering.{int_cmp};
ghost use Rattle.std.specs.Prelude.{◌≡◌, ◌+ℤ◌, ◌^◌, ℕ, suc, List, ℤ, pos, codes, false, ◌≤◌, ◌≤ℤ◌, Some, None};
ghost use Rattle.cvss_base.specs.Equality.{EqualsByValue, ClonesByValue, ClonesAlways};
ghost use Rattle.cvss_base.specs.Version.{canonical_text, Denotes};
ghost use Rattle.cvss_laws.specs.any.Severity.{AreInOrder};
ghost use Rattle.cvss_laws.specs.v3.FifthDecimals.{IsSameWhenCut};
ghost use Rattle.cvss_laws.specs.v3.ScoreLaws.{DefineTheSame, with_modified_as_base};
ghost use Rattle.cvss_laws.specs.v3.Severity.{base_weights, temporal_weights, environmental_weights, AreEnvironmentalScores};
ghost use Rattle.cvss_base.specs.laws.Rounding.{IsOneCount};
ghost use Rattle.cvss_vector.specs.v3.Complete.{first_missing_base};
ghost use Rattle.cvss_vector.specs.v3.Vector.{v3};
ghost use Rattle.cvss_vector.specs.v3.VectorWeights.{weights_of};
ghost use Rattle.cvss_vector.specs.declared.v3.vector.Vector.{Vector};
ghost use Rattle.cvss_score.specs.AtMost.{IsAtMost};
ghost use Rattle.cvss_score.specs.v3.Scores.{base_number, environmental_number, temporal_number, IsBaseScore, IsTemporalScore, IsEnvironmentalScore};
ghost use Rattle.cvss_score.specs.declared.v3.weights.Weights.{Weights};

pub use cvss_vector::v3::laws::vectors_are_their_values;
use cvss_vector::v3::{Score, Vector};

/// Scores compare as their counts, are equal exactly if these are, and are 0 by default; a clone is
/// the score, and is never rejected.
pub fn scores_compare_as_counts()
    ensures order { (x y : ℤ) → ⟦<Score as Ord>⟧.cmp x y ≡ int_cmp x y }
    ensures partial_order { (x y : ℤ) → ⟦<Score as PartialOrd>⟧.partial_cmp x y
        ≡ Some (int_cmp x y) }
    ensures equality { EqualsByValue ⟦<Score as PartialEq>⟧.eq }
    ensures clone { ClonesByValue ⟦<Score as Clone>⟧.is_clone }
    ensures infallible { ClonesAlways ⟦<Score as Clone>⟧.is_infallible }
    ensures default { (score : ℤ) → ⟦<Score as Default>⟧.is_default score → score ≡ pos 0 }
{}

/// To clone a vector or a score takes no memory, so it is never refused.
pub fn values_are_cloned_without_memory()
    ensures vector { ClonesAlways ⟦<Vector as Clone>⟧.is_infallible }
    ensures score { ClonesAlways ⟦<Score as Clone>⟧.is_infallible }
{}

/// A canonical text denotes its vector, and a text denotes at most one vector. So what is printed
/// of a vector with minor version 0 or 1 is read as that vector.
pub fn texts_denote_one_vector()
    ensures own { (vector : Vector) → Denotes v3 (canonical_text v3 vector) vector }
    ensures one { (text : List ℕ) → (left right : Vector)
        → Denotes v3 text left → Denotes v3 text right → left ≡ right }
{}

/// Weights give one score of each kind.
pub fn scores_are_unique()
    ensures base { (minor : ℕ) → (w : Weights) → IsOneCount (IsBaseScore minor w) }
    ensures temporal { (minor : ℕ) → (w : Weights) → IsOneCount (IsTemporalScore minor w) }
    ensures environmental { (minor : ℕ) → (w : Weights)
        → IsOneCount (IsEnvironmentalScore minor w) }
{}

/// The temporal score of a vector is at most its base score.
pub fn temporal_is_at_most_base()
    ensures { (minor : ℕ) → (vector : Vector) → (base temporal : ℤ)
        → IsBaseScore minor (weights_of vector) base
        → IsTemporalScore minor (weights_of vector) temporal → temporal ≤ℤ base }
{}

/// In v3.1, cutting a number to five decimals in place of taking the nearest fifth decimal (Appendix
/// A) changes no score of a vector: neither the rounding of the base score, nor the first one of the
/// environmental score, nor that of tenths from 0 to 10 times E, RL and RC.
pub fn cutting_changes_no_score()
    ensures base { (vector : Vector) → IsSameWhenCut (base_number (weights_of vector)) }
    ensures environmental { (vector : Vector)
        → IsSameWhenCut (environmental_number 1 (weights_of vector)) }
    ensures product { (vector : Vector) → (tenths : ℕ) → tenths ≤ 100
        → IsSameWhenCut (temporal_number (pos tenths) (weights_of vector)) }
{}

/// A metric that is `X` and one that is absent weigh the same, so that all scores are the same.
#[tactic(auto, using(crate::proofs::v3::DefinedLemmas::one_weights))]
pub fn not_defined_weighs_as_absent()
    ensures { (left right : Vector) → DefineTheSame left right
        → weights_of left ≡ weights_of right }
{}

/// A modified metric with a letter of its base metric gives the environmental score that the base
/// metric with this letter gives without it.
pub fn modified_scores_as_base()
    ensures { (minor : ℕ) → (vector : Vector) → (score : ℤ)
        → IsEnvironmentalScore minor (weights_of vector) score
        → IsEnvironmentalScore minor (weights_of (with_modified_as_base vector)) score }
{}

/// A vector whose values are in no metric less severe, by their weights, has no smaller base score and
/// no smaller temporal score, also where the scope becomes changed.
pub fn severe_values_score_no_less()
    ensures base { (minor : ℕ) → (less more : Vector)
        → IsAtMost (base_weights (weights_of less)) (base_weights (weights_of more))
        → AreInOrder (IsBaseScore minor (weights_of less)) (IsBaseScore minor (weights_of more)) }
    ensures temporal { (minor : ℕ) → (less more : Vector)
        → IsAtMost (temporal_weights (weights_of less)) (temporal_weights (weights_of more))
        → AreInOrder (IsTemporalScore minor (weights_of less))
        (IsTemporalScore minor (weights_of more)) }
{}

/// By the equations of v3.1 its environmental score is no smaller either, within one modified scope,
/// and where that becomes changed, if the less severe vector has all base metrics. By those of v3.0
/// this holds where the modified scope is unchanged.
pub fn severe_modified_values_score_no_less()
    ensures one_scope { (minor : ℕ) → (less more : Vector)
        → IsAtMost (environmental_weights (weights_of less))
        (environmental_weights (weights_of more))
        → (weights_of less).modified_changed ≡ (weights_of more).modified_changed
        → AreInOrder (IsEnvironmentalScore (suc minor) (weights_of less))
        (IsEnvironmentalScore (suc minor) (weights_of more)) }
    ensures complete { (minor : ℕ) → (less more : Vector)
        → IsAtMost (environmental_weights (weights_of less))
        (environmental_weights (weights_of more))
        → first_missing_base less ≡ None
        → AreInOrder (IsEnvironmentalScore (suc minor) (weights_of less))
        (IsEnvironmentalScore (suc minor) (weights_of more)) }
    ensures unchanged { (minor : ℕ) → (less more : Vector)
        → IsAtMost (environmental_weights (weights_of less))
        (environmental_weights (weights_of more))
        → (weights_of less).modified_changed ≡ false
        → (weights_of more).modified_changed ≡ false
        → AreInOrder (IsEnvironmentalScore minor (weights_of less))
        (IsEnvironmentalScore minor (weights_of more)) }
{}

/// In v3.0 the environmental score can fall where a value becomes more severe: here from 6.9 to 6.8,
/// as Availability rises from L to H. In v3.1 that of an incomplete vector can, as its scope becomes
/// changed: here from 0.8 to 0.7.
#[tactic(auto, using(crate::proofs::v3::FallFacts::v30_fall, crate::proofs::v3::FallFacts::incomplete_fall))]
pub fn environmental_score_can_fall()
    ensures v30 { AreEnvironmentalScores
        (codes "CVSS:3.0/AV:P/AC:H/PR:H/UI:R/S:C/C:H/I:H/A:L/CR:H/IR:L/AR:L")
        (codes "CVSS:3.0/AV:P/AC:H/PR:H/UI:R/S:C/C:H/I:H/A:H/CR:H/IR:L/AR:L") 69 68 }
    ensures incomplete { AreEnvironmentalScores
        (codes "CVSS:3.1/S:U/C:L/CR:L") (codes "CVSS:3.1/S:C/C:L/CR:L") 8 7 }
{}

/// In v3.0 the environmental score falls by at most 0.1 where values become more severe.
pub fn environmental_score_falls_by_at_most_a_tenth()
    ensures { (less more : Vector) → IsAtMost (environmental_weights (weights_of less))
        (environmental_weights (weights_of more)) → (first second : ℤ)
        → IsEnvironmentalScore 0 (weights_of less) first
        → IsEnvironmentalScore 0 (weights_of more) second
        → first ≤ℤ (second +ℤ pos (10 ^ 23)) }
{}

/// v3.0 and v3.1 give each vector the same base score and the same temporal score, and the same
/// environmental score where the modified scope is unchanged.
pub fn minor_versions_score_alike()
    ensures base { (minor other : ℕ) → (vector : Vector) → (score : ℤ)
        → IsBaseScore minor (weights_of vector) score
        → IsBaseScore other (weights_of vector) score }
    ensures temporal { (minor other : ℕ) → (vector : Vector) → (score : ℤ)
        → IsTemporalScore minor (weights_of vector) score
        → IsTemporalScore other (weights_of vector) score }
    ensures environmental { (minor other : ℕ) → (vector : Vector)
        → (weights_of vector).modified_changed ≡ false → (score : ℤ)
        → IsEnvironmentalScore minor (weights_of vector) score
        → IsEnvironmentalScore other (weights_of vector) score }
{}
