//! Laws of CVSS v2, each the contract of a function that does nothing. A proof that needs a law
//! calls it.

ghost use Rattle.std.specs.Ordering.{int_cmp};
ghost use Rattle.std.specs.Prelude.{◌≡◌, ◌↔◌, ℕ, ℤ, pos, codes, false, true, List, Some};
ghost use Rattle.cvss_base.specs.Equality.{EqualsByValue, ClonesByValue, ClonesAlways};
ghost use Rattle.cvss_base.specs.Version.{canonical_text, Denotes};
ghost use Rattle.cvss_laws.specs.any.Severity.{AreInOrder};
ghost use Rattle.cvss_laws.specs.v2.NegativeBase.{HasNegativeBase, has_one_low_impact};
ghost use Rattle.cvss_laws.specs.v2.NotDefined.{DefineTheSame};
ghost use Rattle.cvss_laws.specs.v2.Severity.{base_weights, temporal_weights, environmental_weights, AreEnvironmentalScores};
ghost use Rattle.cvss_base.specs.Exact.{of_count};
ghost use Rattle.cvss_base.specs.Rounding.{IsNearestAway};
ghost use Rattle.cvss_base.specs.Tenths.{IsInTenths};
ghost use Rattle.cvss_base.specs.laws.Rounding.{IsOneCount};
ghost use Rattle.cvss_vector.specs.v2.Vector.{v2};
ghost use Rattle.cvss_vector.specs.v2.Weights.{weights_of};
ghost use Rattle.cvss_vector.specs.declared.v2.vector.Vector.{Vector};
ghost use Rattle.cvss_score.specs.AtMost.{IsAtMost};
ghost use Rattle.cvss_score.specs.v2.Scores.{IsTemporal, IsBaseScore, IsTemporalScore, IsEnvironmentalScore, IsBaseScoreBy, IsTemporalScoreBy, IsEnvironmentalScoreBy};
ghost use Rattle.cvss_score.specs.declared.v2.weights.Weights.{Weights};

pub use cvss_vector::v2::laws::vectors_are_their_values;
use cvss_vector::v2::{Score, Vector};

/// Scores compare as their counts, are equal exactly if these are, and are 0 by default; a clone is
/// the score, and is never rejected.
pub fn scores_compare_as_counts()
    ensures order { (x y : ℤ) → ⟦<Score as Ord>⟧.cmp x y ≡ int_cmp x y }
    ensures partial_order { (x y : ℤ) → ⟦<Score as PartialOrd>⟧.partial_cmp x y
        ≡ Some (int_cmp x y) }
    ensures equality { EqualsByValue ⟦<Score as PartialEq>⟧.eq }
    ensures clone { ClonesByValue ⟦<Score as Clone>⟧.is_clone }
    ensures infallible { ClonesAlways ⟦<Score as Clone>⟧.is_infallible }
    ensures default { (score : ℤ) → ⟦<Score as Default>⟧.is_default score → score ≡ pos 0 }
{}

/// To clone a vector or a score takes no memory, so it is never refused.
pub fn values_are_cloned_without_memory()
    ensures vector { ClonesAlways ⟦<Vector as Clone>⟧.is_infallible }
    ensures score { ClonesAlways ⟦<Score as Clone>⟧.is_infallible }
{}

/// A canonical text denotes its vector, and a text denotes at most one vector. So what is printed
/// of a complete vector is read as that vector.
pub fn texts_denote_one_vector()
    ensures own { (vector : Vector) → Denotes v2 (canonical_text v2 vector) vector }
    ensures one { (text : List ℕ) → (left right : Vector)
        → Denotes v2 text left → Denotes v2 text right → left ≡ right }
{}

/// Weights give one score of each kind.
pub fn scores_are_unique()
    ensures base { (w : Weights) → IsOneCount (IsBaseScore w) }
    ensures temporal { (w : Weights) → IsOneCount (IsTemporalScore w) }
    ensures environmental { (w : Weights) → IsOneCount (IsEnvironmentalScore w) }
    ensures internal { (w : Weights) → (impact : ℤ)
        → IsOneCount (IsInTenths (IsTemporal w (of_count impact))) }
{}

/// The 10^-6 that the rounding adds changes no published score of a vector: each is the same if
/// every rounding on the way to it takes the nearest tenth of the exact number, half away from
/// zero. Before it is raised to 0 a number may differ: the environmental one of
/// `AV:L/AC:H/Au:M/C:P/I:N/A:N/TD:L/CR:L` is -0.05, whose rounding is 0 and whose nearest tenth is
/// -0.1.
#[tactic(auto, using(crate::proofs::v2::MillionthLemmas::same_base_score, crate::proofs::v2::MillionthLemmas::same_temporal_score, crate::proofs::v2::MillionthLemmas::same_environmental_score))]
pub fn a_millionth_changes_no_score()
    ensures base { (vector : Vector) → (count : ℤ) → IsBaseScore (weights_of vector) count
        ↔ IsBaseScoreBy IsNearestAway (weights_of vector) count }
    ensures temporal { (vector : Vector) → (count : ℤ) → IsTemporalScore (weights_of vector) count
        ↔ IsTemporalScoreBy IsNearestAway (weights_of vector) count }
    ensures environmental { (vector : Vector) → (count : ℤ)
        → IsEnvironmentalScore (weights_of vector) count
        ↔ IsEnvironmentalScoreBy IsNearestAway (weights_of vector) count }
{}

/// A metric that is `ND` and one that is absent weigh the same, so that all scores are the same
/// (guide, sections 2.2 and 2.3).
#[tactic(auto, using(crate::proofs::v2::WeightLemmas::one_weights))]
pub fn not_defined_weighs_as_absent()
    ensures { (left right : Vector) → DefineTheSame left right
        → weights_of left ≡ weights_of right }
{}

/// A vector whose values are in no metric less severe, by their weights, scores no less. Of the
/// environmental score this holds unless the more severe vector has one low impact alone.
pub fn severe_values_score_no_less()
    ensures base { (less more : Vector)
        → IsAtMost (base_weights (weights_of less)) (base_weights (weights_of more))
        → AreInOrder (IsBaseScore (weights_of less)) (IsBaseScore (weights_of more)) }
    ensures temporal { (less more : Vector)
        → IsAtMost (temporal_weights (weights_of less)) (temporal_weights (weights_of more))
        → AreInOrder (IsTemporalScore (weights_of less)) (IsTemporalScore (weights_of more)) }
    ensures environmental { (less more : Vector)
        → IsAtMost (environmental_weights (weights_of less))
        (environmental_weights (weights_of more))
        → has_one_low_impact more ≡ false
        → AreInOrder (IsEnvironmentalScore (weights_of less))
        (IsEnvironmentalScore (weights_of more)) }
{}

/// The base number with AdjustedImpact in the place of Impact is negative exactly of vectors with one
/// impact of P whose requirement is L, the other impacts N, and AV:L/AC:H with Au:M or Au:S.
#[tactic(auto, using(crate::proofs::v2::NegativeLemmas::negative_exactly))]
pub fn negative_base_numbers_have_one_low_impact()
    ensures { (vector : Vector)
        → (HasNegativeBase (weights_of vector) ↔ (has_one_low_impact vector ≡ true)) }
{}

/// The environmental score can fall where a value becomes more severe, since a negative base number
/// is not raised to 0 on the way: here from 1.0 to 0.8, as Confidentiality rises from N to P.
#[tactic(auto, using(crate::proofs::v2::FallFacts::environmental_fall))]
pub fn environmental_score_can_fall()
    ensures { AreEnvironmentalScores
        (codes "AV:L/AC:H/Au:M/C:N/I:N/A:N/CDP:L/TD:H/CR:L")
        (codes "AV:L/AC:H/Au:M/C:P/I:N/A:N/CDP:L/TD:H/CR:L") 10 8 }
{}
