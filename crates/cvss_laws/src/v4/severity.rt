//! What the score of CVSS v4.0 owes to the table, and to more severe values of any MacroVector.

ghost use Rattle.std.specs.List.{All};
ghost use Rattle.std.specs.Prelude.{ℕ, ℤ, pos, ◌≤◌, ◌≤ℤ◌, IfSome, IsTrue, None};
ghost use Rattle.cvss_laws.specs.v4.Severity.{all_levels};
ghost use Rattle.cvss_score.specs.AtMost.{IsAtMost};
ghost use Rattle.cvss_score.specs.v4.AsSevere.{IsAsSevere};
ghost use Rattle.cvss_score.specs.v4.Gap.{groups, next_lower};
ghost use Rattle.cvss_score.specs.v4.Scores.{has_impact, IsScore};
ghost use Rattle.cvss_score.specs.v4.Values.{table_value};
ghost use Rattle.cvss_score.specs.declared.v4.scoring.effective.Effective.{Effective};
ghost use Rattle.cvss_score.specs.declared.v4.scoring.effective.ExploitMaturity.TheVariants.{Attacked};
ghost use Rattle.cvss_vector.specs.v4.Merging.{effective_of};
ghost use Rattle.cvss_vector.specs.declared.v4.vector.Vector.{Vector};

use cvss_vector::v4::Vector;

/// A score is at most the value of its MacroVector. With impact it is at least the least of that and
/// of the values of the next lower MacroVectors (section 8.2).
#[tactic(auto, using(crate::proofs::v4::BetweenLemmas::at_most_value, crate::proofs::v4::BetweenLemmas::from_lower))]
pub fn scores_lie_between_table_values()
    ensures value { (v : Effective) → (r : ℤ) → IsScore v r → r ≤ℤ pos (table_value v) }
    ensures lower { (v : Effective) → (r : ℤ) → IsTrue (has_impact v) → IsScore v r
        → (bound : ℕ) → bound ≤ table_value v
        → All (λ group. IfSome (next_lower group) (λ lower. bound ≤ lower)) (groups v)
        → pos bound ≤ℤ r }
{}

/// Within a class, values with no higher level in any metric score no less.
#[tactic(auto, using(cvss_score::proofs::v4_lemmas::SevereLemmas::severe_score))]
pub fn severe_values_score_no_less()
    ensures { (v w : Effective) → (r s : ℤ) → IsAsSevere v w
        → IsScore v r → IsScore w s → s ≤ℤ r }
{}

/// Values with no higher level in any metric score no less, of whatever MacroVectors.
pub fn severe_values_of_any_class_score_no_less()
    ensures { (v w : Effective) → (r s : ℤ) → IsAtMost (all_levels v) (all_levels w)
        → IsScore v r → IsScore w s → s ≤ℤ r }
{}

/// A vector scores no more than without its Exploit Maturity, and effective values no more than with
/// that of `E:A`, for which an absent one counts.
pub fn exploit_maturity_only_lowers_scores()
    ensures absent { (vector : Vector) → (r s : ℤ) → IsScore (effective_of vector) r
        → IsScore (effective_of (record vector { e = None })) s → r ≤ℤ s }
    ensures attacked { (v : Effective) → (r s : ℤ) → IsScore v r
        → IsScore (record v { e = Attacked }) s → r ≤ℤ s }
{}
