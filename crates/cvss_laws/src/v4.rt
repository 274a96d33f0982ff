//! Laws of CVSS v4.0, each the contract of a function that does nothing. A proof that needs a law
//! calls it.

ghost use Rattle.std.specs.List.{All};
ghost use Rattle.std.specs.Prelude.{◌≡◌, ℕ, ℤ, List, [], ◌∷◌, ◌≤◌, ◌↔◌, ◌≤ℤ◌, IfSome, IsTrue, None};
ghost use Rattle.cvss_base.specs.Equality.{EqualsByValue, ClonesByValue, ClonesAlways};
ghost use Rattle.cvss_base.specs.Version.{canonical_text, Denotes};
ghost use Rattle.cvss_base.specs.Exact.{of_count, ◌over◌, ◌⊕◌};
ghost use Rattle.cvss_base.specs.Rounding.{IsRoundedV4};
ghost use Rattle.cvss_base.specs.laws.Rounding.{IsNearestEven, printed_tenths};
ghost use Rattle.cvss_base.specs.declared.v4.MetricType.{MetricType};
ghost use Rattle.cvss_base.specs.declared.v4.MetricType.TheVariants.{AC, AT, AV, PR, SA, SC, SI, UI, VA, VC, VI, E, AR, CR, IR, MAC, MAT, MAV, MPR, MSA, MSC, MSI, MUI, MVA, MVC, MVI};
ghost use Rattle.cvss_score.specs.v4.Classes.{eq1, Eq1Values, eq2, Eq2Values, eq3, eq6, Eq3Eq6Values, eq4, Eq4Values, macro_vector, IsPair};
ghost use Rattle.cvss_score.specs.v4.Distance.{eq1_sum, eq1_least, eq1_distance, eq2_sum, eq2_least, eq2_distance, eq3_eq6_sum, eq3_eq6_least, eq3_eq6_distance, eq4_sum, eq4_least, eq4_distance};
ghost use Rattle.cvss_score.specs.v4.Effective.{attack_vectors, privileges, user_interactions, attack_complexities, all_attack_requirements, vulnerable_impacts, subsequent_impacts, safety_impacts, requirements, exploit_maturities};
ghost use Rattle.cvss_score.specs.v4.Gap.{eq1_depth, eq2_depth, eq3_eq6_depth, eq4_depth, groups, next_lower};
ghost use Rattle.cvss_score.specs.v4.Scores.{has_impact, number, IsScore};
ghost use Rattle.cvss_score.specs.v4.Values.{listed_value, table_value, IsListed};
ghost use Rattle.cvss_score.specs.declared.v4.scoring.effective.Effective.{Effective};
ghost use Rattle.cvss_vector.specs.v4.Merging.{letter_at, effective_of};
ghost use Rattle.cvss_vector.specs.v4.Nomenclature.{nomenclature_of};
ghost use Rattle.cvss_vector.specs.v4.Table.{value_at};
ghost use Rattle.cvss_vector.specs.v4.Triage.{AreTheSame};
ghost use Rattle.cvss_vector.specs.v4.Vector.{v4};
ghost use Rattle.cvss_vector.specs.declared.v4.vector.Vector.{Vector};
ghost use Rattle.cvss_vector.specs.declared.v4.vector.overriding.OverrideError.{OverrideError};
ghost use Rattle.cvss_laws.specs.v4.ClassLaws.{IsDominated, HaveLeastSum, IsDepth};
ghost use Rattle.cvss_laws.specs.v4.LetterLaws.{AreLettersOf};
ghost use Rattle.cvss_laws.specs.v4.Maximal.{eq1_levels, eq1_maximal, eq2_levels, eq2_maximal, eq3_eq6_levels, eq3_eq6_maximal, eq4_levels, eq4_maximal};
ghost use Rattle.cvss_laws.specs.v4.MergingLaws.{HasModifiedAsBase, DifferInSupplemental};
ghost use Rattle.cvss_laws.specs.v4.OverridingLaws.{AreAlike};
ghost use Rattle.cvss_laws.specs.v4.ScoreLaws.{IsFromTenthToTen};
ghost use Rattle.cvss_laws.specs.v4.TriageLaws.{ReportTheSame};

mod severity;

use cvss_metric::v4::place::{OneOfFive, OneOfFour, OneOfThree, OneOfTwo};
use cvss_score::v4::scoring::explanation::{Explanation, GroupExplanation, GroupExplanations};
use cvss_vector::v4::laws::vectors_are_their_values;
use cvss_vector::v4::triage::{Row, TriageError};
use cvss_vector::v4::{Nomenclature, OverrideError, Score, Vector};
pub use severity::{
    exploit_maturity_only_lowers_scores, scores_lie_between_table_values,
    severe_values_of_any_class_score_no_less, severe_values_score_no_less,
};

/// Two places of values are equal exactly if they are one, and a clone is that place and takes no memory,
/// so it is never rejected.
pub fn places_are_their_values<const NUMBER: usize>()
    ensures two { EqualsByValue ⟦<OneOfTwo<NUMBER> as PartialEq>⟧.eq }
    ensures three { EqualsByValue ⟦<OneOfThree<NUMBER> as PartialEq>⟧.eq }
    ensures four { EqualsByValue ⟦<OneOfFour<NUMBER> as PartialEq>⟧.eq }
    ensures five { EqualsByValue ⟦<OneOfFive<NUMBER> as PartialEq>⟧.eq }
    ensures two_clone { ClonesByValue ⟦<OneOfTwo<NUMBER> as Clone>⟧.is_clone }
    ensures three_clone { ClonesByValue ⟦<OneOfThree<NUMBER> as Clone>⟧.is_clone }
    ensures four_clone { ClonesByValue ⟦<OneOfFour<NUMBER> as Clone>⟧.is_clone }
    ensures five_clone { ClonesByValue ⟦<OneOfFive<NUMBER> as Clone>⟧.is_clone }
    ensures two_memory { ClonesAlways ⟦<OneOfTwo<NUMBER> as Clone>⟧.is_infallible }
    ensures three_memory { ClonesAlways ⟦<OneOfThree<NUMBER> as Clone>⟧.is_infallible }
    ensures four_memory { ClonesAlways ⟦<OneOfFour<NUMBER> as Clone>⟧.is_infallible }
    ensures five_memory { ClonesAlways ⟦<OneOfFive<NUMBER> as Clone>⟧.is_infallible }
{}

/// Two vectors, scores or nomenclatures are equal exactly if they are one value, two rows of triage
/// exactly if their texts and scores are, and two errors of overrides or of triage exactly if they are of
/// one kind, at one place, and say the same.
pub fn equality_is_that_of_values()
    ensures vector { EqualsByValue ⟦<Vector as PartialEq>⟧.eq }
    ensures score { EqualsByValue ⟦<Score as PartialEq>⟧.eq }
    ensures nomenclature { EqualsByValue ⟦<Nomenclature as PartialEq>⟧.eq }
    ensures override_error { (x y : OverrideError) → IsTrue (⟦<OverrideError as PartialEq>⟧.eq x y)
        ↔ AreAlike x y }
    ensures row { (x y : Row) → IsTrue (⟦<Row as PartialEq>⟧.eq x y) ↔ AreTheSame x y }
    ensures triage_error { (x y : TriageError) → IsTrue (⟦<TriageError as PartialEq>⟧.eq x y)
        ↔ ReportTheSame x y }
{
    crate::base::equality_is_that_of_values();
    vectors_are_their_values();
}

/// A clone of a vector, a score, a nomenclature or an explanation of a score is that value, and a clone
/// of an error of overrides or of triage is of its kind, at its place, and says the same.
pub fn clones_are_equal()
    ensures vector { ClonesByValue ⟦<Vector as Clone>⟧.is_clone }
    ensures score { ClonesByValue ⟦<Score as Clone>⟧.is_clone }
    ensures nomenclature { ClonesByValue ⟦<Nomenclature as Clone>⟧.is_clone }
    ensures explanation { ClonesByValue ⟦<Explanation as Clone>⟧.is_clone }
    ensures groups { ClonesByValue ⟦<GroupExplanations as Clone>⟧.is_clone }
    ensures group { ClonesByValue ⟦<GroupExplanation as Clone>⟧.is_clone }
    ensures override_error { (x clone : OverrideError)
        → ⟦<OverrideError as Clone>⟧.is_clone x clone
        → AreAlike x clone }
    ensures triage_error { (x clone : TriageError) → ⟦<TriageError as Clone>⟧.is_clone x clone
        → ReportTheSame x clone }
{
    crate::base::clones_are_equal();
}

/// To clone a vector, a score, a nomenclature or an explanation of a score takes no memory, so it is
/// never rejected.
pub fn values_are_cloned_without_memory()
    ensures vector { ClonesAlways ⟦<Vector as Clone>⟧.is_infallible }
    ensures score { ClonesAlways ⟦<Score as Clone>⟧.is_infallible }
    ensures nomenclature { ClonesAlways ⟦<Nomenclature as Clone>⟧.is_infallible }
    ensures explanation { ClonesAlways ⟦<Explanation as Clone>⟧.is_infallible }
    ensures groups { ClonesAlways ⟦<GroupExplanations as Clone>⟧.is_infallible }
    ensures group { ClonesAlways ⟦<GroupExplanation as Clone>⟧.is_infallible }
{}

/// The default vector has minor version 0 and no metric.
pub fn default_vectors_have_no_metric()
    ensures version { (v : Vector) → ⟦<Vector as Default>⟧.is_default v → v.minor_version ≡ 0 }
    ensures valueless { (v : Vector) → ⟦<Vector as Default>⟧.is_default v
        → (kind : MetricType) → value_at v kind ≡ None }
{
    vectors_are_their_values();
}

/// A canonical text denotes its vector, and a text denotes at most one vector. So what is printed
/// of a complete vector with minor version 0 is read as that vector.
pub fn texts_denote_one_vector()
    ensures own { (vector : Vector) → Denotes v4 (canonical_text v4 vector) vector }
    ensures one { (text : List ℕ) → (left right : Vector)
        → Denotes v4 text left → Denotes v4 text right → left ≡ right }
{}

/// Each spelling of a metric that is scored but `X` stands for an effective value of its own, so that
/// no other is taken for what counts where nothing is defined.
pub fn spellings_have_effective_values()
    ensures av { AreLettersOf attack_vectors (AV ∷ MAV ∷ []) }
    ensures pr { AreLettersOf privileges (PR ∷ MPR ∷ []) }
    ensures ui { AreLettersOf user_interactions (UI ∷ MUI ∷ []) }
    ensures ac { AreLettersOf attack_complexities (AC ∷ MAC ∷ []) }
    ensures at { AreLettersOf all_attack_requirements (AT ∷ MAT ∷ []) }
    ensures vulnerable { AreLettersOf vulnerable_impacts
        (VC ∷ VI ∷ VA ∷ MVC ∷ MVI ∷ MVA ∷ []) }
    ensures sc { AreLettersOf subsequent_impacts (SC ∷ MSC ∷ []) }
    ensures si_sa { AreLettersOf safety_impacts (SI ∷ SA ∷ MSI ∷ MSA ∷ []) }
    ensures requirements { AreLettersOf requirements (CR ∷ IR ∷ AR ∷ []) }
    ensures e { AreLettersOf exploit_maturities (E ∷ []) }
{}

/// Vectors whose metrics have the same letters, where an absent metric counts as Not Defined, have
/// the same effective values and so the same score.
#[tactic(auto, using(crate::proofs::v4::MergingLemmas::letters_alike))]
pub fn not_defined_scores_as_absent()
    ensures { (v w : Vector) → ((kind : MetricType) → letter_at v kind ≡ letter_at w kind)
        → effective_of v ≡ effective_of w }
{}

/// The supplemental metrics change neither the effective values nor the nomenclature.
pub fn supplemental_metrics_change_nothing()
    ensures score { (v w : Vector) → DifferInSupplemental v w
        → effective_of w ≡ effective_of v }
    ensures nomenclature { (v w : Vector) → DifferInSupplemental v w
        → nomenclature_of w ≡ nomenclature_of v }
{}

/// A modified metric gives the effective value that its base metric gives with the same letter, each
/// by itself: those that stay modified, as `MSI:S` and `MSA:S` have to, do not matter to the others.
#[tactic(auto, using(crate::proofs::v4::MergingLemmas::modified_as_base))]
pub fn modified_metrics_score_as_base_metrics()
    ensures { (v w : Vector) → HasModifiedAsBase v w → effective_of w ≡ effective_of v }
{}

/// A score is printed as the tenth nearest to it, of two equally near the even one.
pub fn scores_are_printed_to_nearest_tenth()
    ensures { (value : ℤ) → IsNearestEven (of_count value) (printed_tenths value) }
{}

/// Of the listed highest severity vectors of its class, one has no level above those of given
/// values (section 8.2).
pub fn highest_severity_vectors_dominate()
    ensures eq1 { (v : Eq1Values) → IsDominated eq1_levels (eq1_maximal (eq1 v.0 v.1 v.2)) v }
    ensures eq2 { (v : Eq2Values) → IsDominated eq2_levels (eq2_maximal (eq2 v.0 v.1)) v }
    ensures eq3_eq6 { (v : Eq3Eq6Values) → IsDominated eq3_eq6_levels
        (eq3_eq6_maximal (eq3 v.0 v.1 v.2) (eq6 v.0 v.1 v.2 v.3 v.4 v.5)) v }
    ensures eq4 { (v : Eq4Values) → IsDominated eq4_levels (eq4_maximal (eq4 v.0 v.1 v.2)) v }
{}

/// All highest severity vectors of a class have its least level sum. So a distance may be taken
/// from any of them.
pub fn highest_severity_vectors_have_the_least_sum()
    ensures eq1 { (class : ℕ) → class ≤ 2 → HaveLeastSum (λ m. eq1 m.0 m.1 m.2 ≡ class)
        (λ m. eq1_sum m.0 m.1 m.2) (eq1_maximal class) (eq1_least class) }
    ensures eq2 { (class : ℕ) → class ≤ 1 → HaveLeastSum (λ m. eq2 m.0 m.1 ≡ class)
        (λ m. eq2_sum m.0 m.1) (eq2_maximal class) (eq2_least class) }
    ensures eq3_eq6 { (class3 class6 : ℕ) → IsPair class3 class6 → HaveLeastSum
        (λ m. (eq3 m.0 m.1 m.2 ≡ class3) × (eq6 m.0 m.1 m.2 m.3 m.4 m.5 ≡ class6))
        (λ m. eq3_eq6_sum m.0 m.1 m.2 m.3 m.4 m.5)
        (eq3_eq6_maximal class3 class6) (eq3_eq6_least class3 class6) }
    ensures eq4 { (class : ℕ) → class ≤ 2 → HaveLeastSum (λ m. eq4 m.0 m.1 m.2 ≡ class)
        (λ m. eq4_sum m.0 m.1 m.2) (eq4_maximal class) (eq4_least class) }
{}

/// No values have a level sum below the least of their class, so no distance is negative.
pub fn least_sums_are_least()
    ensures eq1 { (v : Eq1Values) → eq1_least (eq1 v.0 v.1 v.2) ≤ eq1_sum v.0 v.1 v.2 }
    ensures eq2 { (v : Eq2Values) → eq2_least (eq2 v.0 v.1) ≤ eq2_sum v.0 v.1 }
    ensures eq3_eq6 { (v : Eq3Eq6Values) →
        eq3_eq6_least (eq3 v.0 v.1 v.2) (eq6 v.0 v.1 v.2 v.3 v.4 v.5)
        ≤ eq3_eq6_sum v.0 v.1 v.2 v.3 v.4 v.5 }
    ensures eq4 { (v : Eq4Values) → eq4_least (eq4 v.0 v.1 v.2) ≤ eq4_sum v.0 v.1 v.2 }
{}

/// In the groups with levels the depth is the greatest distance in the class plus 1. So each
/// proportion is below 1.
pub fn depths_are_greatest_distances_and_one()
    ensures eq1 { (class : ℕ) → class ≤ 2
        → IsDepth (λ v. eq1 v.av v.pr v.ui ≡ class) eq1_distance (eq1_depth class) }
    ensures eq2 { (class : ℕ) → class ≤ 1
        → IsDepth (λ v. eq2 v.ac v.at ≡ class) eq2_distance (eq2_depth class) }
    ensures eq3_eq6 { (class3 class6 : ℕ) → IsPair class3 class6 → IsDepth
        (λ v. (eq3 v.vc v.vi v.va ≡ class3) × (eq6 v.vc v.vi v.va v.cr v.ir v.ar ≡ class6))
        eq3_eq6_distance (eq3_eq6_depth class3 class6) }
    ensures eq4 { (class : ℕ) → class ≤ 2
        → IsDepth (λ v. eq4 v.sc v.si v.sa ≡ class) eq4_distance (eq4_depth class) }
{}

/// Each class has a value from 0.1 to 10.0, and no next lower value is above it: no gap is
/// negative.
pub fn gaps_are_not_negative()
    ensures listed { (v : Effective) → IsListed (listed_value (macro_vector v)) (table_value v) }
    ensures lower { (v : Effective) → All (λ group. IfSome (next_lower group)
        (λ lower. lower ≤ table_value v)) (groups v) }
{}

/// With impact, the number before the rounding lies from 0.1 to 10.
pub fn numbers_lie_from_a_tenth_to_ten()
    ensures { (v : Effective) → IsTrue (has_impact v) → IsFromTenthToTen (number v) }
{}

/// Effective values have one score.
#[tactic(auto, using(cvss_score::proofs::v4_lemmas::ScoreLawLemmas::one_score))]
pub fn scores_are_unique()
    ensures { (v : Effective) → (r s : ℤ) → IsScore v r → IsScore v s → r ≡ s }
{}

/// To add 10^-6 before the rounding, as calculators in binary numbers do, changes no score.
pub fn a_millionth_changes_no_score()
    ensures { (v : Effective) → (r : ℤ)
        → (IsScore v r ↔ IsRoundedV4 (number v ⊕ 1 over 1_000_000) r) }
{}
