//! Laws of the calls, each the contract of a function that does nothing.

ghost use Rattle.std.specs.Prelude.{◌≡◌, ℕ, List, codes, drop, length, take};
ghost use Rattle.cvss_base.specs.Rejection.{Rejection};
ghost use Rattle.cvss_matches.specs.Matches.{AreFound, Candidate, candidates_of};
ghost use Rattle.cvss_vector.specs.Reasons.{reason_text};
ghost use Rattle.cvss_vector.specs.declared.metric_type.MetricType.{MetricType};
ghost use Rattle.cvss_vector.specs.v4.Merging.{effective_of};
ghost use Rattle.cvss_vector.specs.declared.v2.vector.Vector as vector_v2;
ghost use Rattle.cvss_vector.specs.declared.v3.vector.Vector as vector_v3;
ghost use Rattle.cvss_vector.specs.declared.v4.vector.Vector as vector_v4;
ghost use Rattle.cvss_vector.specs.v2.Vector.{v2};
ghost use Rattle.cvss_vector.specs.v3.Vector.{v3};
ghost use Rattle.cvss_vector.specs.v4.Vector.{v4};
ghost use Rattle.cvss_vector.specs.v2.Weights as weights_v2;
ghost use Rattle.cvss_vector.specs.v3.VectorWeights as weights_v3;
ghost use Rattle.cvss_base.specs.Equality.{ClonesAlways, ClonesByValue};
ghost use Rattle.cvss_ffi.specs.Defined.{HasDefinedOf};
ghost use Rattle.cvss_ffi.specs.Errors.{before_quoted, quoted_part};
ghost use Rattle.cvss_ffi.specs.Matches.{AreFoundInTurn};

use crate::CvssMetric;

/// Where an error says that a message quotes a part of the text, the message has that part.
#[tactic(auto, using(crate::proofs::MessageLemmas::quoted_in))]
pub fn quoted_parts_are_in_messages()
    ensures { (reason : Rejection MetricType)
        → take (length (quoted_part reason)) (drop (length (before_quoted reason)) (reason_text reason))
        ≡ quoted_part reason }
{}

/// Calls that go on where the one before says find exactly the matches of a text, in their order.
#[tactic(auto, using(crate::proofs::MatchLemmas::found_in_turn))]
pub fn calls_find_each_match()
    ensures { (text : List ℕ) (found : List Candidate) → AreFoundInTurn text 0 found
        → AreFound (candidates_of text) found }
{}

/// A vector that has the defined metrics of another, and no others, has the other's weights, and in CVSS
/// v4.0 its effective values; so it has its scores.
pub fn not_defined_metrics_change_no_score()
    ensures v2 { (v w : vector_v2.Vector) → HasDefinedOf v2 (codes "ND") v w
        → weights_v2.weights_of v ≡ weights_v2.weights_of w }
    ensures v3 { (v w : vector_v3.Vector) → HasDefinedOf v3 (codes "X") v w
        → weights_v3.weights_of v ≡ weights_v3.weights_of w }
    ensures v4 { (v w : vector_v4.Vector) → HasDefinedOf v4 (codes "X") v w
        → effective_of v ≡ effective_of w }
{
    cvss_laws::v2::not_defined_weighs_as_absent();
    cvss_laws::v3::not_defined_weighs_as_absent();
    cvss_laws::v4::not_defined_scores_as_absent();
}

/// A clone of a metric is that value.
pub fn clones_are_equal()
    ensures { ClonesByValue ⟦<CvssMetric as Clone>⟧.is_clone }
{}

/// To clone a metric takes no memory, so it never fails.
pub fn values_are_cloned_without_memory()
    ensures { ClonesAlways ⟦<CvssMetric as Clone>⟧.is_infallible }
{}
