//! Laws of vectors of any version, each the contract of a function that does nothing. A proof that
//! needs a law calls it.

ghost use Rattle.std.specs.Prelude.{◌≡◌, ◌↔◌, ℕ, List, Some};
ghost use Rattle.cvss_base.specs.declared.v2.MetricType as type_v2;
ghost use Rattle.cvss_base.specs.declared.v3.MetricType as type_v3;
ghost use Rattle.cvss_base.specs.declared.v4.MetricType as type_v4;
ghost use Rattle.cvss_base.specs.Rejection.{Rejection, IsFirstRejection, IsFirstRejectionAfter};
ghost use Rattle.cvss_base.specs.ErrorText.{error_text};
ghost use Rattle.cvss_base.specs.Reported.{reason_reported};
ghost use Rattle.cvss_base.specs.laws.Rounding.{IsOneCount};
ghost use Rattle.cvss_vector.specs.v2.Vector as of_v2;
ghost use Rattle.cvss_vector.specs.v3.Vector as of_v3;
ghost use Rattle.cvss_vector.specs.v4.Vector as of_v4;
ghost use Rattle.cvss_vector.specs.Answers.{text_of, IsScoreOf};
ghost use Rattle.cvss_vector.specs.Dispatch.{DenotesCvss, IsFirstRejectionCvss, cvss_reason};
ghost use Rattle.cvss_vector.specs.Reasons.{reason_text};
ghost use Rattle.cvss_laws.specs.any.GivenBack.{IsGivenBack};

use cvss_base::Error;
use cvss_vector::{Cvss, MetricType};

/// A text denotes at most one vector, and the text that is printed of a vector denotes that vector
/// exactly where it is well formed and, in CVSS v3, has a metric and the minor version of its
/// variant. So two such vectors are one if their texts are.
pub fn texts_denote_one_vector()
    ensures own { (cvss : Cvss) → (DenotesCvss (text_of cvss) cvss ↔ IsGivenBack cvss) }
    ensures one { (text : List ℕ) → (left right : Cvss)
        → DenotesCvss text left → DenotesCvss text right → left ≡ right }
{}

/// A text has at most one first rejection, by the rules of each version and of all.
pub fn texts_have_one_first_rejection()
    ensures v2 { (text : List ℕ) → (one other : Rejection type_v2.MetricType)
        → IsFirstRejection of_v2.v2 text one → IsFirstRejection of_v2.v2 text other → one ≡ other }
    ensures v3 { (text : List ℕ) → (one other : Rejection type_v3.MetricType)
        → IsFirstRejectionAfter of_v3.v3 text one → IsFirstRejectionAfter of_v3.v3 text other
        → one ≡ other }
    ensures v4 { (text : List ℕ) → (one other : Rejection type_v4.MetricType)
        → IsFirstRejectionAfter of_v4.v4 text one → IsFirstRejectionAfter of_v4.v4 text other
        → one ≡ other }
    ensures any { (text : List ℕ) → (one other : Rejection MetricType)
        → IsFirstRejectionCvss text one → IsFirstRejectionCvss text other → one ≡ other }
{}

/// An error that has a reason prints the text of that reason.
pub fn errors_print_their_reasons()
    ensures { (error : Error) (reason : Rejection MetricType)
        → reason_reported cvss_reason error ≡ Some reason → error_text error ≡ reason_text reason }
{}

/// A vector has one score.
pub fn scores_are_unique()
    ensures { (cvss : Cvss) → IsOneCount (IsScoreOf cvss) }
{}
