//! Laws of vectors of any version, each the contract of a function that does nothing. A proof that
//! needs a law calls it.

ghost use Rattle.std.specs.Prelude.{◌↔◌, IsTrue};
ghost use Rattle.cvss_laws.specs.base.Errors as same;
ghost use Rattle.cvss_base.specs.Equality.{EqualsByValue, ClonesByValue, ClonesAlways};
ghost use Rattle.cvss.specs.laws.BytesErrors as of_bytes;
ghost use Rattle.cvss.specs.laws.JsonErrors.{ReportTheSame};

use crate::json::JsonError;
use crate::{
    Bounds, BytesError, Cvss, Error, Evaluation, Group, Message, MetricType, OneDecimal, Published,
    Rated, ReadError, Rejection, Scoring, Segment, SetError, Version, v2, v3, v4,
};
pub use cvss_laws::any::{
    errors_print_their_reasons, scores_are_unique, texts_denote_one_vector,
    texts_have_one_first_rejection,
};

/// Two vectors of any version, two metrics, what is published of two vectors, two choices of a score, or
/// two counts to be printed, are equal exactly if they are one value, and two errors exactly if they say the same.
pub fn equality_is_that_of_values()
    ensures vector { EqualsByValue ⟦<Cvss as PartialEq>⟧.eq }
    ensures metric { EqualsByValue ⟦<MetricType as PartialEq>⟧.eq }
    ensures published { EqualsByValue ⟦<Published as PartialEq>⟧.eq }
    ensures bounds { EqualsByValue ⟦<Bounds as PartialEq>⟧.eq }
    ensures scoring { EqualsByValue ⟦<Scoring as PartialEq>⟧.eq }
    ensures version { EqualsByValue ⟦<Version as PartialEq>⟧.eq }
    ensures decimal { EqualsByValue ⟦<OneDecimal as PartialEq>⟧.eq }
    ensures json { (x y : JsonError) → IsTrue (⟦<JsonError as PartialEq>⟧.eq x y)
        ↔ ReportTheSame x y }
    ensures bytes { (x y : BytesError) → IsTrue (⟦<BytesError as PartialEq>⟧.eq x y)
        ↔ of_bytes.ReportTheSame x y }
    ensures error { (x y : Error) → IsTrue (⟦<Error as PartialEq>⟧.eq x y) ↔ same.ReportTheSame x y }
{
    cvss_laws::base::equality_is_that_of_values();
    v2::laws::vectors_are_their_values();
    v3::laws::vectors_are_their_values();
    v4::laws::equality_is_that_of_values();
}

/// A clone of a vector, a metric, what is reported of its scores or a count is that value, and a clone of an
/// error says the same.
pub fn clones_are_equal()
    ensures vector { ClonesByValue ⟦<Cvss as Clone>⟧.is_clone }
    ensures metric { ClonesByValue ⟦<MetricType as Clone>⟧.is_clone }
    ensures published { ClonesByValue ⟦<Published as Clone>⟧.is_clone }
    ensures bounds { ClonesByValue ⟦<Bounds as Clone>⟧.is_clone }
    ensures scoring { ClonesByValue ⟦<Scoring as Clone>⟧.is_clone }
    ensures group { ClonesByValue ⟦<Group as Clone>⟧.is_clone }
    ensures rated { ClonesByValue ⟦<Rated as Clone>⟧.is_clone }
    ensures evaluation { ClonesByValue ⟦<Evaluation as Clone>⟧.is_clone }
    ensures decimal { ClonesByValue ⟦<OneDecimal as Clone>⟧.is_clone }
    ensures segment { ClonesByValue ⟦<Segment<'static> as Clone>⟧.is_clone }
    ensures message { ClonesByValue ⟦<Message<'static> as Clone>⟧.is_clone }
    ensures rejection { ClonesByValue ⟦<Rejection<'static> as Clone>⟧.is_clone }
    ensures read_error { ClonesByValue ⟦<ReadError<'static> as Clone>⟧.is_clone }
    ensures set_error { ClonesByValue ⟦<SetError<'static> as Clone>⟧.is_clone }
    ensures version { ClonesByValue ⟦<Version as Clone>⟧.is_clone }
    ensures json { (x clone : JsonError) → ⟦<JsonError as Clone>⟧.is_clone x clone
        → ReportTheSame x clone }
    ensures bytes { (x clone : BytesError) → ⟦<BytesError as Clone>⟧.is_clone x clone
        → of_bytes.ReportTheSame x clone }
    ensures error { (x clone : Error) → ⟦<Error as Clone>⟧.is_clone x clone
        → same.ReportTheSame x clone }
{
    cvss_laws::base::clones_are_equal();
}

/// To clone a vector, a metric, what is reported of its scores or a count takes no memory, so it is never
/// rejected.
pub fn values_are_cloned_without_memory()
    ensures vector { ClonesAlways ⟦<Cvss as Clone>⟧.is_infallible }
    ensures metric { ClonesAlways ⟦<MetricType as Clone>⟧.is_infallible }
    ensures published { ClonesAlways ⟦<Published as Clone>⟧.is_infallible }
    ensures bounds { ClonesAlways ⟦<Bounds as Clone>⟧.is_infallible }
    ensures scoring { ClonesAlways ⟦<Scoring as Clone>⟧.is_infallible }
    ensures group { ClonesAlways ⟦<Group as Clone>⟧.is_infallible }
    ensures rated { ClonesAlways ⟦<Rated as Clone>⟧.is_infallible }
    ensures evaluation { ClonesAlways ⟦<Evaluation as Clone>⟧.is_infallible }
    ensures decimal { ClonesAlways ⟦<OneDecimal as Clone>⟧.is_infallible }
    ensures segment { ClonesAlways ⟦<Segment<'static> as Clone>⟧.is_infallible }
    ensures message { ClonesAlways ⟦<Message<'static> as Clone>⟧.is_infallible }
    ensures rejection { ClonesAlways ⟦<Rejection<'static> as Clone>⟧.is_infallible }
    ensures read_error { ClonesAlways ⟦<ReadError<'static> as Clone>⟧.is_infallible }
    ensures set_error { ClonesAlways ⟦<SetError<'static> as Clone>⟧.is_infallible }
    ensures version { ClonesAlways ⟦<Version as Clone>⟧.is_infallible }
{}
