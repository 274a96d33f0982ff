//! What each member of a record should say of a vector.

ghost use Rattle.std.specs.Prelude.{◌≡◌, option_map, IfOk};
ghost use Rattle.cvss_audit.specs.Expected.{agrees, expected_at, expected_of_other, expected_of_own, expected_value, is_metric, is_metric_v2, is_metric_v3, is_metric_v4, is_optional};
ghost use Rattle.cvss_report.specs.Record.{expected_view};
ghost use Rattle.serde_json.specs.View.{view};

use crate::expected::scores::{score_number, score_value};
use cvss_report::names::NOT_DEFINED;
use cvss_report::{Expected, Field, Scores, expected_of, fields_of, has_member, names};
use cvss_text::walk::Components;
use cvss_vector::{Cvss, v2, v3, v4};
use serde_json::Value;
use std::alloc::{AllocError, Global};

/// What the member of this name should say of a vector in place of this: what the version's records
/// say, or, if it is a metric's in the records of another version, nothing.
pub(crate) fn expected_at(
    cvss: &Cvss,
    scores: &Scores,
    name: &str,
    said: &Value,
) -> Option<Expected>
    ensures { option_map expected_view result
        ≡ expected_at cvss.now scores.now name.now (view said.now) }
{
    for field in fields_of(cvss) {
        if field.name() == name {
            return expected_of_own(cvss, scores, said, *field);
        }
    }
    expected_of_other(name, said)
}

/// What a member that the version's records have should say, unless it is null and need not be there.
fn expected_of_own(cvss: &Cvss, scores: &Scores, said: &Value, field: Field) -> Option<Expected>
    ensures { option_map expected_view result
        ≡ expected_of_own cvss.now scores.now (view said.now) field }
{
    if is_optional(cvss, field) && said.is_null() {
        return None;
    }
    expected_of(cvss, scores, field)
}

/// Whether a record need not have a member: the version, which the vector says too, or a score or a
/// severity of a group of which the vector has no metric.
fn is_optional(cvss: &Cvss, field: Field) -> bool
    ensures { result ≡ is_optional cvss.now field }
{
    match field {
        Field::Version => true,
        _ => !has_member(cvss, field),
    }
}

/// What a member should say that the version's records do not have: nothing, if it is a metric's in
/// those of another version and says a text.
fn expected_of_other(name: &str, said: &Value) -> Option<Expected>
    ensures { option_map expected_view result ≡ expected_of_other name.now (view said.now) }
{
    if is_metric(name) && said.is_string() {
        Some(Expected::Nothing)
    } else {
        None
    }
}

/// Whether the member of this name is a metric's in the records of some version.
fn is_metric(name: &str) -> bool
    ensures { result ≡ is_metric name.now }
{
    is_metric_v2(name) || is_metric_v3(name) || is_metric_v4(name)
}

fn is_metric_v2(name: &str) -> bool
    ensures { result ≡ is_metric_v2 name.now }
{
    v2::Vector::printed()
        .iter()
        .any(|kind| names::v2::entry(*kind).0 == name)
}

fn is_metric_v3(name: &str) -> bool
    ensures { result ≡ is_metric_v3 name.now }
{
    v3::Vector::printed()
        .iter()
        .any(|kind| names::v3::entry(*kind).0 == name)
}

fn is_metric_v4(name: &str) -> bool
    ensures { result ≡ is_metric_v4 name.now }
{
    v4::Vector::printed()
        .iter()
        .any(|kind| names::v4::entry(*kind).0 == name)
}

/// Whether a value says what it should.
pub(crate) fn agrees(expected: Expected, said: &Value) -> bool
    ensures { result ≡ agrees (expected_view expected) (view said.now) }
{
    match expected {
        Expected::Text(text) => said.as_str() == Some(text),
        Expected::Score(tenths) => said.as_f64() == Some(score_number(tenths)),
        Expected::Nothing => said.is_null() || said.as_str() == Some(NOT_DEFINED),
    }
}

/// The value that would agree, or null where none is expected.
pub(crate) fn expected_value(expected: Expected, alloc: Global) -> Result<Value, AllocError>
    ensures { IfOk result (λ value. view value ≡ expected_value (expected_view expected)) }
{
    match expected {
        Expected::Text(text) => Value::try_from_str(alloc, text),
        Expected::Score(tenths) => Ok(score_value(tenths)),
        Expected::Nothing => Ok(Value::Null),
    }
}
