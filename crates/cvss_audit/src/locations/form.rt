//! How objects hold vectors.

ghost use Rattle.std.specs.Prelude.{◌≡◌, codes, option_map};
ghost use Rattle.cvss_audit.specs.Locations.{around_view, begins_as_vector, begins_with, has_cvss_method, has_string, is_cvss_method, is_cvss_rating, is_like_vector, is_meant, is_named, is_opening, is_osv, is_osv_type, is_prefixed, osv_score, rating_vector, vector_as, vector_at};
ghost use Rattle.serde_json.specs.View.{members_view, view};

use crate::locations::location::Around;
use crate::locations::member::{given_at, object_at, text_at};
use serde_json::{Map, Value};

/// How an object holds a vector.
#[derive(Clone, Copy, Debug, PartialEq, Eq)]
pub enum Form {
    /// As `vectorString`, beside the members of FIRST's schemas.
    Record,
    /// As `vector_string`, beside `score`, as GitHub's advisories do.
    GitHub,
    /// As `score`, beside a `type` that is `CVSS_V2`, `CVSS_V3` or `CVSS_V4`, as OSV's records do.
    Osv,
    /// As `vector`, beside `method`, `score` and `severity`, as CycloneDX's ratings do, or beside
    /// `version` and `metrics`, as grype does.
    Rating,
    /// As `V2Vector`, beside `V2Score`, as Trivy does.
    TrivyV2,
    /// As `V3Vector`, beside `V3Score`, as Trivy does.
    TrivyV3,
    /// As `V40Vector`, beside `V40Score`, as Trivy does.
    TrivyV40,
    /// As `cvss` in a member `advisory`, as RustSec's advisories do, which `cargo audit` prints.
    RustSec,
    /// As `security_vectorString`, beside `security_score` and `security_severity`, as SPDX 3 does.
    Spdx,
}

/// All forms, in the order in which an object is looked at.
pub(crate) const FORMS: &[Form] = &[
    Form::Record,
    Form::GitHub,
    Form::Osv,
    Form::Rating,
    Form::TrivyV2,
    Form::TrivyV3,
    Form::TrivyV40,
    Form::RustSec,
    Form::Spdx,
];

/// The text of the vector that an object holds in a form: none inside where there is no string.
pub(crate) fn vector_as<'a>(
    around: Option<Around<'_>>,
    members: &'a Map<String, Value>,
    form: Form,
) -> Option<Option<&'a str>>
    ensures { option_map (λ found. option_map (λ text. text.now) found) result
        ≡ vector_as (option_map around_view around.entry) (members_view members.now.entries) form }
{
    match form {
        Form::Record => vector_at(members, "vectorString"),
        Form::GitHub => vector_at(members, "vector_string"),
        Form::Osv if has_string(members) => Some(Some(osv_score(members)?.as_str()?)),
        Form::Osv => Some(osv_score(members)?.as_str()),
        Form::Rating => Some(rating_vector(members)?.as_str()),
        Form::TrivyV2 => vector_at(members, "V2Vector"),
        Form::TrivyV3 => vector_at(members, "V3Vector"),
        Form::TrivyV40 => vector_at(members, "V40Vector"),
        Form::RustSec if is_named(around, "advisory") => Some(Some(text_at(members, "cvss")?)),
        Form::RustSec => None,
        Form::Spdx => vector_at(members, "security_vectorString"),
    }
}

/// The text of the vector that the member with this name should be, if it is there.
fn vector_at<'a>(members: &'a Map<String, Value>, name: &str) -> Option<Option<&'a str>>
    ensures { option_map (λ found. option_map (λ text. text.now) found) result
        ≡ vector_at name.now (members_view members.now.entries) }
{
    Some(given_at(members, name)?.as_str())
}

/// Whether an object holds a vector in another form than OSV's, so that its `score` may be the number
/// that belongs to it.
fn has_string(members: &Map<String, Value>) -> bool
    ensures { result ≡ has_string (members_view members.now.entries) }
{
    given_at(members, "vectorString").is_some() || given_at(members, "vector_string").is_some()
}

/// The score of CVSS beside a type, as OSV has it.
fn osv_score(members: &Map<String, Value>) -> Option<&Value>
    ensures { option_map (λ value. view value.now) result
        ≡ osv_score (members_view members.now.entries) }
{
    let reported = text_at(members, "type")?;
    let score = given_at(members, "score")?;
    if is_osv(reported, score) {
        Some(score)
    } else {
        None
    }
}

/// Whether a type or the score beside it says that it is CVSS's.
fn is_osv(reported: &str, score: &Value) -> bool
    ensures { result ≡ is_osv reported.now (view score.now) }
{
    is_osv_type(reported) || is_prefixed(score)
}

fn is_osv_type(reported: &str) -> bool
    ensures { result ≡ is_osv_type reported.now }
{
    reported == "CVSS_V2" || reported == "CVSS_V3" || reported == "CVSS_V4"
}

/// The vector of a rating, as CycloneDX and grype have it.
fn rating_vector(members: &Map<String, Value>) -> Option<&Value>
    ensures { option_map (λ value. view value.now) result
        ≡ rating_vector (members_view members.now.entries) }
{
    given_at(members, "vector").filter(|vector| is_cvss_rating(members, vector))
}

/// Whether a vector with this value is one of CVSS.
fn is_cvss_rating(members: &Map<String, Value>, vector: &Value) -> bool
    ensures { result ≡ is_cvss_rating (members_view members.now.entries) (view vector.now) }
{
    if given_at(members, "method").is_some() {
        return has_cvss_method(members);
    }
    object_at(members, "metrics").is_some() || is_meant(vector)
}

fn has_cvss_method(members: &Map<String, Value>) -> bool
    ensures { result ≡ has_cvss_method (members_view members.now.entries) }
{
    match text_at(members, "method") {
        Some(method) => is_cvss_method(method),
        None => false,
    }
}

fn is_cvss_method(method: &str) -> bool
    ensures { result ≡ is_cvss_method method.now }
{
    begins_with_name(method.as_bytes())
}

/// Whether a value is a text that was meant as a vector.
fn is_meant(value: &Value) -> bool
    ensures { result ≡ is_meant (view value.now) }
{
    match value.as_str() {
        Some(text) => is_like_vector(text.as_bytes()),
        None => false,
    }
}

/// Whether a text begins as vectors do, or does so after a space, a parenthesis or a bracket.
fn is_like_vector(text: &[u8]) -> bool
    ensures { result ≡ is_like_vector text.now }
{
    match text {
        [first, rest @ ..] => begins_as_vector(text)
            || is_opening(*first) && begins_as_vector(rest),
        [] => false,
    }
}

fn is_opening(byte: u8) -> bool
    ensures { result ≡ is_opening byte }
{
    matches!(byte, b' ' | b'(' | b'[')
}

/// Whether a text begins as vectors do, in any ASCII case.
fn begins_as_vector(text: &[u8]) -> bool
    ensures { result ≡ begins_as_vector text.now }
{
    begins_with_name(text) || begins_with_metric(text)
}

/// Whether a text begins with `CVSS`, in any ASCII case.
fn begins_with_name(text: &[u8]) -> bool
    ensures { result ≡ begins_with (codes "CVSS") text.now }
{
    matches!(
        text,
        [b'C' | b'c', b'V' | b'v', b'S' | b's', b'S' | b's', ..]
    )
}

fn begins_with_metric(text: &[u8]) -> bool
    ensures { result ≡ begins_with (codes "AV:") text.now }
{
    matches!(text, [b'A' | b'a', b'V' | b'v', b':', ..])
}

/// Whether a value is a text with the prefix of CVSS v3 and v4.
fn is_prefixed(value: &Value) -> bool
    ensures { result ≡ is_prefixed (view value.now) }
{
    match value.as_str() {
        Some(text) => text.as_bytes().starts_with(b"CVSS:"),
        None => false,
    }
}

/// Whether an object is the member of this name.
fn is_named(around: Option<Around<'_>>, name: &str) -> bool
    ensures { result ≡ is_named name.now (option_map around_view around.entry) }
{
    match around {
        Some(around) => around.name == name,
        None => false,
    }
}
