//! Where ratings of CycloneDX, grype, Trivy and SPDX 3 disagree with the vector in them.

ghost use Rattle.std.specs.Prelude.{◌≡◌, OnOk, codes, false, option_map, unwrap_or};
ghost use Rattle.cvss_audit.specs.Differences.{claim_view, given_rating_differences, is_spdx_type, method_of, metrics_differences, severity, severity_text_of, spdx_differences, spdx_type, spdx_type_differences, trivy_differences, trivy_name};
ghost use Rattle.cvss_audit.specs.private.Views.{Adds};
ghost use Rattle.cvss_audit.specs.Locations.{text_at};
ghost use Rattle.serde_json.specs.View.{members_view};

use crate::disagreements::claim::Claim;
use crate::disagreements::difference::{Difference, Scored, push_at, push_name};
use crate::disagreements::surroundings::push_parts;
use crate::expected::sub_scores::SubScores;
use crate::locations::member::{object_at, text_at};
use cvss_base::TENTH;
use cvss_vector::Cvss;
use serde_json::{Map, Value};
use std::alloc::AllocError;

/// Adds the differences of a rating, as CycloneDX and grype have it.
pub(crate) fn push_rating_members<'a>(
    found: &mut Vec<Difference<'a>>,
    vector: Scored<'_>,
    parts: Option<SubScores>,
    object: &'a Map<String, Value>,
) -> Result<(), AllocError>
    ensures { OnOk result (Adds found.old.items
        (given_rating_differences vector.entry.cvss.now vector.entry.scores parts
        (members_view object.now.entries)) found.new.items) }
{
    push_at(found, "method", Claim::Text(method_of(vector.cvss)), object)?;
    push_metrics(found, vector, parts, object_at(object, "metrics"))?;
    push_at(found, "score", Claim::Number(vector.scores.base), object)?;
    push_at(found, "severity", severity(vector), object)?;
    let version = Claim::Text(vector.cvss.version().as_str());
    push_at(found, "version", version, object)
}

/// Adds the differences of the base score and the sub-scores in `metrics`, as grype has them.
fn push_metrics<'a>(
    found: &mut Vec<Difference<'a>>,
    vector: Scored<'_>,
    parts: Option<SubScores>,
    metrics: Option<&'a Map<String, Value>>,
) -> Result<(), AllocError>
    ensures { OnOk result (Adds found.old.items
        (metrics_differences vector.entry.scores parts
        (option_map (λ object. members_view object.now.entries) metrics.entry)) found.new.items) }
{
    let Some(metrics) = metrics else {
        return Ok(());
    };
    push_at(
        found,
        "baseScore",
        Claim::Number(vector.scores.base),
        metrics,
    )?;
    push_parts(found, parts, metrics)
}

/// The method that CycloneDX gives a rating by a vector.
fn method_of(cvss: &Cvss) -> &'static str
    ensures { result.now ≡ method_of cvss.now }
{
    match cvss {
        Cvss::CvssV20(_) => "CVSSv2",
        Cvss::CvssV30(_) => "CVSSv3",
        Cvss::CvssV31(_) => "CVSSv31",
        Cvss::CvssV40(_) => "CVSSv4",
    }
}

/// Adds the differences of a vector and its score, as Trivy has them in members of these names: the
/// score's, and the vector's, which says the version.
pub(crate) fn push_trivy<'a>(
    found: &mut Vec<Difference<'a>>,
    vector: Scored<'_>,
    names: (&'a str, &'a str),
    object: &'a Map<String, Value>,
) -> Result<(), AllocError>
    ensures { OnOk result (Adds found.old.items
        (trivy_differences vector.entry.cvss.now vector.entry.scores names.entry.0.now names.entry.1.now
        (members_view object.now.entries)) found.new.items) }
{
    push_at(found, names.0, Claim::Number(vector.scores.base), object)?;
    push_name(
        found,
        vector.cvss,
        names.1,
        names.1 != trivy_name(vector.cvss),
    )
}

/// The member in which Trivy gives a vector.
fn trivy_name(cvss: &Cvss) -> &'static str
    ensures { result.now ≡ trivy_name cvss.now }
{
    match cvss {
        Cvss::CvssV20(_) => "V2Vector",
        Cvss::CvssV30(_) | Cvss::CvssV31(_) => "V3Vector",
        Cvss::CvssV40(_) => "V40Vector",
    }
}

/// Adds the differences of a score, a severity and a type, as SPDX 3 has them.
pub(crate) fn push_spdx<'a>(
    found: &mut Vec<Difference<'a>>,
    vector: Scored<'_>,
    object: &'a Map<String, Value>,
) -> Result<(), AllocError>
    ensures { OnOk result (Adds found.old.items
        (spdx_differences vector.entry.cvss.now vector.entry.scores
        (members_view object.now.entries)) found.new.items) }
{
    push_at(
        found,
        "security_score",
        Claim::Number(vector.scores.base),
        object,
    )?;
    push_at(found, "security_severity", severity(vector), object)?;
    push_spdx_type(found, vector.cvss, object)
}

/// Adds the difference of the type, if it is one that says a version of CVSS.
fn push_spdx_type<'a>(
    found: &mut Vec<Difference<'a>>,
    cvss: &Cvss,
    object: &'a Map<String, Value>,
) -> Result<(), AllocError>
    ensures { OnOk result (Adds found.old.items
        (spdx_type_differences cvss.now (members_view object.now.entries)) found.new.items) }
{
    if has_spdx_type(object) {
        return push_at(found, "type", Claim::Text(spdx_type(cvss)), object);
    }
    Ok(())
}

fn has_spdx_type(object: &Map<String, Value>) -> bool
    ensures { result ≡ unwrap_or (option_map is_spdx_type
        (text_at (codes "type") (members_view object.now.entries))) false }
{
    match text_at(object, "type") {
        Some(reported) => is_spdx_type(reported),
        None => false,
    }
}

fn is_spdx_type(reported: &str) -> bool
    ensures { result ≡ is_spdx_type reported.now }
{
    reported == "security_CvssV2VulnAssessmentRelationship"
        || reported == "security_CvssV3VulnAssessmentRelationship"
        || reported == "security_CvssV4VulnAssessmentRelationship"
}

/// The type that SPDX 3 gives an assessment by a vector.
fn spdx_type(cvss: &Cvss) -> &'static str
    ensures { result.now ≡ spdx_type cvss.now }
{
    match cvss {
        Cvss::CvssV20(_) => "security_CvssV2VulnAssessmentRelationship",
        Cvss::CvssV30(_) | Cvss::CvssV31(_) => "security_CvssV3VulnAssessmentRelationship",
        Cvss::CvssV40(_) => "security_CvssV4VulnAssessmentRelationship",
    }
}

/// The severity of the score that a record says of a vector, in lower case.
fn severity(vector: Scored<'_>) -> Claim
    ensures { claim_view result
        ≡ severity (severity_text_of vector.entry.cvss.now vector.entry.scores.base) }
{
    let score = i128::from(vector.scores.base) * TENTH;
    Claim::Severity(vector.cvss.severity_of(score).as_str())
}
