//! Where the surroundings of a record say otherwise than its vector: the names of the members that it
//! is in, and the severity and the sub-scores beside it.

ghost use Rattle.std.specs.Prelude.{◌≡◌, ◌&&◌, not, OnOk, option_map};
ghost use Rattle.cvss_audit.specs.Differences.{around_differences, has_severities, has_sub_scores, is_in, name_differences, names_of, nvd_names, outer_differences, part_differences, record_names, reports_version, severity_differences, severity_differences_at, severity_name, sub_score_differences};
ghost use Rattle.cvss_audit.specs.Locations.{around_view, is_among};
ghost use Rattle.cvss_audit.specs.private.Views.{Adds};
ghost use Rattle.serde_json.specs.View.{members_view};

use crate::disagreements::claim::Claim;
use crate::disagreements::difference::{Difference, Scored, push_at, push_name};
use crate::expected::sub_scores::SubScores;
use crate::locations::location::Around;
use cvss_report::severity_word;
use cvss_vector::Cvss;
use serde_json::{Map, Value};
use std::alloc::AllocError;

/// Adds the differences of what is around an object.
pub(crate) fn push_around<'a>(
    found: &mut Vec<Difference<'a>>,
    vector: Scored<'_>,
    parts: Option<SubScores>,
    around: Option<Around<'a>>,
) -> Result<(), AllocError>
    ensures { OnOk result (Adds found.old.items
        (around_differences vector.entry.cvss.now vector.entry.scores parts
        (option_map around_view around.entry)) found.new.items) }
{
    let Some(around) = around else {
        return Ok(());
    };
    push_version_name(found, vector.cvss, around.name)?;
    push_outer(found, vector.cvss, around.outer)?;
    push_severity(found, vector, around)?;
    push_sub_scores(found, parts, around)
}

/// Adds the name of a member, if it says another version than the vector's.
fn push_version_name<'a>(
    found: &mut Vec<Difference<'a>>,
    cvss: &Cvss,
    name: &'a str,
) -> Result<(), AllocError>
    ensures { OnOk result (Adds found.old.items (name_differences cvss.now name.now)
        found.new.items) }
{
    push_name(found, cvss, name, is_wrong(cvss, name))
}

/// The same of the member around, if there is one.
fn push_outer<'a>(
    found: &mut Vec<Difference<'a>>,
    cvss: &Cvss,
    outer: Option<&'a str>,
) -> Result<(), AllocError>
    ensures { OnOk result (Adds found.old.items
        (outer_differences cvss.now (option_map (λ name. name.now) outer.entry)) found.new.items) }
{
    match outer {
        Some(name) => push_version_name(found, cvss, name),
        None => Ok(()),
    }
}

/// Whether a member of this name says another version than the vector's.
fn is_wrong(cvss: &Cvss, name: &str) -> bool
    ensures { result ≡ reports_version name.now
        && not (is_among name.now (names_of cvss.now)) }
{
    reports_version(name) && !reports_version_of(cvss, name)
}

/// Whether a member of this name says the version of what it holds.
fn reports_version(name: &str) -> bool
    ensures { result ≡ reports_version name.now }
{
    is_record_name(name) || is_nvd_name(name)
}

/// As CVE records, CSAF and GitHub have it.
fn is_record_name(name: &str) -> bool
    ensures { result ≡ is_among name.now record_names }
{
    matches!(
        name,
        "cvssV2_0" | "cvssV3_0" | "cvssV3_1" | "cvssV4_0" | "cvss_v2" | "cvss_v3" | "cvss_v4"
    )
}

/// As NVD has it in its API, and in the feeds before that.
fn is_nvd_name(name: &str) -> bool
    ensures { result ≡ is_among name.now nvd_names }
{
    matches!(
        name,
        "cvssMetricV2"
            | "cvssMetricV30"
            | "cvssMetricV31"
            | "cvssMetricV40"
            | "cvssV2"
            | "cvssV3"
            | "baseMetricV2"
            | "baseMetricV3"
    )
}

/// Whether a member of this name says the vector's version.
fn reports_version_of(cvss: &Cvss, name: &str) -> bool
    ensures { result ≡ is_among name.now (names_of cvss.now) }
{
    match cvss {
        Cvss::CvssV20(_) => matches!(
            name,
            "cvssV2_0" | "cvss_v2" | "cvssMetricV2" | "cvssV2" | "baseMetricV2"
        ),
        Cvss::CvssV30(_) => matches!(
            name,
            "cvssV3_0" | "cvss_v3" | "cvssMetricV30" | "cvssV3" | "baseMetricV3"
        ),
        Cvss::CvssV31(_) => matches!(
            name,
            "cvssV3_1" | "cvss_v3" | "cvssMetricV31" | "cvssV3" | "baseMetricV3"
        ),
        Cvss::CvssV40(_) => matches!(name, "cvssV4_0" | "cvss_v4" | "cvssMetricV40"),
    }
}

/// Adds the difference of the severity that NVD says of a vector of CVSS v2 beside its record, if it is
/// another one than that of its score.
fn push_severity<'a>(
    found: &mut Vec<Difference<'a>>,
    vector: Scored<'_>,
    around: Around<'a>,
) -> Result<(), AllocError>
    ensures { OnOk result (Adds found.old.items
        (severity_differences vector.entry.cvss.now vector.entry.scores.base
        (around_view around.entry)) found.new.items) }
{
    if has_severities(vector.cvss) {
        return Ok(());
    }
    push_severity_at(found, vector, severity_name(around), around.object)
}

/// Adds the difference of the severity of a vector's score from what the member of this name, if there
/// is one, says.
fn push_severity_at<'a>(
    found: &mut Vec<Difference<'a>>,
    vector: Scored<'_>,
    name: Option<&'static str>,
    object: &'a Map<String, Value>,
) -> Result<(), AllocError>
    ensures { OnOk result (Adds found.old.items
        (severity_differences_at vector.entry.cvss.now vector.entry.scores.base
        (option_map (λ name. name.now) name.entry) (members_view object.now.entries)) found.new.items) }
{
    let Some(name) = name else {
        return Ok(());
    };
    let claim = Claim::Text(severity_word(vector.cvss, vector.scores.base));
    push_at(found, name, claim, object)
}

/// The member in which NVD says the severity of a vector of CVSS v2 beside the vector: in its API, and
/// in the feeds before that.
fn severity_name(around: Around<'_>) -> Option<&'static str>
    ensures { option_map (λ name. name.now) result ≡ severity_name (around_view around.entry) }
{
    if around.name == "cvssData" {
        Some("baseSeverity")
    } else if is_in(around, "baseMetricV2") {
        Some("severity")
    } else {
        None
    }
}

/// Whether the object around a record is the member of this name.
fn is_in(around: Around<'_>, name: &str) -> bool
    ensures { result ≡ is_in name.now (around_view around.entry) }
{
    match around.outer {
        Some(outer) => outer == name,
        None => false,
    }
}

/// Whether records of the vector's version have severities.
fn has_severities(cvss: &Cvss) -> bool
    ensures { result ≡ has_severities cvss.now }
{
    !matches!(cvss, Cvss::CvssV20(_))
}

/// Adds the differences of the sub-scores that NVD says beside a record.
fn push_sub_scores<'a>(
    found: &mut Vec<Difference<'a>>,
    parts: Option<SubScores>,
    around: Around<'a>,
) -> Result<(), AllocError>
    ensures { OnOk result (Adds found.old.items
        (sub_score_differences parts (around_view around.entry)) found.new.items) }
{
    if has_sub_scores(around) {
        push_parts(found, parts, around.object)
    } else {
        Ok(())
    }
}

/// Whether NVD says the sub-scores of a vector there.
fn has_sub_scores(around: Around<'_>) -> bool
    ensures { result ≡ has_sub_scores (around_view around.entry) }
{
    around.name == "cvssData" || is_in(around, "baseMetricV2") || is_in(around, "baseMetricV3")
}

/// Adds the differences of the sub-scores that an object says beside each other.
pub(crate) fn push_parts<'a>(
    found: &mut Vec<Difference<'a>>,
    parts: Option<SubScores>,
    object: &'a Map<String, Value>,
) -> Result<(), AllocError>
    ensures { OnOk result (Adds found.old.items
        (part_differences parts (members_view object.now.entries)) found.new.items) }
{
    let Some(parts) = parts else {
        return Ok(());
    };
    push_at(
        found,
        "exploitabilityScore",
        Claim::Number(parts.exploitability),
        object,
    )?;
    push_at(
        found,
        "impactScore",
        Claim::Impact(parts.impact, parts.is_below_zero),
        object,
    )
}
