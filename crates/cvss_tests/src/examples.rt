//! Tests that run the examples.

use crate::values::{Tried, are_equal};
use cvss::v3::metric::environmental::Modified;
use cvss::{Cvss, ONE, Severity};
use cvss_examples::advisory::advisory;
use cvss_examples::audit::count_findings;
use cvss_examples::json::{converted_and_back, text_of, value_of, written_and_read};
use cvss_examples::own_metric::{Participation, read_modified};
use serde_json::Value;
use std::alloc::Global;
use std::process::Abort;

/// What is audited: two of the texts are rejected.
const AUDITED: [&str; 8] = [
    "CVSS:3.1/AV:N/AC:L/PR:N/UI:N/S:U/C:H/I:H/A:H",
    "CVSS:4.0/AV:N/AC:L/AT:N/PR:L/UI:N/VC:H/VI:H/VA:H/SC:N/SI:N/SA:N",
    "garbage",
    "AV:N/AC:L/Au:N/C:N/I:N/A:C",
    "CVSS:4.0/AV:A/AC:H/AT:N/PR:N/UI:N/VC:H/VI:H/VA:N/SC:N/SI:N/SA:N/E:U/CR:H/IR:L/AR:L",
    "AV:N/AC:L/Au:N/C:N/I:N/A:N",
    "CVSS:3.1",
    "CVSS:3.1/av:n/s:c",
];

/// How many of the audited texts are rated so, or higher.
const FINDINGS: [(Severity, usize); 5] = [
    (Severity::None, 6),
    (Severity::Low, 5),
    (Severity::Medium, 4),
    (Severity::High, 3),
    (Severity::Critical, 1),
];

#[test]
fn audits_texts_of_all_versions(rt: HostRuntime) {
    for (level, findings) in &FINDINGS {
        let audit = count_findings(&AUDITED, *level);
        assert!(rt; audit.findings == *findings && audit.rejected == 2);
    }
}

/// Texts with what an advisory says of each.
const ADVISORIES: [(&str, &str); 4] = [
    (
        "A:C/I:N/C:N/Au:N/AC:L/AV:N",
        "AV:N/AC:L/Au:N/C:N/I:N/A:C: 7.8 (high)",
    ),
    ("CVSS:3.1/av:n/s:c", "CVSS:3.1/AV:N/S:C: 0.0 (none)"),
    (
        "CVSS:4.0/AV:N/AC:L/AT:N/PR:N/UI:N/VC:H/VI:H/VA:H/SC:H/SI:H/SA:H",
        "CVSS:4.0/AV:N/AC:L/AT:N/PR:N/UI:N/VC:H/VI:H/VA:H/SC:H/SI:H/SA:H: 10.0 (critical)",
    ),
    (
        "garbage",
        "no vector: invalid CVSS metric group component: `garbage`",
    ),
];

#[test]
fn reports_the_vector_or_the_reason(rt: HostRuntime) -> Tried {
    for (text, reported) in &ADVISORIES {
        assert!(rt; advisory(rt.alloc(), text)?.as_str() == *reported, "{text}");
    }
    Ok(())
}

/// Writes a text's vector as a JSON value, and the value as a text.
fn passes(rt: &impl Abort, alloc: Global, text: &str, canonical: &str) -> Tried {
    let value = value_of(alloc, text)?;
    stands_for(rt, alloc, &value, canonical)
}

/// Compares the text of a JSON value, which is the vector's too.
fn stands_for(rt: &impl Abort, alloc: Global, value: &Value, canonical: &str) -> Tried {
    assert!(rt; matches!(value.as_str(), Some(text) if text == canonical));
    assert!(rt; text_of(alloc, value)?.as_str() == canonical, "{canonical}");
    Ok(())
}

/// Converts a text and its vector to JSON values and back.
fn comes_back(rt: &impl Abort, alloc: Global, text: &str, canonical: &str) -> Tried {
    assert!(rt;
        converted_and_back(alloc, text)?.as_str() == canonical,
        "{text}"
    );
    is_given_back(rt, alloc, &Cvss::from_str(alloc, text)?)
}

/// Writes a vector as a JSON value and reads it back.
fn is_given_back(rt: &impl Abort, alloc: Global, cvss: &Cvss) -> Tried {
    assert!(rt; written_and_read(alloc, cvss)? == *cvss);
    Ok(())
}

/// Texts with the canonical text of each.
const CANONICAL: [(&str, &str); 3] = [
    ("A:C/I:N/C:N/Au:N/AC:L/AV:N", "AV:N/AC:L/Au:N/C:N/I:N/A:C"),
    ("CVSS:3.1/MA:N/CR:H/AV:N", "CVSS:3.1/AV:N/CR:H/MA:N"),
    (
        "CVSS:4.0/u:red/sa:n/si:n/sc:n/va:n/vi:l/vc:l/ui:n/pr:h/at:n/ac:l/av:n",
        "CVSS:4.0/AV:N/AC:L/AT:N/PR:H/UI:N/VC:L/VI:L/VA:N/SC:N/SI:N/SA:N/U:Red",
    ),
];

#[test]
fn texts_pass_through_json_values(rt: HostRuntime) -> Tried {
    for (text, canonical) in &CANONICAL {
        passes(&rt, rt.alloc(), text, canonical)?;
        comes_back(&rt, rt.alloc(), text, canonical)?;
    }
    Ok(())
}

#[test]
fn own_metrics_are_modified(rt: HostRuntime) {
    let rows = [
        (read_modified("X"), Some(Modified::NotDefined)),
        (
            read_modified("N"),
            Some(Modified::Modified(Participation::Unneeded)),
        ),
        (read_modified("H"), None),
    ];
    are_equal(&rt, &rows);
    let weight = Modified::NotDefined.modified_score(Some(Participation::Needed));
    assert!(rt; weight == 62 * (ONE / 100));
}
