//! Tests of triage: how rejections are printed.

use crate::values::{Tried, are_printed};
use cvss::Error;
use cvss::v4::{MetricType, OverrideError};
use cvss_vector::v4::triage::TriageError;

/// That a text lacks AC.
const INCOMPLETE: Error = Error::MissingMandatoryMetricV4 {
    metric_type: MetricType::AC,
};

#[test]
fn rejections_of_triage_are_printed(rt: HostRuntime) -> Tried {
    let rows = [
        (
            "override 0: no environmental CVSSv4 metric",
            TriageError::NotEnvironmental { index: 0 },
        ),
        (
            "override 1: no environmental CVSSv4 metric",
            TriageError::NotEnvironmental { index: 1 },
        ),
        (
            "text 0: missing mandatory CVSSv4 AC (Attack Complexity) metric",
            TriageError::Text {
                index: 0,
                error: INCOMPLETE,
            },
        ),
        (
            "override 0: missing mandatory CVSSv4 AC (Attack Complexity) metric",
            TriageError::Override {
                index: 0,
                error: INCOMPLETE,
            },
        ),
        ("out of memory", TriageError::OutOfMemory),
    ];
    are_printed(&rt, rt.alloc(), &rows)
}

#[test]
fn rejections_of_overrides_are_printed(rt: HostRuntime) -> Tried {
    let rows = [
        (
            "override 0: no environmental CVSSv4 metric",
            OverrideError::NotEnvironmental { index: 0 },
        ),
        (
            "override 0: missing mandatory CVSSv4 AC (Attack Complexity) metric",
            OverrideError::Rejected {
                index: 0,
                error: INCOMPLETE,
            },
        ),
        (
            "override 1: missing mandatory CVSSv4 AC (Attack Complexity) metric",
            OverrideError::Rejected {
                index: 1,
                error: INCOMPLETE,
            },
        ),
    ];
    are_printed(&rt, rt.alloc(), &rows)
}
