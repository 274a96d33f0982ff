//! Tests of errors and severities that no text gives, and of constants.

use crate::values::{Tried, are_printed};
use cvss::{BytesError, Error, LIMIT, ONE, PREFIX, Severity, v4};

#[test]
fn errors_are_printed(rt: HostRuntime) -> Tried {
    let alloc = rt.alloc();
    let name = String::from_str(alloc, "lowest")?;
    let nomenclature = String::from_str(alloc, "cvss-b")?;
    let rows = [
        (
            "invalid CVSS Qualitative Severity Rating: `lowest`",
            Error::InvalidSeverity { name },
        ),
        (
            "invalid CVSSv4 nomenclature: `cvss-b`",
            Error::InvalidNomenclatureV4 { nomenclature },
        ),
        ("out of memory", Error::OutOfMemory),
    ];
    are_printed(&rt, alloc, &rows)
}

#[test]
fn errors_of_bytes_are_printed(rt: HostRuntime) -> Tried {
    let alloc = rt.alloc();
    let component = String::from_str(alloc, "AV")?;
    let metric_type = v4::MetricType::AV;
    let rows = [
        ("not UTF-8", BytesError::NotUtf8),
        ("out of memory", BytesError::Invalid(Error::OutOfMemory)),
        (
            "invalid CVSS metric group component: `AV`",
            BytesError::Invalid(Error::InvalidComponent { component }),
        ),
        (
            "duplicate CVSSv4 AV (Attack Vector) metric",
            BytesError::Invalid(Error::DuplicateMetricV4 { metric_type }),
        ),
    ];
    are_printed(&rt, alloc, &rows)
}

#[test]
fn severities_are_in_order(rt: HostRuntime) {
    assert!(rt; Severity::None < Severity::Low && Severity::Low < Severity::Medium);
    assert!(rt; Severity::Medium < Severity::High && Severity::High < Severity::Critical);
    assert!(rt; Severity::Critical.as_str() == "critical");
}

#[test]
fn constants(rt: HostRuntime) {
    assert!(rt; PREFIX == "CVSS");
    assert!(rt; ONE == 10i128.pow(24) && LIMIT == 10i128.pow(30));
}
