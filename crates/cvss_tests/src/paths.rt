//! Tests that each public item is at its path.

use crate::values::{Tried, are_equal};
use cvss::json::{JsonError, JsonText};
use cvss::{Cvss, Error, Metrics, ONE, PREFIX, Severity, v2, v3, v4};
use serde_json::Value;

#[test]
fn rejections_of_the_root(rt: HostRuntime) {
    let rejected: Result<Cvss, Error> = Cvss::from_str(rt.alloc(), PREFIX);
    assert!(rt; matches!(&rejected, Err(Error::InvalidComponent { .. })));
}

#[test]
fn values_of_the_root(rt: HostRuntime) -> Tried {
    let value: Result<Value, JsonError> = Severity::Low.to_value(rt.alloc());
    assert!(rt; value?.as_str() == Some("low"));
    Ok(())
}

#[test]
fn lists_of_each_version(rt: HostRuntime) {
    let of_v2: v2::Metrics = v2::Vector::default().metrics();
    let of_v3: v3::Metrics = v3::Vector::default().metrics();
    let of_v4: v4::Metrics = v4::Vector::default().metrics();
    assert!(rt; Metrics::V2(of_v2).next().is_none());
    assert!(rt; Metrics::V3(of_v3).next().is_none());
    assert!(rt; Metrics::V4(of_v4).next().is_none());
}

#[test]
fn scores_of_each_version(rt: HostRuntime) {
    let rows = [
        (v2::Score::new(ONE).value(), ONE),
        (v3::Score::new(ONE).value(), ONE),
        (v4::Score::new(ONE, v4::Nomenclature::CvssB).value(), ONE),
    ];
    are_equal(&rt, &rows);
}
