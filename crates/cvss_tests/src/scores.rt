//! Tests of scores as types: conversions, defaults and orders.

use crate::values::Tried;
use cvss::v4::Nomenclature;
use cvss::{ONE, Severity, v2, v3, v4};

/// Counts of scores: the least, a rating's bound, the greatest.
const COUNTS: [i128; 3] = [i128::MIN, 4 * ONE, i128::MAX];

#[test]
fn scores_of_v2_are_counts(rt: HostRuntime) {
    for count in &COUNTS {
        let score = v2::Score::from(*count);
        assert!(rt; score == v2::Score::new(*count) && i128::from(score) == *count);
        assert!(rt; Severity::from(score) == score.severity());
    }
    assert!(rt; v2::Score::default().value() == 0);
    assert!(rt; v2::Score::new(-1) < v2::Score::default());
}

#[test]
fn scores_of_v3_are_counts(rt: HostRuntime) {
    for count in &COUNTS {
        let score = v3::Score::from(*count);
        assert!(rt; score == v3::Score::new(*count) && i128::from(score) == *count);
        assert!(rt; Severity::from(score) == score.severity());
    }
    assert!(rt; v3::Score::default().value() == 0);
    assert!(rt; v3::Score::new(1) < v3::Score::new(2));
}

#[test]
fn scores_of_v4_are_counts(rt: HostRuntime) -> Tried {
    let text = "CVSS:4.0/AV:N/AC:L/AT:N/PR:N/UI:N/VC:L/VI:H/VA:N/SC:N/SI:N/SA:N/E:P";
    let vector = v4::Vector::from_str(rt.alloc(), text)?;
    let score = vector.score();
    assert!(rt; score == v4::Score::new(78 * (ONE / 10), Nomenclature::CvssBT));
    assert!(rt; Nomenclature::from(&vector) == Nomenclature::CvssBT);
    assert!(rt; i128::from(score) == 78 * (ONE / 10) && Severity::from(score) == Severity::High);
    Ok(())
}

#[test]
fn nothing_is_worth_nothing(rt: HostRuntime) {
    let empty = v3::Vector::default();
    assert!(rt; empty.impact() == v3::Score::default());
    assert!(rt; empty.exploitability().value() == 0);
}
