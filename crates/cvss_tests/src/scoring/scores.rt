//! Scores, classes and values that the public calculators give.

use super::samples::{
    ADJACENT, CONFIDENTIAL, HARMLESS, HIGHLY_PRIVILEGED, INTEGRITY, LEAST, LOW_CONFIDENTIALITY,
    PRIVILEGED, UNSAFE, UNSAFE_INTEGRITY, WORST,
};
use cvss_score::v4::scoring::classes::MacroVector;
use cvss_score::v4::scoring::effective::Effective;
use cvss_score::v4::scoring::score_tenths;

/// Effective values with their scores in tenths.
const SCORES: [(Effective, u8); 11] = [
    (INTEGRITY, 77),
    (UNSAFE, 42),
    (LOW_CONFIDENTIALITY, 78),
    (LEAST, 1),
    (HARMLESS, 0),
    (WORST, 100),
    (PRIVILEGED, 87),
    (ADJACENT, 43),
    (HIGHLY_PRIVILEGED, 51),
    (CONFIDENTIAL, 87),
    (UNSAFE_INTEGRITY, 89),
];

#[test]
fn scores_single_vectors(rt: HostRuntime) {
    for (effective, tenths) in &SCORES {
        assert!(rt; score_tenths(effective) == *tenths);
    }
}

/// Effective values with the numbers of their classes, EQ1 to EQ6.
const CLASSES: [(Effective, [u8; 6]); 5] = [
    (INTEGRITY, [0, 0, 1, 2, 1, 0]),
    (UNSAFE, [1, 1, 1, 0, 2, 1]),
    (LEAST, [2, 1, 2, 2, 2, 1]),
    (PRIVILEGED, [1, 0, 0, 2, 0, 0]),
    (ADJACENT, [1, 1, 0, 2, 2, 0]),
];

#[test]
fn classes_of_single_vectors(rt: HostRuntime) {
    for (effective, numbers) in &CLASSES {
        let m = MacroVector::of(effective);
        assert!(rt; [m.eq1, m.eq2, m.eq3, m.eq4, m.eq5, m.eq6] == *numbers);
    }
}
