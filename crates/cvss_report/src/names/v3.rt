//! The members and words of FIRST's JSON schemas of CVSS v3.0 and v3.1.

ghost use Rattle.std.specs.Prelude.{◌≡◌, map};
ghost use Rattle.cvss_report.specs.WordsV3.{entry_of};

use crate::field::Field::{self, Score, Severity, Text, V3, Version};
use crate::names::words::{ValueWord, X};
use MetricType::*;
use cvss_base::v3::MetricType;
use cvss_vector::Group::{Base, Environmental, Temporal};

/// The values of an impact.
const IMPACTS: &[ValueWord] = &[("N", "NONE"), ("L", "LOW"), ("H", "HIGH")];

/// The values of a security requirement.
const REQUIREMENTS: &[ValueWord] = &[X, ("H", "HIGH"), ("M", "MEDIUM"), ("L", "LOW")];

/// The values of a modified impact.
const MODIFIED_IMPACTS: &[ValueWord] = &[X, ("N", "NONE"), ("L", "LOW"), ("H", "HIGH")];

/// The name of the member that holds the metric's value, and how its values are spelled, each
/// with its word.
// A line for each metric, as the schema has them.
#[rattlefmt::skip]
pub fn entry(kind: MetricType) -> (&'static str, &'static [ValueWord])
    ensures { (result.0.now, map (λ word. (word.0.now, word.1.now)) result.1.now) ≡ entry_of kind }
{
    match kind {
        AV => ("attackVector",
            &[("P", "PHYSICAL"), ("L", "LOCAL"), ("A", "ADJACENT_NETWORK"), ("N", "NETWORK")]),
        AC => ("attackComplexity", &[("H", "HIGH"), ("L", "LOW")]),
        PR => ("privilegesRequired", &[("H", "HIGH"), ("L", "LOW"), ("N", "NONE")]),
        UI => ("userInteraction", &[("R", "REQUIRED"), ("N", "NONE")]),
        S => ("scope", &[("U", "UNCHANGED"), ("C", "CHANGED")]),
        C => ("confidentialityImpact", IMPACTS),
        I => ("integrityImpact", IMPACTS),
        A => ("availabilityImpact", IMPACTS),
        E => ("exploitCodeMaturity",
            &[X, ("H", "HIGH"), ("F", "FUNCTIONAL"), ("P", "PROOF_OF_CONCEPT"), ("U", "UNPROVEN")]),
        RL => ("remediationLevel",
            &[X, ("U", "UNAVAILABLE"), ("W", "WORKAROUND"), ("T", "TEMPORARY_FIX"),
              ("O", "OFFICIAL_FIX")]),
        RC => ("reportConfidence", &[X, ("C", "CONFIRMED"), ("R", "REASONABLE"), ("U", "UNKNOWN")]),
        CR => ("confidentialityRequirement", REQUIREMENTS),
        IR => ("integrityRequirement", REQUIREMENTS),
        AR => ("availabilityRequirement", REQUIREMENTS),
        MAV => ("modifiedAttackVector",
            &[X, ("P", "PHYSICAL"), ("L", "LOCAL"), ("A", "ADJACENT_NETWORK"), ("N", "NETWORK")]),
        MAC => ("modifiedAttackComplexity", &[X, ("H", "HIGH"), ("L", "LOW")]),
        MPR => ("modifiedPrivilegesRequired", &[X, ("H", "HIGH"), ("L", "LOW"), ("N", "NONE")]),
        MUI => ("modifiedUserInteraction", &[X, ("R", "REQUIRED"), ("N", "NONE")]),
        MS => ("modifiedScope", &[X, ("U", "UNCHANGED"), ("C", "CHANGED")]),
        MC => ("modifiedConfidentialityImpact", MODIFIED_IMPACTS),
        MI => ("modifiedIntegrityImpact", MODIFIED_IMPACTS),
        MA => ("modifiedAvailabilityImpact", MODIFIED_IMPACTS),
    }
}

/// The members that a record may have, in the order of their names.
#[rattlefmt::skip]
pub(crate) const FIELDS: &[Field] = &[
    V3(AC), V3(AV), V3(A), V3(AR), Score(Base), Severity(Base), V3(C), V3(CR),
    Score(Environmental), Severity(Environmental), V3(E), V3(I), V3(IR), V3(MAC), V3(MAV), V3(MA),
    V3(MC), V3(MI), V3(MPR), V3(MS), V3(MUI), V3(PR), V3(RL), V3(RC), V3(S), Score(Temporal),
    Severity(Temporal), V3(UI), Text, Version,
];
