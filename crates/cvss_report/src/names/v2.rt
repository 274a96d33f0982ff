//! The members and words of FIRST's JSON schema of CVSS v2.

ghost use Rattle.std.specs.Prelude.{◌≡◌, map};
ghost use Rattle.cvss_report.specs.WordsV2.{entry_of};

use crate::field::Field::{self, Score, Text, V2, Version};
use crate::names::NOT_DEFINED;
use crate::names::words::ValueWord;
use MetricType::*;
use cvss_base::v2::MetricType;
use cvss_vector::Group::{Base, Environmental, Temporal};

/// The word of a value that is not defined.
const ND: ValueWord = ("ND", NOT_DEFINED);

/// The values of an impact.
const IMPACTS: &[ValueWord] = &[("N", "NONE"), ("P", "PARTIAL"), ("C", "COMPLETE")];

/// The values of a security requirement.
const REQUIREMENTS: &[ValueWord] = &[("L", "LOW"), ("M", "MEDIUM"), ("H", "HIGH"), ND];

/// The name of the member that holds the metric's value, and how its values are spelled, each
/// with its word.
// A line for each metric, as the schema has them.
#[rattlefmt::skip]
pub fn entry(kind: MetricType) -> (&'static str, &'static [ValueWord])
    ensures { (result.0.now, map (λ word. (word.0.now, word.1.now)) result.1.now) ≡ entry_of kind }
{
    match kind {
        AV => ("accessVector", &[("L", "LOCAL"), ("A", "ADJACENT_NETWORK"), ("N", "NETWORK")]),
        AC => ("accessComplexity", &[("H", "HIGH"), ("M", "MEDIUM"), ("L", "LOW")]),
        Au => ("authentication", &[("M", "MULTIPLE"), ("S", "SINGLE"), ("N", "NONE")]),
        C => ("confidentialityImpact", IMPACTS),
        I => ("integrityImpact", IMPACTS),
        A => ("availabilityImpact", IMPACTS),
        E => ("exploitability",
            &[("U", "UNPROVEN"), ("POC", "PROOF_OF_CONCEPT"), ("F", "FUNCTIONAL"), ("H", "HIGH"),
              ND]),
        RL => ("remediationLevel",
            &[("OF", "OFFICIAL_FIX"), ("TF", "TEMPORARY_FIX"), ("W", "WORKAROUND"),
              ("U", "UNAVAILABLE"), ND]),
        RC => ("reportConfidence",
            &[("UC", "UNCONFIRMED"), ("UR", "UNCORROBORATED"), ("C", "CONFIRMED"), ND]),
        CDP => ("collateralDamagePotential",
            &[("N", "NONE"), ("L", "LOW"), ("LM", "LOW_MEDIUM"), ("MH", "MEDIUM_HIGH"),
              ("H", "HIGH"), ND]),
        TD => ("targetDistribution",
            &[("N", "NONE"), ("L", "LOW"), ("M", "MEDIUM"), ("H", "HIGH"), ND]),
        CR => ("confidentialityRequirement", REQUIREMENTS),
        IR => ("integrityRequirement", REQUIREMENTS),
        AR => ("availabilityRequirement", REQUIREMENTS),
    }
}

/// The members that a record may have, in the order of their names.
#[rattlefmt::skip]
pub(crate) const FIELDS: &[Field] = &[
    V2(AC), V2(AV), V2(Au), V2(A), V2(AR), Score(Base), V2(CDP), V2(C), V2(CR),
    Score(Environmental), V2(E), V2(I), V2(IR), V2(RL), V2(RC), V2(TD), Score(Temporal), Text,
    Version,
];
