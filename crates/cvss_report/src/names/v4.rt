//! The members and words of FIRST's JSON schema of CVSS v4.0.

ghost use Rattle.std.specs.Prelude.{◌≡◌, map};
ghost use Rattle.cvss_report.specs.WordsV4.{entry_of};

use crate::field::Field::{self, Score, Severity, Text, V4, Version};
use crate::names::words::{ValueWord, X};
use MetricType::*;
use cvss_base::v4::MetricType;
use cvss_vector::Group::Base;

/// The values of an impact.
const IMPACTS: &[ValueWord] = &[("N", "NONE"), ("L", "LOW"), ("H", "HIGH")];

/// The values of a security requirement.
const REQUIREMENTS: &[ValueWord] = &[X, ("L", "LOW"), ("M", "MEDIUM"), ("H", "HIGH")];

/// The values of a modified impact.
const MODIFIED_IMPACTS: &[ValueWord] = &[X, ("N", "NONE"), ("L", "LOW"), ("H", "HIGH")];

/// The values of a modified impact that may harm persons.
const SAFETY_IMPACTS: &[ValueWord] = &[
    X,
    ("N", "NEGLIGIBLE"),
    ("L", "LOW"),
    ("H", "HIGH"),
    ("S", "SAFETY"),
];

/// The name of the member that holds the metric's value, and how its values are spelled, each
/// with its word.
// A line for each metric, as the schema has them.
#[rattlefmt::skip]
pub fn entry(kind: MetricType) -> (&'static str, &'static [ValueWord])
    ensures { (result.0.now, map (λ word. (word.0.now, word.1.now)) result.1.now) ≡ entry_of kind }
{
    match kind {
        AV => ("attackVector",
            &[("P", "PHYSICAL"), ("L", "LOCAL"), ("A", "ADJACENT"), ("N", "NETWORK")]),
        AC => ("attackComplexity", &[("H", "HIGH"), ("L", "LOW")]),
        AT => ("attackRequirements", &[("P", "PRESENT"), ("N", "NONE")]),
        PR => ("privilegesRequired", &[("H", "HIGH"), ("L", "LOW"), ("N", "NONE")]),
        UI => ("userInteraction", &[("A", "ACTIVE"), ("P", "PASSIVE"), ("N", "NONE")]),
        VC => ("vulnConfidentialityImpact", IMPACTS),
        VI => ("vulnIntegrityImpact", IMPACTS),
        VA => ("vulnAvailabilityImpact", IMPACTS),
        SC => ("subConfidentialityImpact", IMPACTS),
        SI => ("subIntegrityImpact", IMPACTS),
        SA => ("subAvailabilityImpact", IMPACTS),
        E => ("exploitMaturity",
            &[X, ("U", "UNREPORTED"), ("P", "PROOF_OF_CONCEPT"), ("A", "ATTACKED")]),
        CR => ("confidentialityRequirement", REQUIREMENTS),
        IR => ("integrityRequirement", REQUIREMENTS),
        AR => ("availabilityRequirement", REQUIREMENTS),
        MAV => ("modifiedAttackVector",
            &[("P", "PHYSICAL"), ("L", "LOCAL"), ("A", "ADJACENT"), ("N", "NETWORK"), X]),
        MAC => ("modifiedAttackComplexity", &[X, ("H", "HIGH"), ("L", "LOW")]),
        MAT => ("modifiedAttackRequirements", &[X, ("P", "PRESENT"), ("N", "NONE")]),
        MPR => ("modifiedPrivilegesRequired", &[X, ("H", "HIGH"), ("L", "LOW"), ("N", "NONE")]),
        MUI => ("modifiedUserInteraction", &[X, ("A", "ACTIVE"), ("P", "PASSIVE"), ("N", "NONE")]),
        MVC => ("modifiedVulnConfidentialityImpact", MODIFIED_IMPACTS),
        MVI => ("modifiedVulnIntegrityImpact", MODIFIED_IMPACTS),
        MVA => ("modifiedVulnAvailabilityImpact", MODIFIED_IMPACTS),
        MSC => ("modifiedSubConfidentialityImpact",
            &[X, ("N", "NEGLIGIBLE"), ("L", "LOW"), ("H", "HIGH")]),
        MSI => ("modifiedSubIntegrityImpact", SAFETY_IMPACTS),
        MSA => ("modifiedSubAvailabilityImpact", SAFETY_IMPACTS),
        S => ("Safety", &[X, ("P", "PRESENT"), ("N", "NEGLIGIBLE")]),
        AU => ("Automatable", &[X, ("Y", "YES"), ("N", "NO")]),
        R => ("Recovery", &[X, ("A", "AUTOMATIC"), ("U", "USER"), ("I", "IRRECOVERABLE")]),
        V => ("valueDensity", &[X, ("D", "DIFFUSE"), ("C", "CONCENTRATED")]),
        RE => ("vulnerabilityResponseEffort", &[X, ("L", "LOW"), ("M", "MODERATE"), ("H", "HIGH")]),
        U => ("providerUrgency",
            &[X, ("Red", "RED"), ("Amber", "AMBER"), ("Green", "GREEN"), ("Clear", "CLEAR")]),
    }
}

/// The members that a record may have, in the order of their names.
#[rattlefmt::skip]
pub(crate) const FIELDS: &[Field] = &[
    V4(AU), V4(R), V4(S), V4(AC), V4(AT), V4(AV), V4(AR), Score(Base), Severity(Base), V4(CR),
    V4(E), V4(IR), V4(MAC), V4(MAT), V4(MAV), V4(MPR), V4(MSA), V4(MSC), V4(MSI), V4(MUI),
    V4(MVA), V4(MVC), V4(MVI), V4(PR), V4(U), V4(SA), V4(SC), V4(SI), V4(UI), V4(V), Text, Version,
    V4(VA), V4(VC), V4(VI), V4(RE),
];
