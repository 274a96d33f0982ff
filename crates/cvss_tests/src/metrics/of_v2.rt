//! Each value of the metrics of CVSS v2 with its spelling (guide, sections 2.1 to 2.3).

use crate::values::ascend;
use cvss::v2::Metric;
use std::process::Abort;

/// Compares a metric's name, and its values in the order of declaration, with what the guide has.
fn are_spelled<M: Metric + Drop>(rt: &impl Abort, name: &str, rows: &[(M, &str)]) {
    assert!(rt; M::name() == name);
    for (value, spelling) in rows {
        assert!(rt; value.as_str() == *spelling, "{name}:{spelling}");
        assert!(rt; M::read(spelling) == Some(*value), "{name}:{spelling}");
    }
    ascend(rt, rows);
}

#[test]
fn spells_base_values(rt: HostRuntime) {
    use cvss::v2::metric::base::{
        AccessComplexity, AccessVector, Authentication, AvailabilityImpact, ConfidentialityImpact,
        IntegrityImpact,
    };
    are_spelled(
        &rt,
        "AV",
        &[
            (AccessVector::Local, "L"),
            (AccessVector::AdjacentNetwork, "A"),
            (AccessVector::Network, "N"),
        ],
    );
    are_spelled(
        &rt,
        "AC",
        &[
            (AccessComplexity::High, "H"),
            (AccessComplexity::Medium, "M"),
            (AccessComplexity::Low, "L"),
        ],
    );
    are_spelled(
        &rt,
        "Au",
        &[
            (Authentication::Multiple, "M"),
            (Authentication::Single, "S"),
            (Authentication::None, "N"),
        ],
    );
    are_spelled(
        &rt,
        "C",
        &[
            (ConfidentialityImpact::None, "N"),
            (ConfidentialityImpact::Partial, "P"),
            (ConfidentialityImpact::Complete, "C"),
        ],
    );
    are_spelled(
        &rt,
        "I",
        &[
            (IntegrityImpact::None, "N"),
            (IntegrityImpact::Partial, "P"),
            (IntegrityImpact::Complete, "C"),
        ],
    );
    are_spelled(
        &rt,
        "A",
        &[
            (AvailabilityImpact::None, "N"),
            (AvailabilityImpact::Partial, "P"),
            (AvailabilityImpact::Complete, "C"),
        ],
    );
}

#[test]
fn spells_temporal_values(rt: HostRuntime) {
    use cvss::v2::metric::temporal::{Exploitability, RemediationLevel, ReportConfidence};
    are_spelled(
        &rt,
        "E",
        &[
            (Exploitability::Unproven, "U"),
            (Exploitability::ProofOfConcept, "POC"),
            (Exploitability::Functional, "F"),
            (Exploitability::High, "H"),
            (Exploitability::NotDefined, "ND"),
        ],
    );
    are_spelled(
        &rt,
        "RL",
        &[
            (RemediationLevel::OfficialFix, "OF"),
            (RemediationLevel::TemporaryFix, "TF"),
            (RemediationLevel::Workaround, "W"),
            (RemediationLevel::Unavailable, "U"),
            (RemediationLevel::NotDefined, "ND"),
        ],
    );
    are_spelled(
        &rt,
        "RC",
        &[
            (ReportConfidence::Unconfirmed, "UC"),
            (ReportConfidence::Uncorroborated, "UR"),
            (ReportConfidence::Confirmed, "C"),
            (ReportConfidence::NotDefined, "ND"),
        ],
    );
}

#[test]
fn spells_environmental_values(rt: HostRuntime) {
    use cvss::v2::metric::environmental::{
        AvailabilityRequirement, CollateralDamagePotential, ConfidentialityRequirement,
        IntegrityRequirement, TargetDistribution,
    };
    are_spelled(
        &rt,
        "CDP",
        &[
            (CollateralDamagePotential::None, "N"),
            (CollateralDamagePotential::Low, "L"),
            (CollateralDamagePotential::LowMedium, "LM"),
            (CollateralDamagePotential::MediumHigh, "MH"),
            (CollateralDamagePotential::High, "H"),
            (CollateralDamagePotential::NotDefined, "ND"),
        ],
    );
    are_spelled(
        &rt,
        "TD",
        &[
            (TargetDistribution::None, "N"),
            (TargetDistribution::Low, "L"),
            (TargetDistribution::Medium, "M"),
            (TargetDistribution::High, "H"),
            (TargetDistribution::NotDefined, "ND"),
        ],
    );
    are_spelled(
        &rt,
        "CR",
        &[
            (ConfidentialityRequirement::Low, "L"),
            (ConfidentialityRequirement::Medium, "M"),
            (ConfidentialityRequirement::High, "H"),
            (ConfidentialityRequirement::NotDefined, "ND"),
        ],
    );
    are_spelled(
        &rt,
        "IR",
        &[
            (IntegrityRequirement::Low, "L"),
            (IntegrityRequirement::Medium, "M"),
            (IntegrityRequirement::High, "H"),
            (IntegrityRequirement::NotDefined, "ND"),
        ],
    );
    are_spelled(
        &rt,
        "AR",
        &[
            (AvailabilityRequirement::Low, "L"),
            (AvailabilityRequirement::Medium, "M"),
            (AvailabilityRequirement::High, "H"),
            (AvailabilityRequirement::NotDefined, "ND"),
        ],
    );
}
