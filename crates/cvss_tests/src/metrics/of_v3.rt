//! Each value of the metrics of CVSS v3 with its spelling (v3.1 specification, sections 2 to 4).

use crate::values::ascend;
use cvss::v3::Metric;
use std::process::Abort;

/// Compares a metric's name, and its values in the order of declaration, with what is specified.
fn are_spelled<M: Metric + Drop>(rt: &impl Abort, name: &str, rows: &[(M, &str)]) {
    assert!(rt; M::name() == name);
    for (value, spelling) in rows {
        assert!(rt; value.as_str() == *spelling, "{name}:{spelling}");
        assert!(rt; M::read(spelling) == Some(*value), "{name}:{spelling}");
    }
    ascend(rt, rows);
}

#[test]
fn spells_base_values(rt: HostRuntime) {
    use cvss::v3::metric::base::{
        AttackComplexity, AttackVector, Availability, Confidentiality, Integrity,
        PrivilegesRequired, Scope, UserInteraction,
    };
    are_spelled(
        &rt,
        "AV",
        &[
            (AttackVector::Physical, "P"),
            (AttackVector::Local, "L"),
            (AttackVector::Adjacent, "A"),
            (AttackVector::Network, "N"),
        ],
    );
    are_spelled(
        &rt,
        "AC",
        &[(AttackComplexity::High, "H"), (AttackComplexity::Low, "L")],
    );
    are_spelled(
        &rt,
        "PR",
        &[
            (PrivilegesRequired::High, "H"),
            (PrivilegesRequired::Low, "L"),
            (PrivilegesRequired::None, "N"),
        ],
    );
    are_spelled(
        &rt,
        "UI",
        &[
            (UserInteraction::Required, "R"),
            (UserInteraction::None, "N"),
        ],
    );
    are_spelled(&rt, "S", &[(Scope::Unchanged, "U"), (Scope::Changed, "C")]);
    are_spelled(
        &rt,
        "C",
        &[
            (Confidentiality::None, "N"),
            (Confidentiality::Low, "L"),
            (Confidentiality::High, "H"),
        ],
    );
    are_spelled(
        &rt,
        "I",
        &[
            (Integrity::None, "N"),
            (Integrity::Low, "L"),
            (Integrity::High, "H"),
        ],
    );
    are_spelled(
        &rt,
        "A",
        &[
            (Availability::None, "N"),
            (Availability::Low, "L"),
            (Availability::High, "H"),
        ],
    );
}

#[test]
fn spells_temporal_values(rt: HostRuntime) {
    use cvss::v3::metric::temporal::{ExploitCodeMaturity, RemediationLevel, ReportConfidence};
    are_spelled(
        &rt,
        "E",
        &[
            (ExploitCodeMaturity::NotDefined, "X"),
            (ExploitCodeMaturity::High, "H"),
            (ExploitCodeMaturity::Functional, "F"),
            (ExploitCodeMaturity::ProofOfConcept, "P"),
            (ExploitCodeMaturity::Unproven, "U"),
        ],
    );
    are_spelled(
        &rt,
        "RL",
        &[
            (RemediationLevel::NotDefined, "X"),
            (RemediationLevel::Unavailable, "U"),
            (RemediationLevel::Workaround, "W"),
            (RemediationLevel::TemporaryFix, "T"),
            (RemediationLevel::OfficialFix, "O"),
        ],
    );
    are_spelled(
        &rt,
        "RC",
        &[
            (ReportConfidence::NotDefined, "X"),
            (ReportConfidence::Confirmed, "C"),
            (ReportConfidence::Reasonable, "R"),
            (ReportConfidence::Unknown, "U"),
        ],
    );
}

#[test]
fn spells_requirement_values(rt: HostRuntime) {
    use cvss::v3::metric::environmental::{
        AvailabilityRequirement, ConfidentialityRequirement, IntegrityRequirement,
    };
    are_spelled(
        &rt,
        "CR",
        &[
            (ConfidentialityRequirement::NotDefined, "X"),
            (ConfidentialityRequirement::High, "H"),
            (ConfidentialityRequirement::Medium, "M"),
            (ConfidentialityRequirement::Low, "L"),
        ],
    );
    are_spelled(
        &rt,
        "IR",
        &[
            (IntegrityRequirement::NotDefined, "X"),
            (IntegrityRequirement::High, "H"),
            (IntegrityRequirement::Medium, "M"),
            (IntegrityRequirement::Low, "L"),
        ],
    );
    are_spelled(
        &rt,
        "AR",
        &[
            (AvailabilityRequirement::NotDefined, "X"),
            (AvailabilityRequirement::High, "H"),
            (AvailabilityRequirement::Medium, "M"),
            (AvailabilityRequirement::Low, "L"),
        ],
    );
}

#[test]
fn spells_modified_values(rt: HostRuntime) {
    use cvss::v3::metric::base::{
        AttackComplexity, AttackVector, Availability, Confidentiality, Integrity,
        PrivilegesRequired, Scope, UserInteraction,
    };
    use cvss::v3::metric::environmental::{Modified::{Modified as Set, NotDefined}, ModifiedScope};
    are_spelled(
        &rt,
        "MAV",
        &[
            (NotDefined, "X"),
            (Set(AttackVector::Physical), "P"),
            (Set(AttackVector::Local), "L"),
            (Set(AttackVector::Adjacent), "A"),
            (Set(AttackVector::Network), "N"),
        ],
    );
    are_spelled(
        &rt,
        "MAC",
        &[
            (NotDefined, "X"),
            (Set(AttackComplexity::High), "H"),
            (Set(AttackComplexity::Low), "L"),
        ],
    );
    are_spelled(
        &rt,
        "MPR",
        &[
            (NotDefined, "X"),
            (Set(PrivilegesRequired::High), "H"),
            (Set(PrivilegesRequired::Low), "L"),
            (Set(PrivilegesRequired::None), "N"),
        ],
    );
    are_spelled(
        &rt,
        "MUI",
        &[
            (NotDefined, "X"),
            (Set(UserInteraction::Required), "R"),
            (Set(UserInteraction::None), "N"),
        ],
    );
    are_spelled(
        &rt,
        "MS",
        &[
            (ModifiedScope::NotDefined, "X"),
            (ModifiedScope::Modified(Scope::Unchanged), "U"),
            (ModifiedScope::Modified(Scope::Changed), "C"),
        ],
    );
    are_spelled(
        &rt,
        "MC",
        &[
            (NotDefined, "X"),
            (Set(Confidentiality::None), "N"),
            (Set(Confidentiality::Low), "L"),
            (Set(Confidentiality::High), "H"),
        ],
    );
    are_spelled(
        &rt,
        "MI",
        &[
            (NotDefined, "X"),
            (Set(Integrity::None), "N"),
            (Set(Integrity::Low), "L"),
            (Set(Integrity::High), "H"),
        ],
    );
    are_spelled(
        &rt,
        "MA",
        &[
            (NotDefined, "X"),
            (Set(Availability::None), "N"),
            (Set(Availability::Low), "L"),
            (Set(Availability::High), "H"),
        ],
    );
}
