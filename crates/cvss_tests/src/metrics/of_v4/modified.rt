//! The same of the modified metrics (v4.0 specification, section 4.2).

use super::are_spelled;

#[test]
fn spells_modified_attack_values(rt: HostRuntime) {
    use cvss::v4::metric::environmental::{
        ModifiedAttackComplexity as MAC, ModifiedAttackRequirements as MAT,
        ModifiedAttackVector as MAV, ModifiedPrivilegesRequired as MPR,
        ModifiedUserInteraction as MUI,
    };
    are_spelled(
        &rt,
        "MAV",
        &[
            (MAV::Physical, "P"),
            (MAV::Local, "L"),
            (MAV::Adjacent, "A"),
            (MAV::Network, "N"),
            (MAV::NotDefined, "X"),
        ],
    );
    are_spelled(
        &rt,
        "MAC",
        &[(MAC::NotDefined, "X"), (MAC::High, "H"), (MAC::Low, "L")],
    );
    are_spelled(
        &rt,
        "MAT",
        &[
            (MAT::NotDefined, "X"),
            (MAT::Present, "P"),
            (MAT::None, "N"),
        ],
    );
    are_spelled(
        &rt,
        "MPR",
        &[
            (MPR::NotDefined, "X"),
            (MPR::High, "H"),
            (MPR::Low, "L"),
            (MPR::None, "N"),
        ],
    );
    are_spelled(
        &rt,
        "MUI",
        &[
            (MUI::NotDefined, "X"),
            (MUI::Active, "A"),
            (MUI::Passive, "P"),
            (MUI::None, "N"),
        ],
    );
}

#[test]
fn spells_modified_impact_values(rt: HostRuntime) {
    use cvss::v4::metric::environmental::{
        ModifiedAvailabilityImpactToTheSubsequentSystem as MSA,
        ModifiedAvailabilityImpactToTheVulnerableSystem as MVA,
        ModifiedConfidentialityImpactToTheSubsequentSystem as MSC,
        ModifiedConfidentialityImpactToTheVulnerableSystem as MVC,
        ModifiedIntegrityImpactToTheSubsequentSystem as MSI,
        ModifiedIntegrityImpactToTheVulnerableSystem as MVI,
    };
    are_spelled(
        &rt,
        "MVC",
        &[
            (MVC::NotDefined, "X"),
            (MVC::None, "N"),
            (MVC::Low, "L"),
            (MVC::High, "H"),
        ],
    );
    are_spelled(
        &rt,
        "MVI",
        &[
            (MVI::NotDefined, "X"),
            (MVI::None, "N"),
            (MVI::Low, "L"),
            (MVI::High, "H"),
        ],
    );
    are_spelled(
        &rt,
        "MVA",
        &[
            (MVA::NotDefined, "X"),
            (MVA::None, "N"),
            (MVA::Low, "L"),
            (MVA::High, "H"),
        ],
    );
    are_spelled(
        &rt,
        "MSC",
        &[
            (MSC::NotDefined, "X"),
            (MSC::Negligible, "N"),
            (MSC::Low, "L"),
            (MSC::High, "H"),
        ],
    );
    are_spelled(
        &rt,
        "MSI",
        &[
            (MSI::NotDefined, "X"),
            (MSI::Negligible, "N"),
            (MSI::Low, "L"),
            (MSI::High, "H"),
            (MSI::Safety, "S"),
        ],
    );
    are_spelled(
        &rt,
        "MSA",
        &[
            (MSA::NotDefined, "X"),
            (MSA::Negligible, "N"),
            (MSA::Low, "L"),
            (MSA::High, "H"),
            (MSA::Safety, "S"),
        ],
    );
}
