//! Each value of the metrics of CVSS v4.0 with its spelling (v4.0 specification, sections 2 to 5).

mod modified;

use crate::values::ascend;
use cvss::v4::metric::Metric;
use std::process::Abort;

/// Compares a metric's name, and its values in the order of declaration, with what is specified.
fn are_spelled<M: Metric + Drop>(rt: &impl Abort, name: &str, rows: &[(M, &str)]) {
    assert!(rt; M::name() == name);
    for (value, spelling) in rows {
        assert!(rt; value.as_str() == *spelling, "{name}:{spelling}");
        assert!(rt; M::read(spelling) == Some(*value), "{name}:{spelling}");
    }
    ascend(rt, rows);
}

#[test]
fn spells_attack_values(rt: HostRuntime) {
    use cvss::v4::metric::base::{
        AttackComplexity as AC, AttackRequirements as AT, AttackVector as AV,
        PrivilegesRequired as PR, UserInteraction as UI,
    };
    are_spelled(
        &rt,
        "AV",
        &[
            (AV::Physical, "P"),
            (AV::Local, "L"),
            (AV::Adjacent, "A"),
            (AV::Network, "N"),
        ],
    );
    are_spelled(&rt, "AC", &[(AC::High, "H"), (AC::Low, "L")]);
    are_spelled(&rt, "AT", &[(AT::Present, "P"), (AT::None, "N")]);
    are_spelled(
        &rt,
        "PR",
        &[(PR::High, "H"), (PR::Low, "L"), (PR::None, "N")],
    );
    are_spelled(
        &rt,
        "UI",
        &[(UI::Active, "A"), (UI::Passive, "P"), (UI::None, "N")],
    );
}

#[test]
fn spells_impact_values(rt: HostRuntime) {
    use cvss::v4::metric::base::{
        AvailabilityImpactToTheSubsequentSystem as SA,
        AvailabilityImpactToTheVulnerableSystem as VA,
        ConfidentialityImpactToTheSubsequentSystem as SC,
        ConfidentialityImpactToTheVulnerableSystem as VC,
        IntegrityImpactToTheSubsequentSystem as SI, IntegrityImpactToTheVulnerableSystem as VI,
    };
    are_spelled(
        &rt,
        "VC",
        &[(VC::None, "N"), (VC::Low, "L"), (VC::High, "H")],
    );
    are_spelled(
        &rt,
        "VI",
        &[(VI::None, "N"), (VI::Low, "L"), (VI::High, "H")],
    );
    are_spelled(
        &rt,
        "VA",
        &[(VA::None, "N"), (VA::Low, "L"), (VA::High, "H")],
    );
    are_spelled(
        &rt,
        "SC",
        &[(SC::None, "N"), (SC::Low, "L"), (SC::High, "H")],
    );
    are_spelled(
        &rt,
        "SI",
        &[(SI::None, "N"), (SI::Low, "L"), (SI::High, "H")],
    );
    are_spelled(
        &rt,
        "SA",
        &[(SA::None, "N"), (SA::Low, "L"), (SA::High, "H")],
    );
}

#[test]
fn spells_threat_and_requirement_values(rt: HostRuntime) {
    use cvss::v4::metric::threat::ExploitMaturity as E;
    use cvss::v4::metric::environmental::{
        AvailabilityRequirements as AR, ConfidentialityRequirements as CR,
        IntegrityRequirements as IR,
    };
    are_spelled(
        &rt,
        "E",
        &[
            (E::NotDefined, "X"),
            (E::Unreported, "U"),
            (E::ProofOfConcept, "P"),
            (E::Attacked, "A"),
        ],
    );
    are_spelled(
        &rt,
        "CR",
        &[
            (CR::NotDefined, "X"),
            (CR::Low, "L"),
            (CR::Medium, "M"),
            (CR::High, "H"),
        ],
    );
    are_spelled(
        &rt,
        "IR",
        &[
            (IR::NotDefined, "X"),
            (IR::Low, "L"),
            (IR::Medium, "M"),
            (IR::High, "H"),
        ],
    );
    are_spelled(
        &rt,
        "AR",
        &[
            (AR::NotDefined, "X"),
            (AR::Low, "L"),
            (AR::Medium, "M"),
            (AR::High, "H"),
        ],
    );
}

#[test]
fn spells_supplemental_values(rt: HostRuntime) {
    use cvss::v4::metric::supplemental::{
        Automatable as AU, ProviderUrgency as U, Recovery as R, Safety as S, ValueDensity as V,
        VulnerabilityResponseEffort as RE,
    };
    are_spelled(
        &rt,
        "S",
        &[
            (S::NotDefined, "X"),
            (S::Present, "P"),
            (S::Negligible, "N"),
        ],
    );
    are_spelled(
        &rt,
        "AU",
        &[(AU::NotDefined, "X"), (AU::Yes, "Y"), (AU::No, "N")],
    );
    are_spelled(
        &rt,
        "R",
        &[
            (R::NotDefined, "X"),
            (R::Automatic, "A"),
            (R::User, "U"),
            (R::Irrecoverable, "I"),
        ],
    );
    are_spelled(
        &rt,
        "V",
        &[
            (V::NotDefined, "X"),
            (V::Diffuse, "D"),
            (V::Concentrated, "C"),
        ],
    );
    are_spelled(
        &rt,
        "RE",
        &[
            (RE::NotDefined, "X"),
            (RE::Low, "L"),
            (RE::Moderate, "M"),
            (RE::High, "H"),
        ],
    );
    are_spelled(
        &rt,
        "U",
        &[
            (U::NotDefined, "X"),
            (U::Red, "Red"),
            (U::Amber, "Amber"),
            (U::Green, "Green"),
            (U::Clear, "Clear"),
        ],
    );
}
