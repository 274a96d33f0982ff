//! The metrics of version 4.0 and their values.

use cvss::Error;
use cvss::v4::metric::base::{
    AttackComplexity, AttackRequirements, AttackVector,
    AvailabilityImpactToTheSubsequentSystem as Sa, AvailabilityImpactToTheVulnerableSystem as Va,
    ConfidentialityImpactToTheSubsequentSystem as Sc,
    ConfidentialityImpactToTheVulnerableSystem as Vc, IntegrityImpactToTheSubsequentSystem as Si,
    IntegrityImpactToTheVulnerableSystem as Vi, PrivilegesRequired, UserInteraction,
};
use cvss::v4::metric::environmental::{
    AvailabilityRequirements, ConfidentialityRequirements, IntegrityRequirements,
    ModifiedAttackComplexity, ModifiedAttackRequirements, ModifiedAttackVector,
    ModifiedAvailabilityImpactToTheSubsequentSystem as Msa,
    ModifiedAvailabilityImpactToTheVulnerableSystem as Mva,
    ModifiedConfidentialityImpactToTheSubsequentSystem as Msc,
    ModifiedConfidentialityImpactToTheVulnerableSystem as Mvc,
    ModifiedIntegrityImpactToTheSubsequentSystem as Msi,
    ModifiedIntegrityImpactToTheVulnerableSystem as Mvi, ModifiedPrivilegesRequired,
    ModifiedUserInteraction,
};
use cvss::v4::metric::supplemental::{
    Automatable, ProviderUrgency, Recovery, Safety, ValueDensity, VulnerabilityResponseEffort,
};
use cvss::v4::metric::threat::ExploitMaturity;
use cvss::v4::metric::{Metric, MetricType};
use std::alloc::Global;
use std::fmt;

/// What generic code has of any metric.
trait OfMetric: Copy + Clone + fmt::Debug + fmt::Display + Eq + Ord + Default {
    const TYPE: MetricType;
}

impl<M: Metric> OfMetric for M {
    const TYPE: MetricType = M::TYPE;
}

trait IsMetric: Metric {}

impl IsMetric for AttackVector {}

impl IsMetric for AttackComplexity {}

impl IsMetric for AttackRequirements {}

impl IsMetric for PrivilegesRequired {}

impl IsMetric for UserInteraction {}

impl IsMetric for Vc {}

impl IsMetric for Vi {}

impl IsMetric for Va {}

impl IsMetric for Sc {}

impl IsMetric for Si {}

impl IsMetric for Sa {}

impl IsMetric for ExploitMaturity {}

impl IsMetric for ConfidentialityRequirements {}

impl IsMetric for IntegrityRequirements {}

impl IsMetric for AvailabilityRequirements {}

impl IsMetric for ModifiedAttackVector {}

impl IsMetric for ModifiedAttackComplexity {}

impl IsMetric for ModifiedAttackRequirements {}

impl IsMetric for ModifiedPrivilegesRequired {}

impl IsMetric for ModifiedUserInteraction {}

impl IsMetric for Mvc {}

impl IsMetric for Mvi {}

impl IsMetric for Mva {}

impl IsMetric for Msc {}

impl IsMetric for Msi {}

impl IsMetric for Msa {}

impl IsMetric for Safety {}

impl IsMetric for Automatable {}

impl IsMetric for Recovery {}

impl IsMetric for ValueDensity {}

impl IsMetric for VulnerabilityResponseEffort {}

impl IsMetric for ProviderUrgency {}

fn described<M: Metric + Drop>(metric: M) -> [&'static str; 2] {
    [M::name(), M::as_str(metric)]
}

fn read<M: Metric + Drop>(text: &str) -> [Option<M>; 2] {
    [M::read(text), M::read_raised(text)]
}

fn from_str<M: Metric + Drop>(alloc: Global, text: &str) -> Result<M, Error> {
    M::from_str(alloc, text)
}

fn base(
    av: AttackVector,
    ac: AttackComplexity,
    at: AttackRequirements,
    pr: PrivilegesRequired,
    ui: UserInteraction,
    vc: Vc,
    vi: Vi,
    va: Va,
    sc: Sc,
    si: Si,
    sa: Sa,
) {
    let (AttackVector::Physical
    | AttackVector::Local
    | AttackVector::Adjacent
    | AttackVector::Network) = av;
    let (AttackComplexity::High | AttackComplexity::Low) = ac;
    let (AttackRequirements::Present | AttackRequirements::None) = at;
    let (PrivilegesRequired::High | PrivilegesRequired::Low | PrivilegesRequired::None) = pr;
    let (UserInteraction::Active | UserInteraction::Passive | UserInteraction::None) = ui;
    let (Vc::None | Vc::Low | Vc::High) = vc;
    let (Vi::None | Vi::Low | Vi::High) = vi;
    let (Va::None | Va::Low | Va::High) = va;
    let (Sc::None | Sc::Low | Sc::High) = sc;
    let (Si::None | Si::Low | Si::High) = si;
    let (Sa::None | Sa::Low | Sa::High) = sa;
}

fn threat(e: ExploitMaturity) {
    let (ExploitMaturity::NotDefined
    | ExploitMaturity::Unreported
    | ExploitMaturity::ProofOfConcept
    | ExploitMaturity::Attacked) = e;
}

fn environmental(
    cr: ConfidentialityRequirements,
    ir: IntegrityRequirements,
    ar: AvailabilityRequirements,
    mav: ModifiedAttackVector,
    mac: ModifiedAttackComplexity,
    mat: ModifiedAttackRequirements,
    mpr: ModifiedPrivilegesRequired,
    mui: ModifiedUserInteraction,
    mvc: Mvc,
    mvi: Mvi,
    mva: Mva,
    msc: Msc,
    msi: Msi,
    msa: Msa,
) {
    let (ConfidentialityRequirements::NotDefined
    | ConfidentialityRequirements::Low
    | ConfidentialityRequirements::Medium
    | ConfidentialityRequirements::High) = cr;
    let (IntegrityRequirements::NotDefined
    | IntegrityRequirements::Low
    | IntegrityRequirements::Medium
    | IntegrityRequirements::High) = ir;
    let (AvailabilityRequirements::NotDefined
    | AvailabilityRequirements::Low
    | AvailabilityRequirements::Medium
    | AvailabilityRequirements::High) = ar;
    let (ModifiedAttackVector::Physical
    | ModifiedAttackVector::Local
    | ModifiedAttackVector::Adjacent
    | ModifiedAttackVector::Network
    | ModifiedAttackVector::NotDefined) = mav;
    let (ModifiedAttackComplexity::NotDefined
    | ModifiedAttackComplexity::High
    | ModifiedAttackComplexity::Low) = mac;
    let (ModifiedAttackRequirements::NotDefined
    | ModifiedAttackRequirements::Present
    | ModifiedAttackRequirements::None) = mat;
    let (ModifiedPrivilegesRequired::NotDefined
    | ModifiedPrivilegesRequired::High
    | ModifiedPrivilegesRequired::Low
    | ModifiedPrivilegesRequired::None) = mpr;
    let (ModifiedUserInteraction::NotDefined
    | ModifiedUserInteraction::Active
    | ModifiedUserInteraction::Passive
    | ModifiedUserInteraction::None) = mui;
    let (Mvc::NotDefined | Mvc::None | Mvc::Low | Mvc::High) = mvc;
    let (Mvi::NotDefined | Mvi::None | Mvi::Low | Mvi::High) = mvi;
    let (Mva::NotDefined | Mva::None | Mva::Low | Mva::High) = mva;
    let (Msc::NotDefined | Msc::Negligible | Msc::Low | Msc::High) = msc;
    let (Msi::NotDefined | Msi::Negligible | Msi::Low | Msi::High | Msi::Safety) = msi;
    let (Msa::NotDefined | Msa::Negligible | Msa::Low | Msa::High | Msa::Safety) = msa;
}

fn supplemental(
    s: Safety,
    au: Automatable,
    r: Recovery,
    v: ValueDensity,
    re: VulnerabilityResponseEffort,
    u: ProviderUrgency,
) {
    let (Safety::NotDefined | Safety::Present | Safety::Negligible) = s;
    let (Automatable::NotDefined | Automatable::Yes | Automatable::No) = au;
    let (Recovery::NotDefined | Recovery::Automatic | Recovery::User | Recovery::Irrecoverable) = r;
    let (ValueDensity::NotDefined | ValueDensity::Diffuse | ValueDensity::Concentrated) = v;
    let (VulnerabilityResponseEffort::NotDefined
    | VulnerabilityResponseEffort::Low
    | VulnerabilityResponseEffort::Moderate
    | VulnerabilityResponseEffort::High) = re;
    let (ProviderUrgency::NotDefined
    | ProviderUrgency::Red
    | ProviderUrgency::Amber
    | ProviderUrgency::Green
    | ProviderUrgency::Clear) = u;
}
