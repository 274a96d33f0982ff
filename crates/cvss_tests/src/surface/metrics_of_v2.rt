//! The metrics of version 2 and their values.

use cvss::Error;
use cvss::v2::metric::base::{
    AccessComplexity, AccessVector, Authentication, AvailabilityImpact, ConfidentialityImpact,
    IntegrityImpact,
};
use cvss::v2::metric::environmental::{
    AvailabilityRequirement, CollateralDamagePotential, ConfidentialityRequirement,
    IntegrityRequirement, TargetDistribution,
};
use cvss::v2::metric::temporal::{Exploitability, RemediationLevel, ReportConfidence};
use cvss::v2::{Metric, MetricType, metric};
use std::alloc::Global;
use std::fmt;

/// What generic code has of any metric.
trait OfMetric: Copy + Clone + fmt::Debug + fmt::Display + Eq + Ord {
    const TYPE: MetricType;
}

impl<M: Metric> OfMetric for M {
    const TYPE: MetricType = M::TYPE;
}

trait IsMetric: metric::Metric {}

impl IsMetric for AccessVector {}

impl IsMetric for AccessComplexity {}

impl IsMetric for Authentication {}

impl IsMetric for ConfidentialityImpact {}

impl IsMetric for IntegrityImpact {}

impl IsMetric for AvailabilityImpact {}

impl IsMetric for Exploitability {}

impl IsMetric for RemediationLevel {}

impl IsMetric for ReportConfidence {}

impl IsMetric for CollateralDamagePotential {}

impl IsMetric for TargetDistribution {}

impl IsMetric for ConfidentialityRequirement {}

impl IsMetric for IntegrityRequirement {}

impl IsMetric for AvailabilityRequirement {}

fn described<M: Metric + Drop>(metric: M) -> (&'static str, &'static str, i128) {
    (M::name(), M::as_str(metric), M::score(metric))
}

fn read<M: Metric + Drop>(text: &str) -> Option<M> {
    M::read(text)
}

fn from_str<M: Metric + Drop>(alloc: Global, text: &str) -> Result<M, Error> {
    M::from_str(alloc, text)
}

fn base(
    av: AccessVector,
    ac: AccessComplexity,
    au: Authentication,
    c: ConfidentialityImpact,
    i: IntegrityImpact,
    a: AvailabilityImpact,
) {
    let (AccessVector::Local | AccessVector::AdjacentNetwork | AccessVector::Network) = av;
    let (AccessComplexity::High | AccessComplexity::Medium | AccessComplexity::Low) = ac;
    let (Authentication::Multiple | Authentication::Single | Authentication::None) = au;
    let (ConfidentialityImpact::None
    | ConfidentialityImpact::Partial
    | ConfidentialityImpact::Complete) = c;
    let (IntegrityImpact::None | IntegrityImpact::Partial | IntegrityImpact::Complete) = i;
    let (AvailabilityImpact::None | AvailabilityImpact::Partial | AvailabilityImpact::Complete) = a;
}

fn temporal(e: Exploitability, rl: RemediationLevel, rc: ReportConfidence) {
    let (Exploitability::Unproven
    | Exploitability::ProofOfConcept
    | Exploitability::Functional
    | Exploitability::High
    | Exploitability::NotDefined) = e;
    let (RemediationLevel::OfficialFix
    | RemediationLevel::TemporaryFix
    | RemediationLevel::Workaround
    | RemediationLevel::Unavailable
    | RemediationLevel::NotDefined) = rl;
    let (ReportConfidence::Unconfirmed
    | ReportConfidence::Uncorroborated
    | ReportConfidence::Confirmed
    | ReportConfidence::NotDefined) = rc;
}

fn environmental(
    cdp: CollateralDamagePotential,
    td: TargetDistribution,
    cr: ConfidentialityRequirement,
    ir: IntegrityRequirement,
    ar: AvailabilityRequirement,
) {
    let (CollateralDamagePotential::None
    | CollateralDamagePotential::Low
    | CollateralDamagePotential::LowMedium
    | CollateralDamagePotential::MediumHigh
    | CollateralDamagePotential::High
    | CollateralDamagePotential::NotDefined) = cdp;
    let (TargetDistribution::None
    | TargetDistribution::Low
    | TargetDistribution::Medium
    | TargetDistribution::High
    | TargetDistribution::NotDefined) = td;
    let (ConfidentialityRequirement::Low
    | ConfidentialityRequirement::Medium
    | ConfidentialityRequirement::High
    | ConfidentialityRequirement::NotDefined) = cr;
    let (IntegrityRequirement::Low
    | IntegrityRequirement::Medium
    | IntegrityRequirement::High
    | IntegrityRequirement::NotDefined) = ir;
    let (AvailabilityRequirement::Low
    | AvailabilityRequirement::Medium
    | AvailabilityRequirement::High
    | AvailabilityRequirement::NotDefined) = ar;
}
