//! Tests of the metrics' types: defaults, weights, and values in place of others. How each value is
//! spelled is in a file for each version.

mod of_v2;
mod of_v3;
mod of_v4;

use crate::values::are_equal;
use cvss::v3::metric::environmental::{BaseMetric, Modified, ModifiedScope};
use cvss::v4::metric::base::IntegrityImpactToTheVulnerableSystem;
use cvss::v4::metric::environmental::ModifiedAttackVector;
use cvss::v4::metric::supplemental::ProviderUrgency;
use cvss::{MetricType, ONE, v2, v3, v4};
use std::process::Abort;

/// Compares a weight with what it is in thousandths of a score point.
fn is_weight(rt: &impl Abort, weight: i128, thousandths: u16) {
    assert!(rt; weight == i128::from(thousandths) * (ONE / 1000));
}

#[test]
fn weighs_values_of_v2(rt: HostRuntime) {
    use cvss::v2::Metric;
    use cvss::v2::metric::base::{AccessVector, Authentication, IntegrityImpact};
    use cvss::v2::metric::environmental::{CollateralDamagePotential, IntegrityRequirement};
    use cvss::v2::metric::temporal::{Exploitability, RemediationLevel};
    is_weight(&rt, AccessVector::AdjacentNetwork.score(), 646);
    is_weight(&rt, Authentication::None.score(), 704);
    is_weight(&rt, IntegrityImpact::Partial.score(), 275);
    is_weight(&rt, Exploitability::ProofOfConcept.score(), 900);
    is_weight(&rt, RemediationLevel::OfficialFix.score(), 870);
    is_weight(&rt, CollateralDamagePotential::NotDefined.score(), 0);
    is_weight(&rt, IntegrityRequirement::High.score(), 1510);
}

/// Compares a value's weight, which it has, with thousandths of a score point.
fn weighs<M: v3::Metric + Drop>(rt: &impl Abort, metric: M, thousandths: u16) {
    assert!(rt; metric.has_score());
    is_weight(rt, metric.score(), thousandths);
}

#[test]
fn weighs_base_values_of_v3(rt: HostRuntime) {
    use cvss::v3::metric::base::{
        AttackComplexity, AttackVector, Availability, Confidentiality, Integrity,
        PrivilegesRequired, UserInteraction,
    };
    weighs(&rt, AttackVector::Adjacent, 620);
    weighs(&rt, AttackComplexity::Low, 770);
    weighs(&rt, PrivilegesRequired::High, 270);
    weighs(&rt, UserInteraction::Required, 620);
    weighs(&rt, Confidentiality::Low, 220);
    weighs(&rt, Integrity::High, 560);
    weighs(&rt, Availability::None, 0);
}

#[test]
fn weighs_optional_values_of_v3(rt: HostRuntime) {
    use cvss::v3::metric::base::Integrity;
    use cvss::v3::metric::environmental::{
        AvailabilityRequirement, ConfidentialityRequirement, IntegrityRequirement,
    };
    use cvss::v3::metric::temporal::{ExploitCodeMaturity, RemediationLevel, ReportConfidence};
    weighs(&rt, ExploitCodeMaturity::Unproven, 910);
    weighs(&rt, RemediationLevel::TemporaryFix, 960);
    weighs(&rt, ReportConfidence::Reasonable, 960);
    weighs(&rt, ConfidentialityRequirement::High, 1500);
    weighs(&rt, IntegrityRequirement::NotDefined, 1000);
    weighs(&rt, AvailabilityRequirement::Low, 500);
    weighs(&rt, Modified::Modified(Integrity::Low), 0);
}

#[test]
fn scopes_of_v3_may_lack_a_weight(rt: HostRuntime) {
    use cvss::v3::Metric;
    use cvss::v3::metric::base::Scope;
    weighs(&rt, ModifiedScope::NotDefined, 0);
    assert!(rt; !Scope::Changed.has_score());
    assert!(rt; !ModifiedScope::Modified(Scope::Unchanged).has_score());
}

#[test]
fn modified_values_replace_base_values(rt: HostRuntime) {
    use cvss::v3::Metric;
    use cvss::v3::metric::base::AttackVector;
    let network = Some(AttackVector::Network);
    let physical = Modified::Modified(AttackVector::Physical);
    let undefined = Modified::<AttackVector>::NotDefined;
    is_weight(&rt, undefined.modified_score(network), 850);
    is_weight(&rt, undefined.modified_score(None), 0);
    is_weight(&rt, physical.modified_score(network), 200);
    is_weight(&rt, physical.modified_score(None), 200);
    is_weight(&rt, physical.score(), 0);
}

#[test]
fn privileges_weigh_by_the_scope(rt: HostRuntime) {
    use cvss::v3::metric::base::PrivilegesRequired;
    let high = PrivilegesRequired::High;
    let low = Modified::Modified(PrivilegesRequired::Low);
    is_weight(&rt, high.scoped_score(true), 500);
    is_weight(&rt, high.scoped_score(false), 270);
    is_weight(
        &rt,
        Modified::NotDefined.scoped_score(true, Some(high)),
        500,
    );
    is_weight(&rt, Modified::NotDefined.scoped_score(true, None), 0);
    is_weight(&rt, low.scoped_score(true, Some(high)), 680);
    is_weight(&rt, low.scoped_score(false, None), 620);
}

#[test]
fn metrics_have_their_defaults(rt: HostRuntime) {
    use cvss::v4::metric::base::{AttackVector, PrivilegesRequired};
    use v3::metric::base::AttackComplexity;
    assert!(rt; matches!(AttackComplexity::default(), AttackComplexity::High));
    assert!(rt; matches!(AttackVector::default(), AttackVector::Network));
    assert!(rt; matches!(PrivilegesRequired::default(), PrivilegesRequired::None));
    let integrity = IntegrityImpactToTheVulnerableSystem::default();
    assert!(rt; matches!(integrity, IntegrityImpactToTheVulnerableSystem::High));
    assert!(rt;
        matches!(
            ModifiedAttackVector::default(),
            ModifiedAttackVector::NotDefined
        )
    );
    assert!(rt; matches!(ProviderUrgency::default(), ProviderUrgency::NotDefined));
}

#[test]
fn values_are_read_in_any_case(rt: HostRuntime) {
    use cvss::v3::Metric as _;
    use cvss::v4::metric::Metric as _;
    use v3::metric::base::AttackVector;
    assert!(rt; matches!(AttackVector::read_raised("n"), Some(AttackVector::Network)));
    assert!(rt; ProviderUrgency::read("red").is_none());
    assert!(rt;
        matches!(
            ProviderUrgency::read_raised("red"),
            Some(ProviderUrgency::Red)
        )
    );
}

/// What a base metric is in generic code, which requires `BaseMetric` alone: a metric.
fn spelled<M: BaseMetric + Drop>(metric: M) -> &'static str {
    metric.as_str()
}

/// And `Modified` of it is a metric too.
fn modified_name<M: BaseMetric>() -> &'static str {
    <Modified<M> as v3::Metric>::name()
}

#[test]
fn metrics_are_distinguished(rt: HostRuntime) {
    use v3::metric::base::{AttackVector, Scope};
    assert!(rt; Scope::Changed.is_changed() && !Scope::Unchanged.is_changed());
    assert!(rt; matches!(AttackVector::MODIFIED_TYPE, v3::MetricType::MAV));
    assert!(rt; spelled(AttackVector::Network) == "N");
    assert!(rt; modified_name::<AttackVector>() == "MAV");
    assert!(rt; v2::MetricType::A < v2::MetricType::AC);
    assert!(rt; v2::MetricType::IR < v2::MetricType::AR);
}

#[test]
fn traits_give_the_types_of_metrics(rt: HostRuntime) {
    use cvss::v3::metric::MetricValue as _;
    use cvss::v3::{Metric, MetricType};
    use v3::metric::base::AttackVector;
    let of_v2 = <v2::metric::base::AccessVector as v2::Metric>::TYPE;
    let of_v4 = <v4::metric::base::AttackVector as v4::metric::Metric>::TYPE;
    assert!(rt; of_v2 == v2::MetricType::AV && of_v4 == v4::MetricType::AV);
    let rows = [
        (<AttackVector as v3::Metric>::TYPE, MetricType::AV),
        (AttackVector::TYPE, MetricType::AV),
        (Modified::<AttackVector>::TYPE, MetricType::MAV),
        (ModifiedScope::TYPE, MetricType::MS),
    ];
    are_equal(&rt, &rows);
}

#[test]
fn rejected_values_are_reported_under_base_metrics(rt: HostRuntime) {
    use cvss::v3::{Metric, MetricType};
    use v3::metric::base::AttackVector;
    use v3::metric::temporal::RemediationLevel;
    let rows = [
        (AttackVector::FAULT_TYPE, MetricType::AV),
        (Modified::<AttackVector>::FAULT_TYPE, MetricType::AV),
        (ModifiedScope::FAULT_TYPE, MetricType::S),
        (RemediationLevel::FAULT_TYPE, MetricType::RL),
    ];
    are_equal(&rt, &rows);
}

#[test]
fn values_are_those_of_their_spellings(rt: HostRuntime) {
    use cvss::v2::Metric as _;
    use cvss::v3::Metric as _;
    use v2::metric::base::AccessVector;
    use v3::metric::base::AttackVector;
    let local = AccessVector::from_str(rt.alloc(), "L").ok();
    let network = AttackVector::from_str(rt.alloc(), "N").ok();
    assert!(rt; matches!(local, Some(AccessVector::Local)));
    assert!(rt; matches!(network, Some(AttackVector::Network)));
}

#[test]
fn names_metrics_of_each_version(rt: HostRuntime) {
    let of_v2 = MetricType::V2(v2::MetricType::Au);
    let of_v3 = MetricType::V3(v3::MetricType::AV);
    let of_v4 = MetricType::V4(v4::MetricType::MAV);
    let rows = [
        (of_v2.name(), "Au"),
        (of_v2.description(), "Authentication"),
        (of_v3.name(), "AV"),
        (of_v3.description(), "Attack Vector"),
        (of_v4.name(), "MAV"),
        (of_v4.description(), "Modified Attack Vector"),
    ];
    are_equal(&rt, &rows);
}
