//! The metrics of versions 3.0 and 3.1 and their values.

ghost use Rattle.std.specs.Prelude.{IsSome};
ghost use Rattle.cvss.specs.TableV3.{weight_of};

use cvss::Error;
use cvss::v3::metric::base::{
    AttackComplexity, AttackVector, Availability, Confidentiality, Integrity, PrivilegesRequired,
    Scope, UserInteraction,
};
use cvss::v3::metric::environmental::{
    AvailabilityRequirement, BaseMetric, ConfidentialityRequirement, IntegrityRequirement,
    Modified, ModifiedScope,
};
use cvss::v3::metric::temporal::{ExploitCodeMaturity, RemediationLevel, ReportConfidence};
use cvss::v3::{Metric, MetricType, metric};
use std::alloc::Global;
use std::fmt;

/// What generic code has of any metric.
trait OfMetric: Copy + Clone + fmt::Debug + fmt::Display + Eq + Ord {
    const TYPE: MetricType;

    const FAULT_TYPE: MetricType;
}

impl<M: Metric> OfMetric for M {
    const TYPE: MetricType = M::TYPE;

    const FAULT_TYPE: MetricType = M::FAULT_TYPE;
}

/// What generic code has of any base metric that can be modified.
trait OfBaseMetric: Metric {
    const MODIFIED_TYPE: MetricType;
}

impl<M: BaseMetric> OfBaseMetric for M {
    const MODIFIED_TYPE: MetricType = M::MODIFIED_TYPE;
}

trait IsMetric: metric::Metric {}

impl IsMetric for AttackVector {}

impl IsMetric for AttackComplexity {}

impl IsMetric for PrivilegesRequired {}

impl IsMetric for UserInteraction {}

impl IsMetric for Scope {}

impl IsMetric for Confidentiality {}

impl IsMetric for Integrity {}

impl IsMetric for Availability {}

impl IsMetric for ExploitCodeMaturity {}

impl IsMetric for RemediationLevel {}

impl IsMetric for ReportConfidence {}

impl IsMetric for ConfidentialityRequirement {}

impl IsMetric for IntegrityRequirement {}

impl IsMetric for AvailabilityRequirement {}

impl IsMetric for ModifiedScope {}

impl<M: BaseMetric> IsMetric for Modified<M> {}

trait IsBaseMetric: BaseMetric {}

impl IsBaseMetric for AttackVector {}

impl IsBaseMetric for AttackComplexity {}

impl IsBaseMetric for PrivilegesRequired {}

impl IsBaseMetric for UserInteraction {}

impl IsBaseMetric for Confidentiality {}

impl IsBaseMetric for Integrity {}

impl IsBaseMetric for Availability {}

fn described<M: Metric + Drop>(metric: M) -> (&'static str, &'static str, bool) {
    (M::name(), M::as_str(metric), M::has_score(metric))
}

fn score<M: Metric + Drop>(metric: M) -> i128
    requires { IsSome (weight_of M.KIND (M.value metric)) }
{
    M::score(metric)
}

fn read<M: Metric + Drop>(text: &str) -> [Option<M>; 2] {
    [M::read(text), M::read_raised(text)]
}

fn from_str<M: Metric + Drop>(alloc: Global, text: &str) -> Result<M, Error> {
    M::from_str(alloc, text)
}

fn modified_score<M: BaseMetric + Drop>(modified: Modified<M>, base: Option<M>) -> i128 {
    Modified::<M>::modified_score(modified, base)
}

fn scoped_scores(
    value: PrivilegesRequired,
    modified: Modified<PrivilegesRequired>,
    is_changed: bool,
) -> [i128; 2] {
    [
        PrivilegesRequired::scoped_score(value, is_changed),
        Modified::<PrivilegesRequired>::scoped_score(modified, is_changed, Some(value)),
    ]
}

fn is_changed(scope: Scope) -> bool {
    Scope::is_changed(scope)
}

fn modified<T: Copy + Drop>(value: Modified<T>) -> Option<T> {
    match value {
        Modified::NotDefined => None,
        Modified::Modified(value) => Some(value),
    }
}

fn modified_scope(value: ModifiedScope) -> Option<Scope> {
    match value {
        ModifiedScope::NotDefined => None,
        ModifiedScope::Modified(scope) => Some(scope),
    }
}

fn base(
    av: AttackVector,
    ac: AttackComplexity,
    pr: PrivilegesRequired,
    ui: UserInteraction,
    s: Scope,
    c: Confidentiality,
    i: Integrity,
    a: Availability,
) {
    let (AttackVector::Physical
    | AttackVector::Local
    | AttackVector::Adjacent
    | AttackVector::Network) = av;
    let (AttackComplexity::High | AttackComplexity::Low) = ac;
    let (PrivilegesRequired::High | PrivilegesRequired::Low | PrivilegesRequired::None) = pr;
    let (UserInteraction::Required | UserInteraction::None) = ui;
    let (Scope::Unchanged | Scope::Changed) = s;
    let (Confidentiality::None | Confidentiality::Low | Confidentiality::High) = c;
    let (Integrity::None | Integrity::Low | Integrity::High) = i;
    let (Availability::None | Availability::Low | Availability::High) = a;
}

fn temporal(e: ExploitCodeMaturity, rl: RemediationLevel, rc: ReportConfidence) {
    let (ExploitCodeMaturity::NotDefined
    | ExploitCodeMaturity::High
    | ExploitCodeMaturity::Functional
    | ExploitCodeMaturity::ProofOfConcept
    | ExploitCodeMaturity::Unproven) = e;
    let (RemediationLevel::NotDefined
    | RemediationLevel::Unavailable
    | RemediationLevel::Workaround
    | RemediationLevel::TemporaryFix
    | RemediationLevel::OfficialFix) = rl;
    let (ReportConfidence::NotDefined
    | ReportConfidence::Confirmed
    | ReportConfidence::Reasonable
    | ReportConfidence::Unknown) = rc;
}

fn environmental(
    cr: ConfidentialityRequirement,
    ir: IntegrityRequirement,
    ar: AvailabilityRequirement,
) {
    let (ConfidentialityRequirement::NotDefined
    | ConfidentialityRequirement::High
    | ConfidentialityRequirement::Medium
    | ConfidentialityRequirement::Low) = cr;
    let (IntegrityRequirement::NotDefined
    | IntegrityRequirement::High
    | IntegrityRequirement::Medium
    | IntegrityRequirement::Low) = ir;
    let (AvailabilityRequirement::NotDefined
    | AvailabilityRequirement::High
    | AvailabilityRequirement::Medium
    | AvailabilityRequirement::Low) = ar;
}
