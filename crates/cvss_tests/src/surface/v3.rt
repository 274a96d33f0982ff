//! Vectors and scores of versions 3.0 and 3.1.

ghost use Rattle.cvss_base.specs.Exact.{IsWithinLimit};

use super::{Ordered, Value};
use cvss::v3::{MetricType, Metrics, Score, Vector, metric};
use cvss::{Error, Severity};
use metric::base::{
    AttackComplexity, AttackVector, Availability, Confidentiality, Integrity, PrivilegesRequired,
    Scope, UserInteraction,
};
use metric::environmental::{
    AvailabilityRequirement, ConfidentialityRequirement, IntegrityRequirement, Modified,
    ModifiedScope,
};
use metric::temporal::{ExploitCodeMaturity, RemediationLevel, ReportConfidence};
use std::alloc::Global;
use std::fmt;

/// The vector with no metric, field by field.
const _: Vector = Vector {
    minor_version: 0usize,
    av: None::<AttackVector>,
    ac: None::<AttackComplexity>,
    pr: None::<PrivilegesRequired>,
    ui: None::<UserInteraction>,
    s: None::<Scope>,
    c: None::<Confidentiality>,
    i: None::<Integrity>,
    a: None::<Availability>,
    e: None::<ExploitCodeMaturity>,
    rl: None::<RemediationLevel>,
    rc: None::<ReportConfidence>,
    cr: None::<ConfidentialityRequirement>,
    ir: None::<IntegrityRequirement>,
    ar: None::<AvailabilityRequirement>,
    mav: None::<Modified<AttackVector>>,
    mac: None::<Modified<AttackComplexity>>,
    mpr: None::<Modified<PrivilegesRequired>>,
    mui: None::<Modified<UserInteraction>>,
    ms: None::<ModifiedScope>,
    mc: None::<Modified<Confidentiality>>,
    mi: None::<Modified<Integrity>>,
    ma: None::<Modified<Availability>>,
};

impl Value for Vector {}

impl Value for MetricType {}

impl Value for Score {}

impl Ordered for MetricType {}

impl Ordered for Score {}

trait Printed: fmt::Display {}

impl Printed for Vector {}

impl Printed for MetricType {}

trait HasDefault: Default {}

impl HasDefault for Vector {}

impl HasDefault for Score {}

impl HasDefault for AttackComplexity {}

trait OfCount: From<i128> {}

impl OfCount for Score {}

trait Lists: Iterator<Item = (MetricType, &'static str)> {}

impl Lists for Metrics {}

fn read(alloc: Global, text: &str) -> Result<Vector, Error> {
    Vector::from_str(alloc, text)
}

fn scores(vector: &Vector) -> [Score; 6] {
    [
        Vector::score(vector),
        Vector::base_score(vector),
        Vector::temporal_score(vector),
        Vector::environmental_score(vector),
        Vector::impact(vector),
        Vector::exploitability(vector),
    ]
}

fn severity(vector: &Vector) -> Severity {
    Vector::severity(vector)
}

fn are_certain(vector: &Vector) -> [bool; 2] {
    [
        Vector::base_is_certain(vector),
        Vector::environmental_is_certain(vector),
    ]
}

fn listed(vector: &Vector) -> Metrics {
    Vector::metrics(vector)
}

fn is_alike(vector: &Vector, other: &Vector) -> bool {
    Vector::same_text(vector, other)
}

fn score(count: i128) -> Score {
    Score::new(count)
}

fn rounded(score: Score, minor_version: usize) -> [Score; 2]
    requires { IsWithinLimit score }
{
    [
        Score::roundup(score),
        Score::roundup_for_version(score, minor_version),
    ]
}

fn rated(score: Score) -> (i128, Severity) {
    (Score::value(score), Score::severity(score))
}

fn named(metric: MetricType) -> [&'static str; 2] {
    [MetricType::name(metric), MetricType::description(metric)]
}

fn metric_type(alloc: Global, text: &str) -> Result<metric::MetricType, Error> {
    MetricType::from_str(alloc, text)
}

fn types(metric: MetricType) {
    let (MetricType::A
    | MetricType::AC
    | MetricType::AV
    | MetricType::C
    | MetricType::I
    | MetricType::PR
    | MetricType::S
    | MetricType::UI
    | MetricType::E
    | MetricType::RL
    | MetricType::RC
    | MetricType::CR
    | MetricType::IR
    | MetricType::AR
    | MetricType::MAV
    | MetricType::MAC
    | MetricType::MPR
    | MetricType::MUI
    | MetricType::MS
    | MetricType::MC
    | MetricType::MI
    | MetricType::MA) = metric;
}
