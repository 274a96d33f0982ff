//! Vectors and scores of version 2.

ghost use Rattle.cvss_base.specs.Exact.{IsWithinLimit};

use super::{Ordered, Value};
use cvss::v2::{MetricType, Metrics, Score, Vector, metric};
use cvss::{Error, Severity};
use metric::base::{
    AccessComplexity, AccessVector, Authentication, AvailabilityImpact, ConfidentialityImpact,
    IntegrityImpact,
};
use metric::environmental::{
    AvailabilityRequirement, CollateralDamagePotential, ConfidentialityRequirement,
    IntegrityRequirement, TargetDistribution,
};
use metric::temporal::{Exploitability, RemediationLevel, ReportConfidence};
use std::alloc::Global;
use std::fmt;

/// The vector with no metric, field by field.
const _: Vector = Vector {
    av: None::<AccessVector>,
    ac: None::<AccessComplexity>,
    au: None::<Authentication>,
    c: None::<ConfidentialityImpact>,
    i: None::<IntegrityImpact>,
    a: None::<AvailabilityImpact>,
    e: None::<Exploitability>,
    rl: None::<RemediationLevel>,
    rc: None::<ReportConfidence>,
    cdp: None::<CollateralDamagePotential>,
    td: None::<TargetDistribution>,
    cr: None::<ConfidentialityRequirement>,
    ir: None::<IntegrityRequirement>,
    ar: None::<AvailabilityRequirement>,
};

impl Value for Vector {}

impl Value for MetricType {}

impl Value for Score {}

impl Ordered for MetricType {}

impl Ordered for Score {}

trait Printed: fmt::Display {}

impl Printed for Vector {}

impl Printed for MetricType {}

trait HasDefault: Default {}

impl HasDefault for Vector {}

impl HasDefault for Score {}

trait OfCount: From<i128> {}

impl OfCount for Score {}

trait Lists: Iterator<Item = (MetricType, &'static str)> {}

impl Lists for Metrics {}

fn read(alloc: Global, text: &str) -> Result<Vector, Error> {
    Vector::from_str(alloc, text)
}

fn scores(vector: &Vector) -> [Score; 6] {
    [
        Vector::score(vector),
        Vector::temporal_score(vector),
        Vector::environmental_score(vector),
        Vector::impact(vector),
        Vector::exploitability(vector),
        Vector::adjusted_impact(vector),
    ]
}

fn temporal_score(vector: &Vector, impact: Score) -> Score
    requires { IsWithinLimit impact }
{
    Vector::temporal_score_internal(vector, impact)
}

fn listed(vector: &Vector) -> Metrics {
    Vector::metrics(vector)
}

fn is_alike(vector: &Vector, other: &Vector) -> bool {
    Vector::same_text(vector, other)
}

fn score(count: i128) -> Score {
    Score::new(count)
}

fn rounded(score: Score) -> Score
    requires { IsWithinLimit score }
{
    Score::roundup(score)
}

fn rated(score: Score) -> (i128, Severity) {
    (Score::value(score), Score::severity(score))
}

fn named(metric: MetricType) -> [&'static str; 2] {
    [MetricType::name(metric), MetricType::description(metric)]
}

fn metric_type(alloc: Global, text: &str) -> Result<metric::MetricType, Error> {
    MetricType::from_str(alloc, text)
}

fn types(metric: MetricType) {
    let (MetricType::A
    | MetricType::AC
    | MetricType::AV
    | MetricType::Au
    | MetricType::C
    | MetricType::I
    | MetricType::E
    | MetricType::RL
    | MetricType::RC
    | MetricType::CDP
    | MetricType::TD
    | MetricType::CR
    | MetricType::IR
    | MetricType::AR) = metric;
}
