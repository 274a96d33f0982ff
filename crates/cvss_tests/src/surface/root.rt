//! The root of `cvss`, and JSON.

ghost use Rattle.cvss_vector.specs.Answers.{HasScore};

use super::{Ordered, Reported, Value};
use cvss::json::{JsonError, JsonText};
use cvss::{Cvss, Error, LIMIT, MetricType, Metrics, ONE, PREFIX, Severity, v2, v3, v4};
use serde_json::Value as JsonValue;
use std::alloc::Global;
use std::fmt;
use std::hash::Hash;

const _: (&str, i128, i128) = (PREFIX, ONE, LIMIT);

impl Value for Cvss {}

impl Value for MetricType {}

impl Value for Severity {}

impl Ordered for Severity {}

impl Reported for Error {}

impl Reported for JsonError {}

trait Printed: fmt::Display {}

impl Printed for Cvss {}

impl Printed for Severity {}

trait Hashed: Hash {}

impl Hashed for Severity {}

/// What each score is converted into.
trait OfScores: From<v2::Score> + From<v3::Score> + From<v4::Score> {}

impl OfScores for Severity {}

impl OfScores for i128 {}

trait Lists: Iterator<Item = (MetricType, &'static str)> {}

impl Lists for Metrics {}

fn read(alloc: Global, text: &str) -> Result<Cvss, Error> {
    Cvss::from_str(alloc, text)
}

fn is_scored(cvss: &Cvss) -> bool {
    Cvss::has_score(cvss)
}

fn scored(cvss: &Cvss) -> (i128, Severity)
    requires { HasScore cvss.now }
{
    (Cvss::score(cvss), Cvss::severity(cvss))
}

fn listed(cvss: &Cvss) -> Metrics {
    Cvss::metrics(cvss)
}

fn named(metric: MetricType) -> [&'static str; 2] {
    [MetricType::name(metric), MetricType::description(metric)]
}

fn rated(alloc: Global, text: &str) -> Result<Severity, Error> {
    Severity::from_str(alloc, text)
}

fn word(severity: Severity) -> &'static str {
    Severity::as_str(severity)
}

fn versions_of_vectors(
    cvss: &Cvss,
) -> (
    Option<&v2::Vector>,
    Option<&v3::Vector>,
    Option<&v4::Vector>,
) {
    match cvss {
        Cvss::CvssV20(vector) => (Some(vector), None, None),
        Cvss::CvssV30(vector) => (None, Some(vector), None),
        Cvss::CvssV31(vector) => (None, Some(vector), None),
        Cvss::CvssV40(vector) => (None, None, Some(vector)),
    }
}

fn versions_of_types(
    metric: MetricType,
) -> (
    Option<v2::MetricType>,
    Option<v3::MetricType>,
    Option<v4::MetricType>,
) {
    match metric {
        MetricType::V2(metric) => (Some(metric), None, None),
        MetricType::V3(metric) => (None, Some(metric), None),
        MetricType::V4(metric) => (None, None, Some(metric)),
    }
}

fn versions_of_metrics(
    metrics: &Metrics,
) -> (
    Option<&v2::Metrics>,
    Option<&v3::Metrics>,
    Option<&v4::Metrics>,
) {
    match metrics {
        Metrics::V2(metrics) => (Some(metrics), None, None),
        Metrics::V3(metrics) => (None, Some(metrics), None),
        Metrics::V4(metrics) => (None, None, Some(metrics)),
    }
}

fn severities(severity: Severity) {
    let (Severity::None | Severity::Low | Severity::Medium | Severity::High | Severity::Critical) =
        severity;
}

fn quoted(error: &Error) -> Option<&String> {
    match error {
        Error::InvalidComponent { component: text }
        | Error::InvalidPrefix { prefix: text }
        | Error::UnsupportedVersion { version: text }
        | Error::InvalidMetricV2 { value: text, .. }
        | Error::InvalidMetricV3 { value: text, .. }
        | Error::InvalidMetricV4 { value: text, .. }
        | Error::InvalidNomenclatureV4 { nomenclature: text }
        | Error::InvalidSeverity { name: text }
        | Error::UnknownMetric { name: text } => Some(text),
        Error::DuplicateMetricV2 { .. }
        | Error::MissingMandatoryMetricV2 { .. }
        | Error::DuplicateMetricV3 { .. }
        | Error::DuplicateMetricV4 { .. }
        | Error::MissingMandatoryMetricV4 { .. }
        | Error::OutOfMemory => None,
    }
}

fn reported(error: &Error) -> Option<MetricType> {
    match error {
        Error::InvalidMetricV2 { metric_type, .. }
        | Error::DuplicateMetricV2 { metric_type }
        | Error::MissingMandatoryMetricV2 { metric_type } => Some(MetricType::V2(*metric_type)),
        Error::InvalidMetricV3 { metric_type, .. } | Error::DuplicateMetricV3 { metric_type } => {
            Some(MetricType::V3(*metric_type))
        }
        Error::InvalidMetricV4 { metric_type, .. }
        | Error::DuplicateMetricV4 { metric_type }
        | Error::MissingMandatoryMetricV4 { metric_type } => Some(MetricType::V4(*metric_type)),
        _ => None,
    }
}

trait HasJson: JsonText {}

impl HasJson for Cvss {}

impl HasJson for Severity {}

impl HasJson for v2::Vector {}

impl HasJson for v3::Vector {}

impl HasJson for v4::Vector {}

impl HasJson for v4::Nomenclature {}

fn to_json<T: JsonText + Drop>(alloc: Global, value: &T) -> Result<JsonValue, JsonError> {
    T::to_value(value, alloc)
}

fn from_json<T: JsonText + Drop>(alloc: Global, value: &JsonValue) -> Result<T, JsonError> {
    T::from_value(alloc, value)
}

fn json_errors(error: &JsonError) -> Option<&Error> {
    match error {
        JsonError::NotAString | JsonError::OutOfMemory => None,
        JsonError::Invalid(error) => Some(error),
    }
}
