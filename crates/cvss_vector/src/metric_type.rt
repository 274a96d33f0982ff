//! The metrics of all versions.

ghost use Rattle.std.specs.Prelude.{◌≡◌, ◌≤◌, length};
ghost use Rattle.cvss_vector.specs.MetricTypes.{name_of, description_of, words_of};

use cvss_base::{Named, v2, v3, v4};

/// A metric of one of the versions.
#[derive(Clone, Copy, Debug, PartialEq, Eq)]
pub enum MetricType {
    V2(v2::MetricType),
    V3(v3::MetricType),
    V4(v4::MetricType),
}

impl MetricType {
    /// The metric's short name, as written in a vector.
    pub fn name(self) -> &'static str
        ensures { result.now ≡ name_of self }
    {
        match self {
            MetricType::V2(metric) => metric.name(),
            MetricType::V3(metric) => metric.name(),
            MetricType::V4(metric) => metric.name(),
        }
    }

    /// The metric's full name.
    pub fn description(self) -> &'static str
        ensures { result.now ≡ description_of self }
    {
        match self {
            MetricType::V2(metric) => metric.description(),
            MetricType::V3(metric) => metric.description(),
            MetricType::V4(metric) => metric.description(),
        }
    }

    /// The metric in messages, with its version and both names.
    pub(crate) fn words(self) -> &'static str
        ensures text { result.now ≡ words_of self }
        ensures short { length result.now ≤ 80 }
    {
        match self {
            MetricType::V2(metric) => metric.row().3,
            MetricType::V3(metric) => metric.row().3,
            MetricType::V4(metric) => metric.row().3,
        }
    }
}
