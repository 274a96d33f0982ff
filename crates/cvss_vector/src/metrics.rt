//! The metrics of a vector of any version, as a list.

ghost use Rattle.std.specs.Iterator.{YieldsFirstBy, item_count};
ghost use Rattle.cvss_text.specs.Listing.{as_listed};
ghost use Rattle.cvss_vector.specs.MetricsLeft.{metrics_left};

use crate::metric_type::MetricType;
use crate::{v2, v3, v4};

/// The metrics that a vector has: the type of each, and how its value is spelled.
#[derive(Drop)]
pub enum Metrics {
    V2(v2::Metrics),
    V3(v3::Metrics),
    V4(v4::Metrics),
}

impl Iterator for Metrics {
    type Item = (MetricType, &'static str);

    ghost next_gives = { YieldsFirstBy as_listed metrics_left };

    ghost remaining = { item_count metrics_left };

    fn next(&mut self) -> Option<(MetricType, &'static str)> {
        match self {
            Metrics::V2(own) => own.next().map(|(kind, text)| (MetricType::V2(kind), text)),
            Metrics::V3(own) => own.next().map(|(kind, text)| (MetricType::V3(kind), text)),
            Metrics::V4(own) => own.next().map(|(kind, text)| (MetricType::V4(kind), text)),
        }
    }
}
