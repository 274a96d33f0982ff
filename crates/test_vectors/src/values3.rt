//! Values of the metrics of CVSS v3.

use crate::kinds::{Asked, print_with, reported_at};
use crate::shown::{print_error, print_value, show};
use cvss::v3::{Metric, MetricType};
use cvss_metric::v3::base::*;
use cvss_metric::v3::environmental::*;
use cvss_metric::v3::temporal::*;
use cvss_vector::each_v3_metric;
use std::io;

/// Says of the metric of a name, or of its values.
pub(crate) fn answer(rt: &HostRuntime, name: &str, asked: Asked<'_>) -> io::Result<()> {
    match MetricType::from_str(rt.alloc(), name) {
        Ok(kind) => each_v3_metric!(reported_at!(rt, kind, asked)),
        Err(error) => print_error(rt, &error),
    }
}

fn reported<M: Metric + Drop>(
    rt: &HostRuntime,
    kind: MetricType,
    asked: Asked<'_>,
) -> io::Result<()> {
    match asked {
        Asked::Name => print_with(rt, &kind, kind.name(), kind.description()),
        Asked::One(text) => one::<M>(rt, text),
        Asked::Each(words) => show(rt, words, |alloc, word| M::from_str(alloc, word)),
    }
}

fn one<M: Metric + Drop>(rt: &HostRuntime, text: &str) -> io::Result<()> {
    match M::from_str(rt.alloc(), text) {
        Ok(value) => print_value(rt, &value, M::name(), value.as_str(), weight_of(value)),
        Err(error) => print_error(rt, &error),
    }
}

/// The weight of a value, if it has one.
fn weight_of<M: Metric + Drop>(value: M) -> Option<i128> {
    if value.has_score() {
        Some(value.score())
    } else {
        None
    }
}
