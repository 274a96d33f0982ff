//! Values of the metrics of CVSS v4.

use crate::kinds::{Asked, print_with, reported_at};
use crate::shown::{print_error, show};
use cvss::v4::metric::{Metric, MetricType, base, environmental, supplemental, threat};
use cvss_vector::each_v4_metric;
use std::io;

/// Says of the metric of a name, or of its values.
pub(crate) fn answer(rt: &HostRuntime, name: &str, asked: Asked<'_>) -> io::Result<()> {
    match MetricType::from_str(rt.alloc(), name) {
        Ok(kind) => each_v4_metric!(reported_at!(rt, kind, asked)),
        Err(error) => print_error(rt, &error),
    }
}

fn reported<M: Metric + Drop>(
    rt: &HostRuntime,
    kind: MetricType,
    asked: Asked<'_>,
) -> io::Result<()> {
    match asked {
        Asked::Name => print_with(rt, &kind, kind.name(), kind.description()),
        Asked::One(text) => one::<M>(rt, text),
        Asked::Each(words) => show(rt, words, |alloc, word| M::from_str(alloc, word)),
    }
}

fn one<M: Metric + Drop>(rt: &HostRuntime, text: &str) -> io::Result<()> {
    match M::from_str(rt.alloc(), text) {
        Ok(value) => print_with(rt, &value, M::name(), value.as_str()),
        Err(error) => print_error(rt, &error),
    }
}
