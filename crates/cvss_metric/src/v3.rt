//! The metrics of CVSS v3.0 and v3.1, each an enum of its values.

pub mod base;
pub mod environmental;
mod metric;
pub mod temporal;

pub use metric::{MetricType, MetricValue, reported_kind, weight_in_counts};
