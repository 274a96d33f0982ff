//! The metrics of CVSS v2, each an enum of its values.

pub mod base;
pub mod environmental;
mod metric;
pub mod temporal;

pub use metric::{MetricType, MetricValue};
