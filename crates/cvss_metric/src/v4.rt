//! The values of the metrics of CVSS v4.0: how they are spelled, and read from their spelling.

mod metric;
pub mod place;
mod spelling;
pub mod table;

pub use metric::{MetricType, MetricValue};
