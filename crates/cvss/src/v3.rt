//! CVSS v3.0 and v3.1: their metrics, vectors and scores, and the laws that hold of them.

pub mod metric;

pub use cvss_laws::v3 as laws;
pub use cvss_vector::v3::{Metrics, Score, Vector};
pub use metric::{Metric, MetricType};
