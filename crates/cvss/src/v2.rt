//! CVSS v2: its metrics, vectors and scores, and the laws that hold of them.

pub mod metric;

pub use cvss_laws::v2 as laws;
pub use cvss_vector::v2::{Metrics, Score, Vector};
pub use metric::{Metric, MetricType};
