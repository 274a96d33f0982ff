//! CVSS v4.0: its metrics, vectors, their nomenclature and their scores, and the laws that hold of
//! them.

pub mod metric;

pub use cvss_base::v4::MetricType;
pub use cvss_laws::v4 as laws;
pub use cvss_score::v4::scoring;
pub use cvss_vector::v4::{Explanation, Metrics, Nomenclature, OverrideError, Score, Vector};
