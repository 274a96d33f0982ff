//! CVSS v4.0: its vectors, their nomenclature and their scores.

pub mod laws;
pub mod overrides;
pub mod triage;
mod vector;

pub use cvss_score::v4::scoring::explanation::Explanation;
pub use cvss_score::v4::{Nomenclature, Score};
pub use vector::{Metrics, OverrideError, Vector};
