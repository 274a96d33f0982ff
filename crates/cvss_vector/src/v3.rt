//! CVSS v3.0 and v3.1: their vectors and scores.

pub mod laws;
mod vector;

pub use cvss_score::v3::Score;
pub use vector::{Metrics, Vector};
