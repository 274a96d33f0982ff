//! CVSS v2: its vectors and scores.

pub mod laws;
mod vector;

pub use cvss_score::v2::Score;
pub use vector::{Metrics, Vector};
