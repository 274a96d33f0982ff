//! The equations of CVSS v2: scores from weights.

mod base_score;
mod equations;
pub mod score;
mod weights;

pub use score::Score;
pub use weights::Weights;
