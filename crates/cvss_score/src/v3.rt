//! The scores of CVSS v3.0 and v3.1 in whole numbers of small units: weights, equations, roundings.

mod counts;
mod equations;
mod power;
pub mod rounding;
mod rules;
pub mod score;
mod scoring;
pub mod weighing;
mod weights;

pub use rules::{Exponent, Rules};
pub use score::Score;
pub use weights::Weights;
