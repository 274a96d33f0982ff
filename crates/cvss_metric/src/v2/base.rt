//! The base metrics (guide, section 2.1).

mod access;
mod impact;

pub use access::{AccessComplexity, AccessVector, Authentication};
pub use impact::{AvailabilityImpact, ConfidentialityImpact, IntegrityImpact};
