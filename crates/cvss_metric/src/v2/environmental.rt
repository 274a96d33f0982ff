//! The environmental metrics (guide, section 2.3).

mod loss;
mod requirement;

pub use loss::{CollateralDamagePotential, TargetDistribution};
pub use requirement::{AvailabilityRequirement, ConfidentialityRequirement, IntegrityRequirement};
