//! The environmental metrics (v3.1 specification, section 4).

mod modified;
mod requirement;

pub use modified::{BaseValue, Modified, ModifiedScope};
pub use requirement::{AvailabilityRequirement, ConfidentialityRequirement, IntegrityRequirement};
