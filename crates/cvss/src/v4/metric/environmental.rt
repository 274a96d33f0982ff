//! The environmental metrics (v4.0 specification, section 4).

mod attack;
mod requirement;
mod subsequent;
mod vulnerable;

pub use attack::{
    ModifiedAttackComplexity, ModifiedAttackRequirements, ModifiedAttackVector,
    ModifiedPrivilegesRequired, ModifiedUserInteraction,
};
pub use requirement::{
    AvailabilityRequirements, ConfidentialityRequirements, IntegrityRequirements,
};
pub use subsequent::{
    ModifiedAvailabilityImpactToTheSubsequentSystem,
    ModifiedConfidentialityImpactToTheSubsequentSystem,
    ModifiedIntegrityImpactToTheSubsequentSystem,
};
pub use vulnerable::{
    ModifiedAvailabilityImpactToTheVulnerableSystem,
    ModifiedConfidentialityImpactToTheVulnerableSystem,
    ModifiedIntegrityImpactToTheVulnerableSystem,
};
