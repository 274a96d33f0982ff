//! The base metrics (v4.0 specification, section 2).

mod attack;
mod subsequent;
mod vulnerable;

pub use attack::{
    AttackComplexity, AttackRequirements, AttackVector, PrivilegesRequired, UserInteraction,
};
pub use subsequent::{
    AvailabilityImpactToTheSubsequentSystem, ConfidentialityImpactToTheSubsequentSystem,
    IntegrityImpactToTheSubsequentSystem,
};
pub use vulnerable::{
    AvailabilityImpactToTheVulnerableSystem, ConfidentialityImpactToTheVulnerableSystem,
    IntegrityImpactToTheVulnerableSystem,
};
