//! The base metrics (v3.1 specification, section 2).

mod access;
mod attack;
mod impact;
mod scope;

pub use access::{PrivilegesRequired, UserInteraction};
pub use attack::{AttackComplexity, AttackVector};
pub use impact::{Availability, Confidentiality, Integrity};
pub use scope::Scope;
