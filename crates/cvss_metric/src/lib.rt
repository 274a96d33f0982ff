//! The metrics of each version of CVSS: the enums of their values, and of v4.0 the places of values.
#![tactic(auto)]

pub mod v2;
pub mod v3;
pub mod v4;
