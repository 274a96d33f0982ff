//! Examples: callers of the library, each proved from the contracts of the public calls alone.
#![tactic(auto)]

pub mod advisory;
pub mod audit;
pub mod json;
pub mod own_metric;
pub mod v2;
pub mod v3;
pub mod v4;
