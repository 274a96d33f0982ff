//! The scores of each version of CVSS, from weights and effective values, and the order of rows by score.
#![tactic(auto)]

pub mod ranking;
pub mod v2;
pub mod v3;
pub mod v4;
