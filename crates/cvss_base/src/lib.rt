//! What all that reads, prints and scores rests on: what the text of a vector is and why a text is
//! none (in `specs/`), the names of metrics, errors and severities, and exact numbers with their
//! roundings and ratings.
#![tactic(auto)]

pub mod component;
mod error;
mod group;
mod named;
mod number;
mod one_decimal;
mod severity;
pub mod tenths;
pub mod v2;
pub mod v3;
pub mod v4;

pub use error::Error;
pub use group::MetricGroup;
pub use named::Named;
pub use number::{LIMIT, ONE, TENTH};
pub use one_decimal::OneDecimal;
pub use severity::{Severity, severity_of_score};

/// The word that begins the text of a vector, from version 3.0 on (v3.1 specification, section 6).
pub const PREFIX: &str = "CVSS";
