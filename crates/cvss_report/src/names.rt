//! The members and words of FIRST's JSON schemas for the metrics of all versions: `attackVector` for
//! `AV`, and `NETWORK` for its value `N`.

pub mod v2;
pub mod v3;
pub mod v4;
mod words;

pub use words::{ValueWord, word_in};

/// The word of a value that is not defined, spelled `ND` in CVSS v2 and `X` in v3 and v4.0.
pub const NOT_DEFINED: &str = "NOT_DEFINED";
