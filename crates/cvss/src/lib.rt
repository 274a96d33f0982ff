//! CVSS vectors: read, printed and scored, with each answer proved.
//!
//! [`Cvss`] is a vector of any version, read from its text by [`Cvss::from_str`]. Version 2 is in
//! [`v2`], versions 3.0 and 3.1 in [`v3`], version 4.0 in [`v4`], each with a `Vector` of its own.
//! [`json`] writes them as JSON strings and reads them back.
#![tactic(auto)]

pub mod json;
pub mod laws;
pub mod v2;
pub mod v3;
pub mod v4;

pub use cvss_base::{Error, LIMIT, MetricGroup, ONE, OneDecimal, PREFIX, Severity, tenths};
pub use cvss_vector::{
    Bounds, BytesError, Cvss, Evaluation, Group, Message, MetricType, Metrics, Published, Rated,
    ReadError, Rejection, Scoring, Segment, SetError, Version,
};
