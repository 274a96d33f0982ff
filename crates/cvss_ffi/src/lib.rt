//! What C gets of texts, as bytes in a buffer of the caller, as plain numbers and as structs.
//!
//! A function that writes something writes it at the beginning of a buffer where it fits, and
//! returns its length, or the number of its items. A buffer that is too small is left as it was.
//! A struct says its own size, so that a later release may lengthen it; one that is too small is left as
//! it was. Nothing takes memory.
#![tactic(auto)]

mod buffer;
mod canonical;
pub mod defined;
pub mod error;
pub mod exact;
pub mod laws;
pub mod matches;
pub mod metrics;
pub mod numbers;
pub mod objects;
mod reading;
mod rejection;
pub mod score;
pub mod score_line;
pub mod score_lines;
pub mod setting;
pub mod values;
pub mod vector;

pub use error::CvssError;
pub use exact::{CvssNumber, CvssNumbers};
pub use matches::CvssMatch;
pub use metrics::CvssMetric;
pub use values::CvssValues;
pub use vector::CvssVector;
