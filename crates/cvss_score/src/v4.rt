//! The score of CVSS v4.0: what effective values score, by which numbers, and the nomenclature of
//! the groups of metrics that a score rests on.

mod nomenclature;
mod score;
pub mod scoring;

pub use nomenclature::{Nomenclature, nomenclature_of_groups};
pub use score::{Score, score_of};
