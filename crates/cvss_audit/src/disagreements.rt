//! Where a document disagrees with the vectors in it.

pub mod claim;
pub mod difference;
mod ratings;
mod surroundings;
