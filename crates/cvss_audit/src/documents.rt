//! How an input holds its documents.

pub mod files;
pub mod input;
pub mod lines;
pub mod whole;
