//! What the members beside a vector should say.

pub mod member;
pub mod scores;
pub mod sub_scores;
