//! Explanations of scores: JSON objects with the numbers on the way to a vector's score, written without
//! memory, and the answers of `cvss explain` to lines, which are such objects or text for people, with a
//! line for each metric and for each of the numbers.
#![tactic(auto)]

pub mod decimal;
mod explanation;
pub mod groups;
mod json;
pub mod laws;
mod lines;
mod metrics;
pub mod object;
mod parts;
pub mod step;
mod text;
pub mod v2;
pub mod v3;
mod v4;
mod what_if;

pub use explanation::put_explanation;
pub use json::Explaining;
pub use text::answer_explained;
