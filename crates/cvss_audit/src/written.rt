//! What is written of a document.

pub mod answer;
mod differs;
mod finding;
mod line;
mod lines;
mod location;
mod members;
mod missing;
mod object;
mod said;
