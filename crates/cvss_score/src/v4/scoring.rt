//! The scoring of effective values (v4.0 specification, section 8.2).

pub mod classes;
mod classified;
pub mod effective;
pub mod explanation;
mod next;
mod placed;
mod score;
mod shares;
mod values;

pub use next::NextClass;
pub use score::score_tenths;
