//! Lists of vectors: which vectors a command shows and on which it fails, by their scores; what is said
//! of the difference of two vectors; and what a version's standard does not allow of a text that is read.
#![tactic(auto)]

mod comparing;
mod cutting;
mod departure;
mod difference;
mod gated;
mod scored;
mod shown;
mod strict;
mod trimmed;

pub use departure::{Departure, departure_of, write_departure};
pub use difference::write_difference;
pub use gated::{Gated, waiting_bytes};
pub use scored::Scored;
pub use shown::{Shown, show_after};
pub use strict::Strict;
pub use trimmed::Trimmed;
