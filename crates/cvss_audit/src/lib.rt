//! CVSS vectors in JSON documents: where they are, what is expected of the members beside them, which
//! members disagree, and the answers that say so.
//!
//! [`vectors_in`] finds the objects of a document that hold vectors, [`differences_at`] returns where a
//! document disagrees with the vector there, and [`Audit`] answers whole inputs.
#![tactic(auto)]

mod counts;
mod disagreements;
mod documents;
mod expected;
pub mod laws;
mod locations;
mod task;
mod tree;
mod written;

pub use counts::Counts;
pub use disagreements::difference::{Difference, Said, differences, differences_at};
pub use documents::input::AuditForm;
pub use expected::scores::{score_number, score_value};
pub use locations::form::Form;
pub use locations::location::{Around, Context, Location};
pub use locations::walk::{Locations, vectors_in};
pub use task::{Asked, Audit, Layout};
