//! What the command `cvss` does: its arguments, its subcommands, and a task for each.
#![tactic(auto)]

mod audit;
mod column;
mod command;
mod conflicts;
mod counting;
mod csv;
mod diff;
mod explain;
mod find;
mod flags;
mod gating;
mod help;
mod hint;
pub mod laws;
mod ordering;
mod preference;
mod requests;
mod running;
mod score;
mod setting;
mod subcommand;
mod tasks;
mod triage;
mod usage_error;
mod values;

pub use help::USAGE;
pub use hint::{Hint, first_hint};
pub use running::run;
