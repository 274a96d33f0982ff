//! CSV (RFC 4180) with six cells after those of each record: the vector that is found in the record, its
//! version and its scores, or why there is none. A record may be written once for each of its vectors.
#![tactic(auto)]

mod answer;
mod asked;
mod cells;
mod counting;
mod cutting;
mod different;
mod fault;
mod fields;
mod guarding;
pub mod laws;
mod layout;
mod missing;
mod notes;
mod pending;
mod progress;
mod quoting;
mod record;
mod rows;
mod running;
mod search;
mod state;
mod tally;
mod task;
mod value;
mod vector;

pub use asked::{Asked, Cells, Column};
pub use cells::NAMES;
pub use fault::CsvFault;
pub use guarding::push_shown;
pub use layout::{Layout, layout_of};
pub use missing::report_missing;
pub use record::{CutRecord, first_record};
pub use running::run_csv;
pub use task::CsvTask;
pub use value::value_at;
pub use vector::push_vector;
