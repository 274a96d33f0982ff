//! What is reported of vectors: the words of FIRST's JSON schemas of CVSS v2.0, v3.0, v3.1 and v4.0, and
//! records by them, the JSON objects in which advisories give a vector, its metrics and its scores; and
//! the answer to a line as one row of a table, in columns or as a JSON object; which vectors a command
//! shows, counts and fails on, by their scores. [`put_record`] writes a record without memory, [`Rows`]
//! answers lines by rows; [`names`] has the schemas' names and words.
#![tactic(auto)]

mod cells;
mod escaping;
mod expected;
mod field;
mod format;
mod gate;
mod group;
pub mod laws;
mod line_score;
pub mod names;
mod record;
mod rows;
mod score;
mod tally;
mod text;
mod threshold;
mod writing;

use cvss_vector::{v2, v3};
pub use escaping::{is_formula, put_error, put_given, reason_of};
pub use expected::{Expected, expected_of};
pub use field::{Field, fields_of};
pub use format::{Format, header};
pub use gate::Gate;
pub use group::{is_in_v2, is_in_v3, score_member, severity_member};
pub use line_score::{score_of, severity_of};
pub use record::{has_member, put_record};
pub use rows::{Rows, write_cells};
pub use score::{Scores, severity_word};
pub use tally::{Tally, count_text, one_more};
pub use text::{put_vector, spelled};
pub use threshold::threshold_of;
pub use writing::put_object_start;
