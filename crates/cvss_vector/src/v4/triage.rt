//! Triage: vectors of CVSS v4.0, scored with an organisation's own environmental metrics in place
//! of theirs, in falling order of score.

mod error;
mod rank;
mod row;

pub use error::TriageError;
pub use rank::apply;
pub use row::Row;
