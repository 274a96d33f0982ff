//! Triage: vectors of CVSS v4.0, scored with an organisation's own environmental metrics in place
//! of theirs, in falling order of score.

pub use cvss_vector::v4::triage::{Row, TriageError, apply};
