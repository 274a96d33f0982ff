//! CVSS vectors for C: parsed, printed and scored by functions over bytes, each proved up to the
//! call.
//!
//! A text is a pointer and a length. A function that takes a buffer writes its result at the
//! beginning of the buffer where it fits, leaves the buffer as it was where it does not, and
//! returns the result's length either way. A struct says its own size; one that is smaller than this
//! release has it is left as it was. A function that takes an error writes the message of a rejection
//! as its result, and fills in the error. No function takes memory.
#![tactic(auto)]

mod exact;
mod lines;
mod setting;
mod vectors;

pub use cvss_ffi::{
    CvssError, CvssMatch, CvssMetric, CvssNumber, CvssNumbers, CvssValues, CvssVector,
};
pub use exact::{cvss_numbers, cvss_rounded, cvss_temporal_with_impact};
pub use lines::{cvss_find, cvss_score_line, cvss_score_lines};
pub use setting::{cvss_from_metrics, cvss_with_metrics, cvss_without_not_defined};
pub use vectors::{
    cvss_explain, cvss_metrics, cvss_parse, cvss_record, cvss_score, cvss_severity, cvss_values,
};
