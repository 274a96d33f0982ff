//! The vectors of each version, and of any version: read, printed and scored by the rules of the
//! version that a text says; and the answer to a text, the line of its vector or of why there is none.
#![tactic(auto)]

mod answering;
mod bytes_error;
mod complete;
mod evaluation;
mod group;
mod lines;
mod message;
mod metric_type;
mod metrics;
mod one_version;
mod published;
mod publishing;
mod reading;
mod rejecting;
mod rejection;
mod score_lines;
mod scoring;
mod segment;
mod setting;
pub mod v2;
pub mod v3;
pub mod v4;
mod vector;

pub use answering::{Vectors, answer_score};
pub use bytes_error::BytesError;
pub use cvss_text::buffer::TextBuffer;
pub use evaluation::{Evaluation, Rated};
pub use group::Group;
pub use lines::{write_canonical, write_error, write_vector};
pub use message::Message;
pub use metric_type::MetricType;
pub use metrics::Metrics;
pub use one_version::Versioned;
pub use published::{Bounds, Published};
pub use rejection::{ReadError, Rejection};
pub use scoring::{Scoring, is_undefined};
pub use segment::Segment;
pub use setting::{SetError, Version};
pub use vector::Cvss;
