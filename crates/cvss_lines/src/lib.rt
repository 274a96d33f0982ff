//! Programs that answer each line of an input: how the input is cut into lines, in what pieces it is
//! read and its answers are written, and how a run ends. What answers a line is
//! an [`Answering`], or a [`Service`] where an answer may be long.
#![tactic(auto)]

mod answering;
mod buffered;
mod fault;
pub mod laws;
mod lines;
mod pending;
mod progress;
mod reading;
mod running;
mod search;
mod service;
mod summary;

pub use answering::Answering;
pub use buffered::{OutputBuffer, write_whole};
pub use fault::RunFault;
pub use lines::{cut_at_line_end, first_line, line_text};
pub use reading::read_buffer;
pub use running::{run, serve};
pub use search::either_or_len;
pub use service::Service;
pub use summary::{Summary, exit_status};
