//! The frame of a program: its arguments, and a task over operands, which are vectors, files or standard
//! input.
#![tactic(auto)]

mod command_line;
mod files;
mod marks;
mod names;
mod operands;
mod reading;
mod report;
mod served;
mod sources;
mod streams;
mod task;
mod watching;
mod whole;

pub use command_line::{CommandLine, arguments, arguments_of};
pub use files::{Files, SystemFiles};
pub use names::{is_plain, put_shown, shown_text};
pub use operands::{are_many, serve_operands};
pub use reading::read_whole;
pub use report::{Report, report_about, report_error};
pub use served::{Served, exit_status};
pub use sources::{Source, has_name, source_of};
pub use streams::{Host, Streams};
pub use task::{EachLine, LineAnswer, Prefixed, Task};
pub use watching::{Start, WatchedReader, WatchedWriter};
pub use whole::read_operand;
