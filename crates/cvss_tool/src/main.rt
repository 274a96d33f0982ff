//! Reads CVSS vectors from standard input, one a line, and answers each with one line.
#![tactic(auto)]

mod fault;
mod run;
pub mod triage;

pub use cvss_lines::{RunFault, Summary, exit_status, laws};
pub use fault::fault_text;
pub use run::run;
use std::process::ExitCode;

fn main(rt: HostRuntime) -> ExitCode {
    let result = run(rt.alloc(), &mut rt.stdin(), &mut rt.stdout());
    if let Err(fault) = &result {
        let _ = eprintln!(rt; "{}", fault_text(fault));
    }
    ExitCode::from(exit_status(&result))
}
