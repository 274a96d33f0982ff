//! `cvss`: one command over CVSS vectors, given as words, in files or on standard input, with a
//! subcommand for each thing that it does.
#![tactic(auto)]

use cvss_frame::{Streams, arguments};
use cvss_subcommands::run;
use std::process::ExitCode;

fn main(rt: HostRuntime) -> ExitCode {
    ExitCode::from(run(
        rt.alloc(),
        arguments(rt.alloc(), &rt),
        &mut Streams::of_system(&rt),
    ))
}
