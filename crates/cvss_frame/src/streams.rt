//! What a command reads and writes.

ghost use Rattle.std.specs.Prelude.{◌≡◌, None, false};
ghost use Rattle.cvss_frame.specs.State.{HasState};
ghost use Rattle.cvss_frame.specs.declared.watching.Start.TheVariants.{Unread};

use crate::files::{Files, SystemFiles};
use crate::report::Report;
use crate::watching::{WatchedReader, WatchedWriter};
use std::io::{Read, Stderr, Stdin, Stdout, Write};

/// The types of what a command reads and writes.
pub trait Host {
    type Files: Files + Drop;

    type Input: Read + Drop;

    type Output: Write + Drop;

    type Errors: Write + Drop;
}

/// The system that a program runs on.
impl<'a> Host for &'a HostRuntime {
    type Files = SystemFiles<'a>;

    type Input = Stdin;

    type Output = Stdout;

    type Errors = Stderr;
}

/// What a command reads and writes: files, standard input, standard output and standard error.
#[derive(Drop)]
pub struct Streams<H: Host> {
    pub files: H::Files,
    pub input: WatchedReader<H::Input>,
    pub output: WatchedWriter<H::Output>,
    pub errors: Report<H::Errors>,
    pub ghost known: { HasState H.Input.remaining H.Output.contents H.Errors.contents },
}

impl<'a> Streams<&'a HostRuntime> {
    /// The streams of the system, of which nothing is read or written yet.
    pub fn of_system(runtime: &'a HostRuntime) -> Self
        ensures start { result.input.start ≡ Unread }
        ensures read { result.input.error ≡ None }
        ensures written { result.output.error ≡ None }
        ensures taken { result.output.has_taken ≡ false }
        ensures reported { result.errors.has_failed ≡ false }
    {
        Streams {
            files: SystemFiles { runtime },
            input: WatchedReader::new(runtime.stdin()),
            output: WatchedWriter::new(runtime.stdout()),
            errors: Report::new(runtime.alloc(), runtime.stderr()),
        }
    }
}
