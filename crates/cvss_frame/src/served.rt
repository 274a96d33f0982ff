//! What a command has come to, and with which status it ends.

ghost use Rattle.std.specs.Prelude.{◌≡◌};
ghost use Rattle.cvss_frame.specs.Exit.{after, exit_status as status_of, nothing_served};

use cvss_lines::{RunFault, Summary};

/// What a command has come to.
#[derive(Drop)]
pub struct Served {
    /// Whether a line was rejected.
    pub rejected: bool,
    /// Whether a file, or standard input, could not be read to its end.
    pub unread: bool,
    /// Why no more was answered: a failure of the writer, or no memory.
    pub stopped: Option<RunFault>,
}

impl Served {
    /// A command that has answered nothing yet.
    pub fn nothing() -> Served
        ensures { result ≡ nothing_served }
    {
        Served {
            rejected: false,
            unread: false,
            stopped: None,
        }
    }

    /// What the command has come to after one more run.
    pub fn after(self, outcome: Result<Summary, RunFault>) -> Served
        ensures { result ≡ after self outcome }
    {
        match outcome {
            Ok(summary) => Served {
                rejected: self.rejected || summary.rejected != 0,
                ..self
            },
            Err(RunFault::Read) => Served {
                unread: true,
                ..self
            },
            Err(fault) => Served {
                stopped: Some(fault),
                ..self
            },
        }
    }
}

/// The exit status: 2 after an I/O error or without memory, else 1 if a line was rejected, else 0. A
/// writer that failed because its reader closed the pipe is no error.
pub fn exit_status(served: Served, closed: bool) -> u8
    ensures { result ≡ status_of served closed }
{
    match served.stopped {
        _ if served.unread => 2,
        Some(RunFault::Write) if closed => 0,
        Some(_) => 2,
        None if served.rejected => 1,
        None => 0,
    }
}
