//! A run of the command: what it does, what it reports, and its exit status.

ghost use Rattle.std.specs.Prelude.{◌≡◌, ◌↔◌, IsTrue, MatchResult};
ghost use Rattle.cvss_frame.specs.Reports.{Reports, reported};
ghost use Rattle.cvss_frame.specs.Streams.{state};
ghost use Rattle.cvss_subcommands.specs.Done.{help_of};
ghost use Rattle.cvss_subcommands.specs.Ending.{EndsBefore, EndsCommand, EndsOrdered, EndsServed, IsClosed, ReportsHint, ReportsNote, ReportsStop, ReportsWrite, fault_report, has_each, is_silent, prints_each};
ghost use Rattle.cvss_subcommands.specs.Requests.{request_of};

use crate::command::run_command;
use crate::flags::Flags;
use crate::help::{
    AUDIT_USAGE, DIFF_USAGE, EXPLAIN_USAGE, FIND_USAGE, SCORE_USAGE, SET_USAGE, TRIAGE_USAGE,
    USAGE, VERSION,
};
use crate::hint::first_hint;
use crate::ordering::options_first;
use crate::requests::{Request, request_of};
use crate::subcommand::Subcommand;
use crate::usage_error::report_usage;
use cvss_frame::{Host, Report, Served, Streams, exit_status, report_error};
use cvss_lines::RunFault;
use std::alloc::{AllocError, Global};
use std::io::{self, ErrorKind, Write};

/// Does what the arguments ask for, where there is memory for them, and reports what is to be said of it.
/// The result is the exit status.
pub fn run<H: Host>(
    alloc: Global,
    arguments: Result<Vec<Vec<u8>>, AllocError>,
    streams: &mut Streams<H>,
) -> u8
    ensures { MatchResult arguments
        (λ arguments. EndsOrdered
        (help_of USAGE.now SCORE_USAGE.now FIND_USAGE.now EXPLAIN_USAGE.now SET_USAGE.now TRIAGE_USAGE.now AUDIT_USAGE.now DIFF_USAGE.now)
        VERSION.now arguments.items (state streams.old) (state streams.new)
        streams.new.output.has_taken streams.new.output.error result)
        (λ _. EndsBefore (state streams.old) (state streams.new) result) }
{
    match arguments {
        Ok(arguments) => match options_first(alloc, arguments) {
            Ok(arguments) => run_with(alloc, &arguments, streams),
            Err(_) => {
                report_fault(RunFault::Memory, &mut streams.errors);
                2
            }
        },
        Err(_) => {
            report_fault(RunFault::Memory, &mut streams.errors);
            2
        }
    }
}

/// Does what the arguments ask for.
fn run_with<H: Host>(alloc: Global, arguments: &[Vec<u8>], streams: &mut Streams<H>) -> u8
    ensures { EndsCommand
        (help_of USAGE.now SCORE_USAGE.now FIND_USAGE.now EXPLAIN_USAGE.now SET_USAGE.now TRIAGE_USAGE.now AUDIT_USAGE.now DIFF_USAGE.now)
        VERSION.now arguments.now (state streams.old) (state streams.new)
        streams.new.output.has_taken streams.new.output.error result }
{
    match run_command(alloc, arguments, streams) {
        Ok(served) => {
            let output = &streams.output;
            end(
                arguments,
                output.has_taken,
                output.error,
                served,
                &mut streams.errors,
            )
        }
        Err(error) => {
            report_usage(error, arguments, &mut streams.errors);
            2
        }
    }
}

/// The exit status of a command that has served what it was asked for, and what is reported then.
fn end<E: Write>(
    arguments: &[Vec<u8>],
    has_taken: bool,
    error: Option<io::Error>,
    served: Served,
    report: &mut Report<E>,
) -> u8
    ensures { EndsServed arguments.now has_taken error served
        (reported E.contents report.old) (reported E.contents report.new) result }
{
    report_hint(served.rejected, arguments, report);
    report_stop(served.stopped, error, report);
    let status = exit_status(served, is_closed(error));
    report_note(
        prints_each(arguments) && is_silent(status, has_taken, error),
        report,
    );
    status
}

/// Reports the hint for the arguments, where a line is rejected and there is one.
fn report_hint<E: Write>(rejected: bool, arguments: &[Vec<u8>], report: &mut Report<E>)
    ensures { ReportsHint rejected arguments.now
        (reported E.contents report.old) (reported E.contents report.new) }
{
    if rejected && let Some(hint) = first_hint(arguments) {
        report.write(hint.text().as_bytes());
    }
}

/// Reports why no more was answered.
fn report_stop<E: Write>(
    stopped: Option<RunFault>,
    error: Option<io::Error>,
    report: &mut Report<E>,
)
    ensures { ReportsStop stopped error
        (reported E.contents report.old) (reported E.contents report.new) }
{
    match stopped {
        Some(RunFault::Read) => report_fault(RunFault::Read, report),
        Some(RunFault::Write) => report_write(error, report),
        Some(RunFault::Memory) => report_fault(RunFault::Memory, report),
        None => {}
    }
}

/// Reports why the answers cannot be written. It is no error that their reader has closed the pipe.
fn report_write<E: Write>(error: Option<io::Error>, report: &mut Report<E>)
    ensures { ReportsWrite error
        (reported E.contents report.old) (reported E.contents report.new) }
{
    match error {
        Some(_) if is_closed(error) => {}
        Some(error) => report_error(b"standard output", error, report),
        None => report_fault(RunFault::Write, report),
    }
}

fn report_fault<E: Write>(fault: RunFault, report: &mut Report<E>)
    ensures { Reports (reported E.contents report.old) (reported E.contents report.new)
        (fault_report fault) }
{
    report.write(fault_text(fault).as_bytes());
}

/// The line that is reported of a fault.
fn fault_text(fault: RunFault) -> &'static str
    ensures { result.now ≡ fault_report fault }
{
    match fault {
        RunFault::Read => "cvss: read failed\n",
        RunFault::Write => "cvss: write failed\n",
        RunFault::Memory => "cvss: out of memory\n",
    }
}

/// Whether the reader of the answers has closed the pipe.
fn is_closed(error: Option<io::Error>) -> bool
    ensures { IsTrue result ↔ IsClosed error }
{
    match error {
        Some(error) => error.kind() == ErrorKind::BrokenPipe,
        None => false,
    }
}

/// Whether arguments ask for an audit that prints an object for each vector.
fn prints_each(arguments: &[Vec<u8>]) -> bool
    ensures { result ≡ prints_each (request_of arguments.now) }
{
    match request_of(arguments) {
        Request::Run(Subcommand::Audit, options) => has_each(options.flags),
        _ => false,
    }
}

/// Whether each vector has an object, and none is passed over.
fn has_each(flags: Flags) -> bool
    ensures { result ≡ has_each flags }
{
    (flags.json && !flags.differing) && (!flags.quiet && flags.minimum.is_none())
}

/// Whether nothing disagrees, nothing was written and nothing failed.
fn is_silent(status: u8, has_taken: bool, error: Option<io::Error>) -> bool
    ensures { result ≡ is_silent status has_taken error }
{
    status == 0 && !has_taken && error.is_none()
}

fn report_note<E: Write>(noted: bool, report: &mut Report<E>)
    ensures { ReportsNote noted (reported E.contents report.old) (reported E.contents report.new) }
{
    if noted {
        report.write(b"cvss: no vector was found\n");
    }
}
