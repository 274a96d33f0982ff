//! A task over all operands of a command.

ghost use Rattle.std.specs.Prelude.{◌≡◌, IfOk};
ghost use Rattle.cvss_frame.specs.Exit.{nothing_served};
ghost use Rattle.cvss_frame.specs.Marks.{start_error, unread};
ghost use Rattle.cvss_frame.specs.Operands.{IsStep, IsStepOver, Serves, ServesAll, many_files, prefix_of};
ghost use Rattle.cvss_frame.specs.Reports.{ReportsError, ReportsUnread, reported};
ghost use Rattle.cvss_frame.specs.Sources.{source_of};
ghost use Rattle.cvss_frame.specs.Streams.{state};

use crate::files::Files;
use crate::report::{Report, report_error};
use crate::served::Served;
use crate::sources::{Source, has_name, source_of};
use crate::streams::{Host, Streams};
use crate::task::Task;
use crate::watching::{Start, WatchedReader};
use cvss_lines::{RunFault, Summary};
use std::alloc::{AllocError, Global};
use std::io::{Read, Write};

/// Does a task over the operands in turn, or over standard input where there is none. The files that
/// cannot be read are reported.
pub fn serve_operands<T: Task, H: Host>(
    alloc: Global,
    task: &T,
    operands: &[Vec<u8>],
    streams: &mut Streams<H>,
) -> Served
    ensures { ServesAll (T.ends task.now) operands.now (state streams.old) (state streams.new) result }
{
    let inputs = Inputs {
        alloc,
        task,
        many: are_many(operands),
    };
    match operands {
        [] => Served::nothing().after(inputs.serve_operand(b"-", streams)),
        _ => inputs.serve(operands, streams),
    }
}

/// Whether several operands have names that answers may begin with.
pub fn are_many(operands: &[Vec<u8>]) -> bool
    ensures { result ≡ many_files operands.now }
{
    let named = operands
        .iter()
        .filter(|operand| has_name(source_of(operand)));
    named.count() > 1
}

/// A task, and how its inputs are answered.
#[derive(Drop)]
struct Inputs<'a, T> {
    alloc: Global,
    task: &'a T,
    /// Whether there are several files, so that answers begin with their names.
    many: bool,
}

impl<T: Task> Inputs<'_, T> {
    /// Answers the operands in turn.
    fn serve<H: Host>(&self, operands: &[Vec<u8>], streams: &mut Streams<H>) -> Served
        ensures { Serves (T.ends self.now.task.now) self.now.many operands.now
            (state streams.old) (state streams.new) nothing_served result }
    {
        let mut served = Served::nothing();
        let mut left = operands;
        while let Some((operand, rest)) = left.split_first() {
            served = served.after(self.serve_operand(operand, streams));
            if served.stopped.is_some() {
                return served;
            }
            left = rest;
        }
        served
    }

    /// Answers one operand.
    fn serve_operand<H: Host>(
        &self,
        operand: &[u8],
        streams: &mut Streams<H>,
    ) -> Result<Summary, RunFault>
        ensures { IsStep (T.ends self.now.task.now) self.now.many operand.now
            (state streams.old) (state streams.new) result }
    {
        match prefix_of(self.alloc, self.many, operand) {
            Ok(prefix) => self.serve_source(&prefix, operand, streams),
            Err(_) => Err(RunFault::Memory),
        }
    }

    /// Answers what an operand names.
    fn serve_source<H: Host>(
        &self,
        prefix: &[u8],
        operand: &[u8],
        streams: &mut Streams<H>,
    ) -> Result<Summary, RunFault>
        ensures served { IsStepOver (source_of operand.now) (T.ends self.now.task.now prefix.now)
            operand.now (state streams.old) (state streams.new) result }
        ensures unread { ReportsUnread operand.now result
            (state streams.old).reported (state streams.new).reported }
        ensures files { streams.new.files ≡ streams.old.files }
    {
        match source_of(operand) {
            Source::Input => self.serve_reader(
                prefix,
                operand,
                &mut streams.input,
                &mut streams.output,
                &mut streams.errors,
            ),
            Source::Vector => {
                let mut text = WatchedReader::of_text(operand);
                self.serve_reader(
                    prefix,
                    operand,
                    &mut text,
                    &mut streams.output,
                    &mut streams.errors,
                )
            }
            Source::File => match streams.files.open(operand) {
                Ok(file) => {
                    let mut file = WatchedReader::new(file);
                    self.serve_reader(
                        prefix,
                        operand,
                        &mut file,
                        &mut streams.output,
                        &mut streams.errors,
                    )
                }
                Err(error) => {
                    report_error(operand, error, &mut streams.errors);
                    Err(RunFault::Read)
                }
            },
        }
    }

    /// Answers a reader's input as that of an operand.
    fn serve_reader<R: Read, W: Write, E: Write>(
        &self,
        prefix: &[u8],
        operand: &[u8],
        reader: &mut WatchedReader<R>,
        writer: &mut W,
        report: &mut Report<E>,
    ) -> Result<Summary, RunFault>
        ensures served { T.ends self.now.task.now prefix.now
            (unread R.remaining reader.old) (unread R.remaining reader.new)
            (W.contents writer.old) (W.contents writer.new) result }
        ensures unread { ReportsUnread operand.now result
            (reported E.contents report.old) (reported E.contents report.new) }
    {
        let outcome = self.task.serve_input(self.alloc, prefix, reader, writer);
        if let Err(RunFault::Read) = outcome {
            report_unread(operand, reader, report);
        }
        outcome
    }
}

/// What the answers to an operand begin with, by whether there are several files.
fn prefix_of(alloc: Global, many: bool, operand: &[u8]) -> Result<Vec<u8>, AllocError>
    ensures { IfOk result (λ prefix. prefix.items ≡ prefix_of many operand.now) }
{
    let mut prefix = Vec::new(alloc);
    if many && has_name(source_of(operand)) {
        prefix.extend_from_slice(operand)?;
        prefix.push(b':')?;
    }
    Ok(prefix)
}

/// Reports why an operand cannot be read, by its reader. There is no error where the input had no end.
pub(crate) fn report_unread<R, E: Write>(
    operand: &[u8],
    reader: &WatchedReader<R>,
    report: &mut Report<E>,
)
    ensures { ReportsError (start_error reader.now.start) operand.now
        (reported E.contents report.old) (reported E.contents report.new) }
{
    match (&reader.start, reader.error) {
        (Start::Utf16, _) => report_error(operand, UTF16, report),
        (_, Some(error)) => report_error(operand, error, report),
        (_, None) => report_error(operand, RunFault::Read, report),
    }
}

/// The words for an input that cannot be read because it is UTF-16.
const UTF16: &str = "UTF-16; convert it to UTF-8";
