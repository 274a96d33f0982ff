//! The whole command.

ghost use Rattle.std.specs.Prelude.{◌≡◌, ◌++◌, IfOk, OnOk};
ghost use Rattle.cvss_frame.specs.Streams.{state};
ghost use Rattle.cvss_subcommands.specs.Arguments.{metric_part, metrics_in, operands_of, words_of};
ghost use Rattle.cvss_subcommands.specs.Done.{Does, FindsOf, Runs, ScoresOf, SetsGiven, SetsMetrics, help_of};
ghost use Rattle.cvss_subcommands.specs.Requests.{request_of};
ghost use Rattle.cvss_subcommands.specs.Scoring.{WritesText};

use crate::audit::audit;
use crate::csv::answer_csv;
use crate::diff::diff;
use crate::explain::explain;
use crate::find::find_vectors;
use crate::flags::Flags;
use crate::help::{
    AUDIT_USAGE, DIFF_USAGE, EXPLAIN_USAGE, FIND_USAGE, SCORE_USAGE, SET_USAGE, TRIAGE_USAGE,
    USAGE, VERSION, help_of,
};
use crate::requests::{Options, Request, is_option, request_of};
use crate::score::score;
use crate::setting::Set;
use crate::subcommand::Subcommand;
use crate::triage::triage_lines;
use crate::usage_error::UsageError;
use cvss_frame::{EachLine, Host, Served, Streams, serve_operands};
use cvss_lines::{RunFault, write_whole};
use cvss_lists::Shown;
use std::alloc::{AllocError, Global};
use std::io::Write;

/// Does what the arguments ask for.
///
/// # Errors
///
/// The arguments are not understood. Nothing is read, written or reported then.
pub(crate) fn run_command<H: Host>(
    alloc: Global,
    arguments: &[Vec<u8>],
    streams: &mut Streams<H>,
) -> Result<Served, UsageError>
    ensures { Does (request_of arguments.now)
        (help_of USAGE.now SCORE_USAGE.now FIND_USAGE.now EXPLAIN_USAGE.now SET_USAGE.now TRIAGE_USAGE.now AUDIT_USAGE.now DIFF_USAGE.now) VERSION.now
        arguments.now (state streams.old) (state streams.new) result }
{
    match request_of(arguments) {
        Request::Help(topic) => Ok(write_text(help_of(topic), &mut streams.output)),
        Request::Version => Ok(write_text(VERSION, &mut streams.output)),
        Request::Wrong(error) => Err(error),
        Request::Run(subcommand, options) => {
            let operands = last(arguments, options.operands);
            match subcommand {
                Subcommand::Score => {
                    let words = words_of(arguments, options.words);
                    Ok(score_any(alloc, options.flags, words, operands, streams))
                }
                Subcommand::Find => {
                    let words = words_of(arguments, options.words);
                    Ok(find_any(alloc, options.flags, words, operands, streams))
                }
                Subcommand::Explain => { Ok(explain(alloc, options.flags, operands, streams)) }
                Subcommand::Set => set_metrics(alloc, arguments, options, streams),
                Subcommand::Triage => Ok(triage_lines(
                    alloc,
                    words_of(arguments, options.words),
                    options.flags,
                    operands,
                    streams,
                )),
                Subcommand::Diff => Ok(diff(alloc, options.flags, operands, streams)),
                Subcommand::Audit => Ok(audit(alloc, options.flags, operands, streams)),
            }
        }
    }
}

/// Scores the vectors of the operands, in lines or in CSV.
fn score_any<H: Host>(
    alloc: Global,
    flags: Flags,
    words: &[Vec<u8>],
    operands: &[Vec<u8>],
    streams: &mut Streams<H>,
) -> Served
    ensures { ScoresOf flags.csv flags words.now operands.now (state streams.old) (state streams.new) result }
{
    if flags.csv {
        answer_csv(alloc, Subcommand::Score, flags, words, operands, streams)
    } else {
        score(alloc, flags, operands, streams)
    }
}

/// Finds the vectors in the operands, in any text or in CSV.
fn find_any<H: Host>(
    alloc: Global,
    flags: Flags,
    words: &[Vec<u8>],
    operands: &[Vec<u8>],
    streams: &mut Streams<H>,
) -> Served
    ensures { FindsOf flags.csv flags words.now operands.now (state streams.old) (state streams.new) result }
{
    if flags.csv {
        answer_csv(alloc, Subcommand::Find, flags, words, operands, streams)
    } else {
        find_vectors(alloc, flags, operands, streams)
    }
}

/// Sets the metrics that follow the subcommand in the vectors of the operands.
fn set_metrics<H: Host>(
    alloc: Global,
    arguments: &[Vec<u8>],
    options: Options,
    streams: &mut Streams<H>,
) -> Result<Served, UsageError>
    ensures { SetsMetrics (metrics_in (words_of options.words arguments.now)) options
        arguments.now (state streams.old) (state streams.new) result }
{
    match metrics_in(alloc, words_of(arguments, options.words)) {
        Ok(given) => set_given(alloc, &given, arguments, options, streams),
        Err(_) => Ok(Served::nothing().after(Err(RunFault::Memory))),
    }
}

/// Sets metrics, each after a slash, in the vectors of the operands.
fn set_given<H: Host>(
    alloc: Global,
    given: &[u8],
    arguments: &[Vec<u8>],
    options: Options,
    streams: &mut Streams<H>,
) -> Result<Served, UsageError>
    ensures { SetsGiven given.now options arguments.now (state streams.old) (state streams.new) result }
{
    let Some((_, metrics)) = given.split_first() else {
        return Err(UsageError::NoMetric);
    };
    let Ok(metrics) = str::from_utf8(metrics) else {
        return Err(UsageError::NotUtf8);
    };
    let answer = Set {
        metrics,
        scoring: options.flags.scoring(),
        allow_incomplete: options.flags.allow_incomplete,
    };
    let operands = last(arguments, options.operands);
    let answer = Shown { answer };
    let task = EachLine { answer };
    Ok(serve_operands(alloc, &task, operands, streams))
}

/// Writes a text.
fn write_text<W: Write>(text: &str, writer: &mut W) -> Served
    ensures { WritesText text.now (W.contents writer.old) (W.contents writer.new) result }
{
    match write_whole(writer, text.as_bytes()) {
        Ok(()) => Served::nothing(),
        Err(fault) => Served::nothing().after(Err(fault)),
    }
}

/// The last so many of the arguments.
pub(crate) fn last(arguments: &[Vec<u8>], count: usize) -> &[Vec<u8>]
    ensures { result.now ≡ operands_of count arguments.now }
{
    &arguments[arguments.len().saturating_sub(count)..]
}

/// So many arguments after the subcommand.
fn words_of(arguments: &[Vec<u8>], count: usize) -> &[Vec<u8>]
    ensures { result.now ≡ words_of count arguments.now }
{
    match arguments {
        [_, after @ ..] => &after[..count.min(after.len())],
        [] => arguments,
    }
}

/// The metrics among words of metrics and options, each after a slash.
fn metrics_in(alloc: Global, words: &[Vec<u8>]) -> Result<Vec<u8>, AllocError>
    ensures { IfOk result (λ bytes. bytes.items ≡ metrics_in words.now) }
{
    let mut bytes = Vec::new(alloc);
    for word in words {
        push_metric(&mut bytes, word)?;
    }
    Ok(bytes)
}

/// Adds a metric after a slash, and nothing of an option.
fn push_metric(bytes: &mut Vec<u8>, word: &[u8]) -> Result<(), AllocError>
    ensures { OnOk result (bytes.new.items ≡ bytes.old.items ++ metric_part word.now) }
{
    if is_option(word) {
        return Ok(());
    }
    bytes.push(b'/')?;
    bytes.extend_from_slice(word)
}
