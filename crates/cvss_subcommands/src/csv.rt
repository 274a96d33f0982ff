//! `cvss score --csv` and `cvss find --csv`.

ghost use Rattle.std.specs.Prelude.{◌≡◌, true};
ghost use Rattle.cvss_frame.specs.Reports.{reported};
ghost use Rattle.cvss_frame.specs.Streams.{state};
ghost use Rattle.cvss_subcommands.specs.Csv.{AnswersCsv, MayMiss, asked_of, finds_each};

use crate::column::{column_of, column_text};
use crate::flags::Flags;
use crate::subcommand::Subcommand;
use cvss_csv::{Asked, Column, CsvTask, report_missing};
use cvss_frame::{Host, Report, Served, Streams, serve_operands};
use std::alloc::Global;
use std::cell::Cell;
use std::io::Write;

/// Scores the vectors in the records of the operands, and writes each record once, or once for each vector
/// that is found. An input that lacks the column is reported.
pub(crate) fn answer_csv<H: Host>(
    alloc: Global,
    subcommand: Subcommand,
    flags: Flags,
    words: &[Vec<u8>],
    operands: &[Vec<u8>],
    streams: &mut Streams<H>,
) -> Served
    ensures { AnswersCsv subcommand flags words.now operands.now
        (state streams.old) (state streams.new) result }
{
    let column = column_of(column_text(subcommand, words));
    let lacks_column = Cell::new(false);
    let task = CsvTask {
        asked: asked_of(subcommand, flags),
        column,
        lacks_column: &lacks_column,
    };
    let found = serve_operands(alloc, &task, operands, streams);
    miss(column, lacks_column.get(), found, &mut streams.errors)
}

fn asked_of(subcommand: Subcommand, flags: Flags) -> Asked
    ensures { result ≡ asked_of subcommand flags }
{
    Asked {
        scoring: flags.scoring(),
        allow_incomplete: flags.allow_incomplete,
        guarded: flags.guard,
        each: finds_each(subcommand),
    }
}

/// Whether each vector of a record has a row of its own.
fn finds_each(subcommand: Subcommand) -> bool
    ensures { result ≡ finds_each subcommand }
{
    matches!(subcommand, Subcommand::Find)
}

/// Reports that there is no such column, if that is so, which counts as an input that cannot be read.
fn miss<E: Write>(column: Column<'_>, lacks: bool, served: Served, report: &mut Report<E>) -> Served
    ensures { MayMiss column.entry served
        (reported E.contents report.old) (reported E.contents report.new) result }
{
    match column {
        Column::Index(_, _) | Column::Named(_) if lacks => {
            report_missing(column, report);
            Served {
                unread: true,
                ..served
            }
        }
        _ => served,
    }
}
