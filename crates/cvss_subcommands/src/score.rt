//! `cvss score`.

ghost use Rattle.std.specs.Prelude.{◌≡◌, Some, true};
ghost use Rattle.cvss_frame.specs.Reports.{reported};
ghost use Rattle.cvss_frame.specs.Streams.{state};
ghost use Rattle.cvss_frame.specs.Operands.{ServesAll};
ghost use Rattle.cvss_subcommands.specs.Flags.{counting_gate_of, gate_of, is_quiet};
ghost use Rattle.cvss_subcommands.specs.Scoring.{AnswersTexts, MayHint, Scores, ScoresHinted, ScoresLines, ScoresOrCounts, ServesTable, header_if};

use crate::counting::{Counting, print_count};
use crate::flags::Flags;
use crate::hint::Hint;
use crate::tasks::{GatedLines, Hinting, Score, ScoreRow};
use cvss_frame::{
    EachLine, Host, LineAnswer, Report, Served, Source, Streams, are_many, serve_operands,
    source_of,
};
use cvss_lines::write_whole;
use cvss_lists::{Scored, Shown, Strict, Trimmed};
use cvss_report::{Format, Gate, Tally, header};
use std::alloc::Global;
use std::cell::Cell;
use std::io::Write;

/// Scores the vectors of the operands. Where none of them is itself a vector, a hint for a rejected line may
/// follow.
pub(crate) fn score<H: Host>(
    alloc: Global,
    flags: Flags,
    operands: &[Vec<u8>],
    streams: &mut Streams<H>,
) -> Served
    ensures { ScoresHinted flags operands.now (state streams.old) (state streams.new) result }
{
    let hint = Cell::new(None);
    let served = serve(alloc, flags, &hint, operands, streams);
    if !have_vector(operands) {
        report_hint(hint.get(), &mut streams.errors);
    }
    served
}

/// Whether one of the operands is a vector, for which the command gives the hint.
fn have_vector(operands: &[Vec<u8>]) -> bool {
    operands
        .iter()
        .any(|operand| matches!(source_of(operand), Source::Vector))
}

/// Reports a hint, if there is one.
fn report_hint<E: Write>(hint: Option<Hint>, report: &mut Report<E>)
    ensures { MayHint (reported E.contents report.old) (reported E.contents report.new) }
{
    match hint {
        Some(hint) => report.write(hint.text().as_bytes()),
        None => {}
    }
}

/// Scores the vectors of the operands, in the form that is asked for.
fn serve<H: Host>(
    alloc: Global,
    flags: Flags,
    hint: &Cell<Option<Hint>>,
    operands: &[Vec<u8>],
    streams: &mut Streams<H>,
) -> Served
    ensures { Scores flags operands.now (state streams.old) (state streams.new) result }
{
    let (gate, allow_incomplete) = (flags.gate(), flags.allow_incomplete);
    if flags.json {
        let task = ScoreRow {
            format: Format::Json,
            named: false,
            allow_incomplete,
            gate,
            hint,
        };
        return serve_operands(alloc, &task, operands, streams);
    }
    if flags.tsv {
        return serve_table(alloc, gate, flags, hint, operands, streams);
    }
    if flags.counts() {
        return serve_and_count(alloc, flags, hint, operands, streams);
    }
    serve_texts(alloc, flags, gate, hint, operands, streams)
}

/// Answers lines by score lines, through the gate if there is one.
fn serve_texts<H: Host>(
    alloc: Global,
    flags: Flags,
    gate: Option<Gate>,
    hint: &Cell<Option<Hint>>,
    operands: &[Vec<u8>],
    streams: &mut Streams<H>,
) -> Served
    ensures { ServesAll (ScoresLines flags gate)
        operands.now (state streams.old) (state streams.new) result }
{
    let scoring = flags.scoring();
    let answer = Score {
        scoring,
        allow_incomplete: flags.allow_incomplete,
    };
    if flags.standard {
        serve_lines(alloc, gate, Strict { answer }, hint, operands, streams)
    } else {
        serve_lines(alloc, gate, answer, hint, operands, streams)
    }
}

/// Answers the lines of the operands, of which nothing is printed, and prints how many there are.
fn serve_and_count<H: Host>(
    alloc: Global,
    flags: Flags,
    hint: &Cell<Option<Hint>>,
    operands: &[Vec<u8>],
    streams: &mut Streams<H>,
) -> Served
    ensures { ScoresOrCounts true flags operands.now (state streams.old) (state streams.new) result }
{
    let tally = Cell::new(Tally::new());
    let answered = serve_counted(alloc, flags, &tally, hint, operands, streams);
    print_count(alloc, tally.get(), answered, streams)
}

/// Answers the lines of the operands, of which nothing is printed, and counts them.
fn serve_counted<H: Host>(
    alloc: Global,
    flags: Flags,
    tally: &Cell<Tally>,
    hint: &Cell<Option<Hint>>,
    operands: &[Vec<u8>],
    streams: &mut Streams<H>,
) -> Served
    ensures { ServesAll (ScoresLines flags (Some (counting_gate_of flags)))
        operands.now (state streams.old) (state streams.new) result }
{
    let gate = flags.counting_gate();
    let scoring = flags.scoring();
    let answer = Score {
        scoring,
        allow_incomplete: flags.allow_incomplete,
    };
    if flags.standard {
        let answer = Counting {
            answer: Strict { answer },
            scoring,
            tally,
        };
        serve_lines(alloc, Some(gate), answer, hint, operands, streams)
    } else {
        let answer = Counting {
            answer,
            scoring,
            tally,
        };
        serve_lines(alloc, Some(gate), answer, hint, operands, streams)
    }
}

/// Answers the lines of the operands, without the blanks around their texts, through the gate if there is one.
fn serve_lines<A: LineAnswer + Scored + Drop, H: Host>(
    alloc: Global,
    gate: Option<Gate>,
    answer: A,
    hint: &Cell<Option<Hint>>,
    operands: &[Vec<u8>],
    streams: &mut Streams<H>,
) -> Served
    ensures { ServesAll (AnswersTexts gate (A.reports answer) (A.rule answer))
        operands.now (state streams.old) (state streams.new) result }
{
    let answer = Trimmed {
        answer: Hinting {
            answer: Shown { answer },
            hint,
        },
    };
    match gate {
        Some(gate) => {
            let task = GatedLines { gate, answer };
            serve_operands(alloc, &task, operands, streams)
        }
        None => {
            let task = EachLine { answer };
            serve_operands(alloc, &task, operands, streams)
        }
    }
}

/// Scores the vectors of the operands in rows, after the names of the columns.
fn serve_table<H: Host>(
    alloc: Global,
    gate: Option<Gate>,
    flags: Flags,
    hint: &Cell<Option<Hint>>,
    operands: &[Vec<u8>],
    streams: &mut Streams<H>,
) -> Served
    ensures { ServesTable gate flags.guard flags.allow_incomplete
        operands.now (state streams.old) (state streams.new) result }
{
    let many = are_many(operands);
    let names = header_if(gate, many);
    match write_whole(&mut streams.output, names.as_bytes()) {
        Ok(()) => {
            let task = ScoreRow {
                format: Format::tsv(flags.guard),
                named: many,
                allow_incomplete: flags.allow_incomplete,
                gate,
                hint,
            };
            serve_operands(alloc, &task, operands, streams)
        }
        Err(fault) => Served::nothing().after(Err(fault)),
    }
}

/// The names of the columns, or nothing where nothing is to be printed.
fn header_if(gate: Option<Gate>, many: bool) -> &'static str
    ensures { result.now ≡ header_if (is_quiet gate) many }
{
    match gate {
        Some(gate) if gate.quiet => "",
        _ => header(many),
    }
}
