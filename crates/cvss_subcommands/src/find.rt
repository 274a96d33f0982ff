//! `cvss find`.

ghost use Rattle.std.specs.Prelude.{◌≡◌, true};
ghost use Rattle.cvss_subcommands.specs.Done.{FindsAll, FindsOrCounts, FindsVectors, MayHint, find_ends, form_of};
ghost use Rattle.cvss_subcommands.specs.Flags.{counts_of};
ghost use Rattle.cvss_frame.specs.Names.{shown_name};
ghost use Rattle.cvss_frame.specs.Operands.{ServesAll};
ghost use Rattle.cvss_frame.specs.Reports.{reported};
ghost use Rattle.cvss_frame.specs.Streams.{state};
ghost use Rattle.cvss_lines.specs.Runs.{Ends};
ghost use Rattle.cvss_matches.specs.Answers.{find_rule};
ghost use Rattle.cvss_subcommands.specs.Hints.{prefix_hint};

use crate::counting::print_count;
use crate::flags::Flags;
use cvss_frame::{Host, Report, Served, Streams, Task, is_plain, serve_operands, shown_text};
use cvss_lines::{RunFault, Summary, run};
use cvss_matches::{Finding, Form, PrefixHint};
use cvss_report::{Gate, Tally};
use cvss_vector::{Scoring, Version};
use std::alloc::Global;
use std::cell::Cell;
use std::io::{Read, Write};

/// Finds the vectors in the operands. A hint follows on standard error if one was rejected for its prefix.
pub(crate) fn find_vectors<H: Host>(
    alloc: Global,
    flags: Flags,
    operands: &[Vec<u8>],
    streams: &mut Streams<H>,
) -> Served
    ensures { FindsAll flags operands.now (state streams.old) (state streams.new) result }
{
    let hint = Cell::new(None);
    let served = find_or_count(alloc, flags, &hint, operands, streams);
    report_hint(hint.get(), &mut streams.errors);
    served
}

/// Finds the vectors in the operands and prints them, or how many there are.
fn find_or_count<H: Host>(
    alloc: Global,
    flags: Flags,
    hint: &Cell<Option<PrefixHint>>,
    operands: &[Vec<u8>],
    streams: &mut Streams<H>,
) -> Served
    ensures { FindsOrCounts (counts_of flags) (find_ends flags)
        operands.now (state streams.old) (state streams.new) result }
{
    if flags.counts() {
        find_and_count(alloc, flags, hint, operands, streams)
    } else {
        find_each(alloc, flags, hint, None, operands, streams)
    }
}

/// Finds the vectors in the operands, of which nothing is printed, and prints how many there are.
fn find_and_count<H: Host>(
    alloc: Global,
    flags: Flags,
    hint: &Cell<Option<PrefixHint>>,
    operands: &[Vec<u8>],
    streams: &mut Streams<H>,
) -> Served
    ensures { FindsOrCounts true (find_ends flags)
        operands.now (state streams.old) (state streams.new) result }
{
    let tally = Cell::new(Tally::new());
    let answered = find_each(alloc, flags, hint, Some(&tally), operands, streams);
    print_count(alloc, tally.get(), answered, streams)
}

/// Finds the vectors in the operands.
fn find_each<H: Host>(
    alloc: Global,
    flags: Flags,
    hint: &Cell<Option<PrefixHint>>,
    tally: Option<&Cell<Tally>>,
    operands: &[Vec<u8>],
    streams: &mut Streams<H>,
) -> Served
    ensures { ServesAll (find_ends flags) operands.now (state streams.old) (state streams.new) result }
{
    let task = Find {
        form: form_of(flags),
        scoring: flags.scoring(),
        allow_incomplete: flags.allow_incomplete,
        assumed: flags.assumed,
        gate: flags.gate_by(),
        hint,
        tally,
    };
    serve_operands(alloc, &task, operands, streams)
}

/// Reports a hint, if there is one.
fn report_hint<E: Write>(hint: Option<PrefixHint>, report: &mut Report<E>)
    ensures { MayHint (reported E.contents report.old) (reported E.contents report.new) }
{
    match hint {
        Some(hint) => report.write(prefix_hint(hint).as_bytes()),
        None => {}
    }
}

/// Reported once a run.
fn prefix_hint(hint: PrefixHint) -> &'static str
    ensures { result.now ≡ prefix_hint hint }
{
    match hint {
        PrefixHint::Loose => "cvss: hint: write the prefix of a vector as `CVSS:3.1/`\n",
        PrefixHint::MissingV31 => {
            "cvss: hint: write `CVSS:3.1/` before a vector of v3.1, or use --assume=3.1\n"
        }
        PrefixHint::MissingV40 => "cvss: hint: write `CVSS:4.0/` before a vector of v4.0\n",
    }
}

/// The form that is asked for.
fn form_of(flags: Flags) -> Form
    ensures { result ≡ form_of flags.json flags.annotate flags.all }
{
    if flags.json {
        Form::Object
    } else if flags.annotate {
        Form::Annotated { all: flags.all }
    } else {
        Form::Located
    }
}

/// Finds the vectors in any text, in the form that is asked for.
#[derive(Drop)]
struct Find<'a> {
    form: Form,
    /// Which score of a vector is printed. Objects have all.
    scoring: Scoring,
    /// A vector of CVSS v3 may lack base metrics, and a line may end after a slash.
    allow_incomplete: bool,
    /// Of which version vectors are that lack their prefix, where no link says it.
    assumed: Option<Version>,
    /// Which vectors are shown, and on which the command fails.
    gate: Option<Gate>,
    /// Set to what is wrong with the prefix of the first vector that is rejected for it.
    hint: &'a Cell<Option<PrefixHint>>,
    /// Where vectors are counted.
    tally: Option<&'a Cell<Tally>>,
}

impl Task for Find<'_> {
    ghost ends = { λ find. FindsVectors find.form find.scoring find.allow_incomplete find.assumed find.gate };

    fn serve_input<R: Read, W: Write>(
        &self,
        alloc: Global,
        prefix: &[u8],
        reader: &mut R,
        writer: &mut W,
    ) -> Result<Summary, RunFault> {
        match self.form {
            Form::Object => self.find_after(alloc, prefix, reader, writer),
            Form::Located | Form::Annotated { .. } => {
                self.find_after_shown(alloc, prefix, reader, writer)
            }
        }
    }
}

impl Find<'_> {
    /// Finds the vectors in an input. Each text begins with the prefix as it is shown.
    fn find_after_shown<R: Read, W: Write>(
        &self,
        alloc: Global,
        prefix: &[u8],
        reader: &mut R,
        writer: &mut W,
    ) -> Result<Summary, RunFault>
        ensures { Ends (find_rule self.now.form self.now.scoring self.now.allow_incomplete
            self.now.assumed self.now.gate (shown_name prefix.now))
            (R.remaining reader.old) (R.remaining reader.new)
            (W.contents writer.old) (W.contents writer.new) result }
    {
        if is_plain(prefix) {
            return self.find_after(alloc, prefix, reader, writer);
        }
        match shown_text(alloc, prefix) {
            Ok(prefix) => self.find_after(alloc, &prefix, reader, writer),
            Err(_) => Err(RunFault::Memory),
        }
    }

    /// Finds the vectors in an input. Each text begins with the prefix, or each object says the file in it.
    fn find_after<R: Read, W: Write>(
        &self,
        alloc: Global,
        prefix: &[u8],
        reader: &mut R,
        writer: &mut W,
    ) -> Result<Summary, RunFault>
        ensures { Ends (find_rule self.now.form self.now.scoring self.now.allow_incomplete
            self.now.assumed self.now.gate prefix.now)
            (R.remaining reader.old) (R.remaining reader.new)
            (W.contents writer.old) (W.contents writer.new) result }
    {
        let finding = Finding {
            form: self.form,
            scoring: self.scoring,
            allow_incomplete: self.allow_incomplete,
            assumed: self.assumed,
            gate: self.gate,
            prefix,
            hint: self.hint,
            tally: self.tally,
        };
        run(&finding, alloc, reader, writer)
    }
}
