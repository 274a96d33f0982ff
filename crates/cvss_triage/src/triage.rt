//! The whole of triage.

ghost use Rattle.std.specs.Prelude.{◌≡◌, ◌↔◌, All, IfOk, IsSome, IsTrue, List, MatchOption, option_map};
ghost use Rattle.cvss_frame.specs.Reports.{reported};
ghost use Rattle.cvss_frame.specs.Streams.{state};
ghost use Rattle.cvss_triage.specs.Settings.{AreUnderstood};
ghost use Rattle.cvss_triage.specs.declared.overrides.Override.{Override};
ghost use Rattle.cvss_triage.specs.private.Steps.{AreOwnMetrics, IsToTen};
ghost use Rattle.cvss_triage.specs.Triage.{IsOutcome, IsRanked, PrintsIf, RanksLines, Triages, WritesOutcome, asked_of, shows};

use crate::form::Form;
use crate::input::{Input, inputs_by};
use crate::inputs::read_inputs;
use crate::lines::{first_header, lines_of};
use crate::locations::Locations;
use crate::overrides::{Override, overrides_of};
use crate::own_metrics::OwnMetrics;
use crate::preferring::Preference;
use crate::ranking::{Ranking, Rules};
use crate::report::{report_bad, report_lacking, report_unknown};
use crate::rows::printed_text;
use crate::served::{after_gate, served_of, shows};
use crate::settings::{Setting, SettingText, read_settings};
use crate::style::Style;
use cvss_csv::Column;
use cvss_frame::{Host, Report, Served, Streams, WatchedWriter, are_many};
use cvss_lines::{RunFault, write_whole};
use cvss_report::Gate;
use cvss_vector::Scoring;
use std::alloc::{AllocError, Global};
use std::io::Write;

/// What triage is asked for.
#[derive(Drop)]
pub struct Triage<'a> {
    /// What is set, the later after the earlier.
    pub settings: &'a [Setting<'a>],
    /// The other lines are ranked where a line has no row or an input cannot be read.
    pub keep_going: bool,
    /// Vectors of CVSS v3 may lack base metrics.
    pub allow_incomplete: bool,
    /// By which score of each vector lines are ranked.
    pub scoring: Scoring,
    /// Which rows are shown, and on which triage fails.
    pub gate: Gate,
    /// In place of rows it is written how many of them there are of each severity.
    pub count: bool,
    /// Rows are written as JSON objects.
    pub json: bool,
    /// The first line of each input is its header, which is not ranked.
    pub header: bool,
    /// What is ranked. Rows of records are records.
    pub form: Form,
    /// Which cell of a record has its vector. The first record of an input is its header if no vector is found
    /// in it, or if the column has a name. An input that lacks the column is not ranked.
    pub column: Column<'a>,
    /// The cells of records are guarded, as by `cvss_csv`.
    pub guarded: bool,
    /// Which vector is ranked of a line that has several.
    pub prefer: Option<Preference>,
}

/// What is written, and what triage comes to once it is.
#[derive(Drop)]
struct Outcome {
    text: Vec<u8>,
    served: Served,
}

/// Ranks the lines or records of the operands, or of standard input where there is none, and writes the rows
/// that the gate shows. Nothing is written before all is read. Metrics that hold for no version, inputs that
/// cannot be read and what has no row are reported.
pub fn rank_operands<H: Host>(
    alloc: Global,
    asked: &Triage<'_>,
    operands: &[Vec<u8>],
    streams: &mut Streams<H>,
) -> Served
    ensures { Triages (asked_of asked.now) operands.now
        (state streams.old) (state streams.new) result }
{
    match outcome_of(alloc, asked, operands, streams) {
        Ok(outcome) => write_outcome(outcome, &mut streams.output),
        Err(_) => Served::nothing().after(Err(RunFault::Memory)),
    }
}

fn write_outcome<W: Write>(outcome: Outcome, writer: &mut WatchedWriter<W>) -> Served
    ensures { WritesOutcome outcome.text.items outcome.served
        (W.contents writer.old.writer) (W.contents writer.new.writer) result }
{
    match write_whole(writer, &outcome.text) {
        Ok(()) => outcome.served,
        Err(fault) => outcome.served.after(Err(fault)),
    }
}

/// What triage comes to, once all is read. Nothing is written.
fn outcome_of<H: Host>(
    alloc: Global,
    asked: &Triage<'_>,
    operands: &[Vec<u8>],
    streams: &mut Streams<H>,
) -> Result<Outcome, AllocError>
    ensures outcome { IfOk result (λ outcome. IsOutcome (asked_of asked.now) operands.now
        (state streams.old) (state streams.new) outcome.text.items outcome.served) }
    ensures written { (state streams.new).written ≡ (state streams.old).written }
{
    let texts = read_settings(alloc, asked.settings, streams)?;
    let overrides = overrides_of(alloc, &texts)?;
    let Some(own) = understood(&texts, &overrides) else {
        report_unknown(alloc, &texts, &mut streams.errors)?;
        return Ok(Outcome {
            text: Vec::new(alloc),
            served: Served::nothing().after(Err(RunFault::Read)),
        });
    };
    let inputs = read_inputs(alloc, operands, streams)?;
    ranked(alloc, asked, own, operands, &inputs, &mut streams.errors)
}

/// The metrics that overrides set, if all texts are read and each override holds for some vector.
fn understood(texts: &[SettingText<'_>], overrides: &[Override<'_>]) -> Option<OwnMetrics>
    ensures { MatchOption result (¬ (AreUnderstood texts.now overrides.now))
        (λ own. AreUnderstood texts.now overrides.now × AreOwnMetrics overrides.now own) }
{
    if !are_read(texts) {
        return None;
    }
    OwnMetrics::of(overrides)
}

fn are_read(texts: &[SettingText<'_>]) -> bool
    ensures { IsTrue result ↔ All (λ it. IsSome it.text) texts.now }
{
    texts.iter().all(|it| it.text.is_some())
}

/// The rows of the lines or records of the inputs that have these texts.
fn ranked<E: Write>(
    alloc: Global,
    asked: &Triage<'_>,
    own: OwnMetrics,
    operands: &[Vec<u8>],
    texts: &[Option<Vec<u8>>],
    report: &mut Report<E>,
) -> Result<Outcome, AllocError>
    ensures { (overrides : List Override) → AreOwnMetrics overrides own → IfOk result (λ outcome.
        IsRanked (asked_of asked.now) overrides operands.now texts.now
        (reported E.contents report.old) (reported E.contents report.new)
        outcome.text.items outcome.served) }
{
    let inputs = inputs_by(alloc, asked, texts)?;
    report_lacking(asked.column, &inputs, report);
    ranked_lines(alloc, asked, own, operands, &inputs, report)
}

/// The rows of the lines or records of inputs.
fn ranked_lines<E: Write>(
    alloc: Global,
    asked: &Triage<'_>,
    own: OwnMetrics,
    operands: &[Vec<u8>],
    inputs: &[Input<'_>],
    report: &mut Report<E>,
) -> Result<Outcome, AllocError>
    ensures { (overrides : List Override) → AreOwnMetrics overrides own → IfOk result (λ outcome.
        RanksLines (asked_of asked.now) overrides operands.now inputs.now
        (reported E.contents report.old) (reported E.contents report.new)
        outcome.text.items outcome.served) }
{
    let lines = lines_of(alloc, asked.form, inputs)?;
    let rules = Rules {
        own,
        scoring: asked.scoring,
        allow_incomplete: asked.allow_incomplete,
        prefer: asked.prefer,
    };
    let ranking = Ranking::of(alloc, &lines.lines, &rules)?;
    let locations = Locations {
        form: asked.form,
        lines: &lines.lines,
        starts: &lines.starts,
        many: are_many(operands),
        operands,
    };
    report_bad(alloc, &ranking.bad, &locations, report)?;
    let read = served_of(&ranking.bad, inputs);
    let style = Style::of(asked, inputs);
    let top = first_header(asked.form, inputs);
    printed(alloc, asked, &style, top, &ranking, &locations, read)
}

/// What is printed of a ranking, and what triage comes to, after what it comes to by what is read.
fn printed(
    alloc: Global,
    asked: &Triage<'_>,
    style: &Style,
    top: Option<&[u8]>,
    ranking: &Ranking<'_>,
    locations: &Locations<'_>,
    read: Served,
) -> Result<Outcome, AllocError>
    requires { All IsToTen ranking.now.rows.items }
    ensures { IfOk result (λ outcome. PrintsIf (shows asked.now.keep_going read) (asked_of asked.now)
        style.now (option_map (λ line. line.now) top.entry) locations.now.starts.now locations.now.many
        locations.now.operands.now ranking.now read outcome.text.items outcome.served) }
{
    if !shows(asked.keep_going, &read) {
        return Ok(Outcome {
            text: Vec::new(alloc),
            served: read,
        });
    }
    let text = printed_text(alloc, asked, style, top, ranking, locations)?;
    let served = after_gate(asked.gate, &ranking.rows, read);
    Ok(Outcome { text, served })
}
