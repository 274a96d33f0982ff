//! `cvss triage`.

ghost use Rattle.std.specs.Prelude.{◌≡◌, IfOk, map};
ghost use Rattle.cvss_frame.specs.Streams.{state};
ghost use Rattle.cvss_subcommands.specs.Triaging.{TriagesBy, form_of, kind_of, rows_gate, settings_of};
ghost use Rattle.cvss_triage.specs.Settings.{as_words};

use crate::column::{column_of, column_text};
use crate::flags::{Flag, Flags};
use crate::subcommand::Subcommand;
use crate::values::Values;
use cvss_frame::{Host, Served, Streams};
use cvss_lines::RunFault;
use cvss_report::Gate;
use cvss_triage::{Form, Setting, SettingKind, Triage, rank_operands};
use std::alloc::{AllocError, Global};

/// Ranks the lines or records of the operands, with what the words of the options set.
pub(crate) fn triage_lines<H: Host>(
    alloc: Global,
    words: &[Vec<u8>],
    flags: Flags,
    operands: &[Vec<u8>],
    streams: &mut Streams<H>,
) -> Served
    ensures { TriagesBy words.now flags operands.now
        (state streams.old) (state streams.new) result }
{
    let column = column_of(column_text(Subcommand::Triage, words));
    let Ok(settings) = settings_of(alloc, words) else {
        return Served::nothing().after(Err(RunFault::Memory));
    };
    let asked = Triage {
        settings: &settings,
        keep_going: flags.keep_going,
        scoring: flags.scoring(),
        gate: rows_gate(flags),
        allow_incomplete: flags.allow_incomplete,
        count: flags.counts(),
        json: flags.json,
        header: flags.header,
        form: form_of(flags),
        column,
        guarded: flags.guard,
        prefer: flags.prefer,
    };
    rank_operands(alloc, &asked, operands, streams)
}

/// What inputs are cut into.
fn form_of(flags: Flags) -> Form
    ensures { result ≡ form_of flags }
{
    if flags.csv {
        Form::Records
    } else {
        Form::Lines
    }
}

/// Which rows are shown and on which triage fails: all and none where no option says it.
fn rows_gate(flags: Flags) -> Gate
    ensures { result ≡ rows_gate flags }
{
    Gate {
        minimum: flags.minimum.unwrap_or(0),
        fail_on: flags.fail_on,
        quiet: flags.quiet,
    }
}

/// What the words of the options set.
fn settings_of(alloc: Global, words: &[Vec<u8>]) -> Result<Vec<Setting<'_>>, AllocError>
    ensures { IfOk result (λ settings. map as_words settings.items ≡ settings_of words.now) }
{
    let mut settings = Vec::new(alloc);
    let mut values = Values::of(Subcommand::Triage, words);
    while let Some((flag, word)) = values.take_next() {
        if let Some(kind) = kind_of(flag) {
            settings.push(Setting { kind, word })?;
        }
    }
    Ok(settings)
}

/// How an option sets metrics, if it does.
fn kind_of(flag: Flag) -> Option<SettingKind>
    ensures { result ≡ kind_of flag }
{
    match flag {
        Flag::Set => Some(SettingKind::Metrics),
        Flag::Profile => Some(SettingKind::Profile),
        _ => None,
    }
}
