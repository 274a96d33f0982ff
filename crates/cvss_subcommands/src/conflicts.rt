//! Options and operands that do not go together.

ghost use Rattle.std.specs.Prelude.{◌≡◌};
ghost use Rattle.cvss_subcommands.specs.Conflicts.{all_scores_error, assume_flag, conflict_of, count_conflict, find_without_csv, has_vector, header_conflict, lines_conflict, rows_of, score_without_csv, table_conflict, texts_conflict, triage_without_csv, without_rows};
ghost use Rattle.cvss_subcommands.specs.Flags.{all_scores_of};

use crate::flags::{Flag, Flags};
use crate::subcommand::Subcommand;
use crate::usage_error::UsageError;
use cvss_frame::{has_name, source_of};

/// What is wrong with what is given together: options and operands. Where `cvss triage` prints all scores,
/// `--base` says by which it ranks.
pub(crate) fn conflict_of(
    subcommand: Subcommand,
    flags: Flags,
    operands: &[Vec<u8>],
) -> Option<UsageError>
    ensures { result ≡ conflict_of subcommand flags operands.now }
{
    match subcommand {
        Subcommand::Triage => match header_conflict(flags, operands) {
            Some(error) => Some(error),
            None => {
                let (excluded, wrong) = (
                    triage_without_csv(flags),
                    count_conflict(subcommand, flags),
                );
                table_conflict(subcommand, flags, excluded, wrong)
            }
        },
        Subcommand::Score => {
            let (excluded, wrong) = (score_without_csv(flags), lines_conflict(flags));
            table_conflict(subcommand, flags, excluded, wrong)
        }
        Subcommand::Find => {
            let (excluded, wrong) = (find_without_csv(flags), texts_conflict(flags));
            table_conflict(subcommand, flags, excluded, wrong)
        }
        Subcommand::Audit if flags.differing && !flags.json => {
            Some(UsageError::NeedsJson(subcommand, Flag::Differing))
        }
        Subcommand::Audit => count_conflict(subcommand, flags),
        Subcommand::Diff if operands.len() == 2 => None,
        Subcommand::Diff => Some(UsageError::NotTwo),
        _ => all_scores_error(subcommand, flags),
    }
}

/// The error of a header that is asked for beside a vector that is an operand, which has none.
fn header_conflict(flags: Flags, operands: &[Vec<u8>]) -> Option<UsageError>
    ensures { result ≡ header_conflict flags operands.now }
{
    if flags.header && has_vector(operands) {
        Some(UsageError::NotForVectors(Subcommand::Triage, Flag::Header))
    } else {
        None
    }
}

/// Whether one of the operands is a vector.
fn has_vector(operands: &[Vec<u8>]) -> bool
    ensures { result ≡ has_vector operands.now }
{
    operands.iter().any(|operand| !has_name(source_of(operand)))
}

/// What is wrong with the options of a subcommand that reads tables: the option that does not go with `--csv`,
/// or without `--csv` one that needs it, or what else is wrong.
fn table_conflict(
    subcommand: Subcommand,
    flags: Flags,
    excluded: Option<Flag>,
    wrong: Option<UsageError>,
) -> Option<UsageError>
    ensures { result ≡ table_conflict subcommand flags excluded wrong }
{
    if flags.csv {
        match excluded {
            Some(other) => Some(UsageError::NotWith(subcommand, Flag::Csv, other)),
            None => None,
        }
    } else if flags.column {
        Some(UsageError::NeedsTable(subcommand, Flag::Column))
    } else if flags.guard && !flags.tsv {
        Some(UsageError::NeedsTable(subcommand, Flag::Guard))
    } else {
        wrong
    }
}

/// The option of `cvss score` that does not go with `--csv`.
fn score_without_csv(flags: Flags) -> Option<Flag>
    ensures { result ≡ score_without_csv flags }
{
    match rows_of(flags) {
        Some(rows) => Some(rows),
        None if flags.standard => Some(Flag::Standard),
        None => flags.gate_flag(),
    }
}

/// What is wrong with the options of `cvss score` that are given together, without `--csv`.
fn lines_conflict(flags: Flags) -> Option<UsageError>
    ensures { result ≡ lines_conflict flags }
{
    match without_rows(flags) {
        Some(flag) => match rows_of(flags) {
            Some(rows) => Some(UsageError::NotWith(Subcommand::Score, flag, rows)),
            None => None,
        },
        None => all_scores_error(Subcommand::Score, flags),
    }
}

/// The option of `cvss find` that does not go with `--csv`.
fn find_without_csv(flags: Flags) -> Option<Flag>
    ensures { result ≡ find_without_csv flags }
{
    if flags.json {
        Some(Flag::Json)
    } else if flags.annotate {
        Some(Flag::Annotate)
    } else {
        match flags.gate_flag() {
            Some(flag) => Some(flag),
            None => assume_flag(flags),
        }
    }
}

/// The option of `cvss find` that says in which version vectors are read, if it is given.
fn assume_flag(flags: Flags) -> Option<Flag>
    ensures { result ≡ assume_flag flags }
{
    flags.assumed.is_some().then_some(Flag::Assume)
}

/// What is wrong with the options of `cvss find` that are given together, without `--csv`: `--annotate`
/// repeats all lines.
fn texts_conflict(flags: Flags) -> Option<UsageError>
    ensures { result ≡ texts_conflict flags }
{
    if flags.annotate
        && let Some(flag) = flags.gate_flag()
    {
        Some(UsageError::NotWith(Subcommand::Find, flag, Flag::Annotate))
    } else if flags.annotate {
        all_scores_error(Subcommand::Find, flags)
    } else {
        match count_conflict(Subcommand::Find, flags) {
            Some(error) => Some(error),
            None => all_scores_error(Subcommand::Find, flags),
        }
    }
}

/// The option of `cvss triage` that does not go with `--csv`: rows of tables are records, which say themselves
/// whether they are headers.
fn triage_without_csv(flags: Flags) -> Option<Flag>
    ensures { result ≡ triage_without_csv flags }
{
    if flags.json {
        Some(Flag::Json)
    } else if flags.count {
        Some(Flag::Count)
    } else if flags.header {
        Some(Flag::Header)
    } else {
        None
    }
}

/// The error of numbers of vectors that are asked for in objects: they have one form.
fn count_conflict(subcommand: Subcommand, flags: Flags) -> Option<UsageError>
    ensures { result ≡ count_conflict subcommand flags }
{
    if flags.count && flags.json {
        Some(UsageError::NotWith(subcommand, Flag::Count, Flag::Json))
    } else {
        None
    }
}

/// The form that is asked for, if it is one of rows.
fn rows_of(flags: Flags) -> Option<Flag>
    ensures { result ≡ rows_of flags }
{
    if flags.json {
        Some(Flag::Json)
    } else if flags.tsv {
        Some(Flag::Tsv)
    } else {
        None
    }
}

/// The option that does not go with rows.
fn without_rows(flags: Flags) -> Option<Flag>
    ensures { result ≡ without_rows flags }
{
    if flags.standard {
        Some(Flag::Standard)
    } else if flags.count {
        Some(Flag::Count)
    } else {
        None
    }
}

/// The error of `--base` beside an option whose output has all scores.
fn all_scores_error(subcommand: Subcommand, flags: Flags) -> Option<UsageError>
    ensures { result ≡ all_scores_error subcommand (all_scores_of flags) }
{
    match flags.all_scores() {
        Some(flag) => Some(UsageError::AllScores(subcommand, flag)),
        None => None,
    }
}
