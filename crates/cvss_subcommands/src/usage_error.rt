//! What is wrong with the arguments of the command, and the line that is reported of it.

ghost use Rattle.std.specs.Prelude.{◌≡◌};
ghost use Rattle.cvss_frame.specs.Reports.{reported};
ghost use Rattle.cvss_subcommands.specs.UsageErrors.{ReportsLine, ReportsUsage, after_word, before_word, help_command, needs_text, not_with_text, topic_of, word_at, word_of};

use crate::command::last;
use crate::flags::Flag;
use crate::help::USAGE;
use crate::subcommand::Subcommand;
use cvss_frame::{Report, report_about};
use std::io::Write;

/// What is wrong with the arguments. A word of them is given by how many are left from it on.
#[derive(Clone, Copy, Drop)]
pub(crate) enum UsageError {
    /// There is no argument.
    NoCommand,
    /// The word is no subcommand.
    UnknownCommand(usize),
    /// The word is no option of the subcommand, or of the command where there is none.
    UnknownOption(Option<Subcommand>, usize),
    /// The word is one too many.
    Unexpected(usize),
    /// The last word is an option that needs a value.
    NoValue(Subcommand),
    /// The word is no version that vectors can be assumed to have.
    UnknownVersion(Subcommand, usize),
    /// The word is no score, nor the name of a severity.
    NotScore(Subcommand, usize),
    /// The word does not say which vector of a line is preferred.
    NotPreference(usize),
    /// The word is to be a metric and its value.
    NotMetric(usize),
    /// There is no metric to set.
    NoMetric,
    /// A metric to set is not UTF-8.
    NotUtf8,
    /// `--base` is given with an option whose output has all scores.
    AllScores(Subcommand, Flag),
    /// The option is given without `--csv`, which it is of.
    NeedsTable(Subcommand, Flag),
    /// The option is given with one with which it does not go.
    NotWith(Subcommand, Flag, Flag),
    /// There are more or fewer than two vectors to compare.
    NotTwo,
    /// The option is given beside a vector that is an operand, for which it is not.
    NotForVectors(Subcommand, Flag),
    /// The option is given without `--json`, which it is of.
    NeedsJson(Subcommand, Flag),
}

/// Reports what is wrong with the arguments: one line, or the general help where there is none.
pub(crate) fn report_usage<E: Write>(
    error: UsageError,
    arguments: &[Vec<u8>],
    report: &mut Report<E>,
)
    ensures { ReportsUsage USAGE.now error arguments.now (reported E.contents report.old)
        (reported E.contents report.new) }
{
    if let UsageError::NoCommand = error {
        report.write(USAGE.as_bytes());
    } else {
        report_line(error, arguments, report);
    }
}

/// Reports the line about an error.
fn report_line<E: Write>(error: UsageError, arguments: &[Vec<u8>], report: &mut Report<E>)
    ensures { ReportsLine error arguments.now (reported E.contents report.old)
        (reported E.contents report.new) }
{
    let before = before_word(error).as_bytes();
    let word = word_of(error, arguments);
    let after = after_word(error).as_bytes();
    let help = help_command(topic_of(error)).as_bytes();
    report_about(before, word, &[after, help, b"'\n"], report);
}

/// What is said before the word that a line is about.
fn before_word(error: UsageError) -> &'static str
    ensures { result.now ≡ before_word error }
{
    match error {
        UsageError::UnknownCommand(_) => "cvss: unknown command '",
        UsageError::UnknownOption(_, _) => "cvss: unknown option '",
        UsageError::Unexpected(_) => "cvss: unexpected argument '",
        UsageError::UnknownVersion(_, _) => "cvss: unknown version '",
        UsageError::NotScore(_, _) | UsageError::NotPreference(_) | UsageError::NotMetric(_) => {
            "cvss: '"
        }
        UsageError::NoMetric => "cvss: no metric to set",
        UsageError::NotUtf8 => "cvss: a metric is not UTF-8",
        UsageError::NotTwo => "cvss: two vectors are compared",
        UsageError::AllScores(_, _) => "cvss: --base does not go with '",
        _ => "cvss: option '",
    }
}

/// What is said after it, before the command that prints the help.
fn after_word(error: UsageError) -> &'static str
    ensures { result.now ≡ after_word error }
{
    match error {
        UsageError::NoValue(_) => "' needs a value; see '",
        UsageError::NotScore(_, _) => "' is not a score or a severity; see '",
        UsageError::NotPreference(_) => "' is not 4.0, 3.1, 3.0, 2.0 or highest; see '",
        UsageError::NotMetric(_) => "' is not METRIC:VALUE; see '",
        UsageError::NoMetric | UsageError::NotUtf8 | UsageError::NotTwo => "; see '",
        UsageError::AllScores(_, _) => "', which prints all scores; see '",
        UsageError::NeedsTable(subcommand, flag) => needs_text(subcommand, flag),
        UsageError::NotWith(_, _, other) => not_with_text(other),
        UsageError::NotForVectors(_, _) => "' is for files and standard input; see '",
        UsageError::NeedsJson(_, _) => "' needs --json; see '",
        _ => "'; see '",
    }
}

/// The subcommand whose help is named, or none where it is the help on all.
fn topic_of(error: UsageError) -> Option<Subcommand>
    ensures { result ≡ topic_of error }
{
    match error {
        UsageError::NoCommand | UsageError::UnknownCommand(_) | UsageError::Unexpected(_) => None,
        UsageError::UnknownOption(topic, _) => topic,
        UsageError::NotPreference(_) => Some(Subcommand::Triage),
        UsageError::NotMetric(_) | UsageError::NoMetric | UsageError::NotUtf8 => {
            Some(Subcommand::Set)
        }
        UsageError::NotTwo => Some(Subcommand::Diff),
        UsageError::NoValue(subcommand)
        | UsageError::UnknownVersion(subcommand, _)
        | UsageError::NotScore(subcommand, _)
        | UsageError::AllScores(subcommand, _)
        | UsageError::NeedsTable(subcommand, _)
        | UsageError::NotWith(subcommand, _, _)
        | UsageError::NotForVectors(subcommand, _)
        | UsageError::NeedsJson(subcommand, _) => Some(subcommand),
    }
}

/// The word that the line about an error is about: an argument, or an option.
fn word_of(error: UsageError, arguments: &[Vec<u8>]) -> &[u8]
    ensures { result.now ≡ word_of error arguments.now }
{
    match error {
        UsageError::UnknownCommand(left)
        | UsageError::UnknownOption(_, left)
        | UsageError::Unexpected(left)
        | UsageError::UnknownVersion(_, left)
        | UsageError::NotScore(_, left)
        | UsageError::NotPreference(left)
        | UsageError::NotMetric(left) => word_at(arguments, left),
        UsageError::NoValue(_) => word_at(arguments, 1),
        UsageError::AllScores(_, flag)
        | UsageError::NeedsTable(_, flag)
        | UsageError::NotWith(_, flag, _)
        | UsageError::NotForVectors(_, flag)
        | UsageError::NeedsJson(_, flag) => flag.name().as_bytes(),
        UsageError::NoCommand | UsageError::NoMetric | UsageError::NotUtf8 | UsageError::NotTwo =>
            b"",
    }
}

/// What is said of an option that does not go with another.
fn not_with_text(other: Flag) -> &'static str
    ensures { result.now ≡ not_with_text other }
{
    match other {
        Flag::Json => "' does not go with --json; see '",
        Flag::Standard => "' does not go with --standard; see '",
        Flag::Count => "' does not go with --count; see '",
        Flag::Min => "' does not go with --min; see '",
        Flag::FailOn => "' does not go with --fail-on; see '",
        Flag::Quiet => "' does not go with --quiet; see '",
        Flag::Annotate => "' does not go with --annotate; see '",
        Flag::Assume => "' does not go with --assume; see '",
        Flag::Header => "' does not go with --header; see '",
        _ => "' does not go with --tsv; see '",
    }
}

/// What is said of an option that needs a table.
fn needs_text(subcommand: Subcommand, flag: Flag) -> &'static str
    ensures { result.now ≡ needs_text subcommand flag }
{
    match (subcommand, flag) {
        (Subcommand::Score, Flag::Guard) => "' needs --csv or --tsv; see '",
        _ => "' needs --csv; see '",
    }
}

/// The first of the last so many arguments.
fn word_at(arguments: &[Vec<u8>], left: usize) -> &[u8]
    ensures { result.now ≡ word_at left arguments.now }
{
    match last(arguments, left) {
        [word, ..] => word,
        [] => b"",
    }
}

/// The command that prints the help on a subcommand, or on all.
fn help_command(topic: Option<Subcommand>) -> &'static str
    ensures { result.now ≡ help_command topic }
{
    match topic {
        None => "cvss help",
        Some(Subcommand::Score) => "cvss help score",
        Some(Subcommand::Find) => "cvss help find",
        Some(Subcommand::Explain) => "cvss help explain",
        Some(Subcommand::Set) => "cvss help set",
        Some(Subcommand::Triage) => "cvss help triage",
        Some(Subcommand::Audit) => "cvss help audit",
        Some(Subcommand::Diff) => "cvss help diff",
    }
}
