//! What the arguments of the command ask for.

ghost use Rattle.std.specs.Prelude.{◌≡◌, ◌<◌, ◌==◌, IfSome, None, bytes_eq, length};
ghost use Rattle.std.specs.List.{position};
ghost use Rattle.cvss_subcommands.specs.Flags.{no_flags};
ghost use Rattle.cvss_subcommands.specs.Arguments.{is_option};
ghost use Rattle.cvss_subcommands.specs.Requests.{alone as alone_of, flag_of, found, help_request as help_of, is_help, is_setting, is_version, metric_word, named as named_by, read_words, request_of, value_error, word_of};

use crate::conflicts::conflict_of;
use crate::flags::{Flag, Flags};
use crate::subcommand::Subcommand;
use crate::usage_error::UsageError;

/// What the command is asked for.
#[derive(Drop)]
pub(crate) enum Request {
    /// The help on a subcommand, or on all.
    Help(Option<Subcommand>),
    /// The version.
    Version,
    /// The arguments are not understood.
    Wrong(UsageError),
    Run(Subcommand, Options),
}

/// What follows a subcommand.
#[derive(Drop)]
pub(crate) struct Options {
    pub(crate) flags: Flags,
    /// How many arguments after the subcommand are flags, values of flags and metrics.
    pub(crate) words: usize,
    /// How many of the last arguments are vectors and files.
    pub(crate) operands: usize,
}

/// What a word after a subcommand is, where it is no value of an option.
#[derive(Drop)]
pub(crate) enum Word {
    /// `--`, after which all words are operands.
    End,
    Help,
    Flag(Flag),
    /// A flag that the subcommand does not have.
    Unknown,
    /// What is set in vectors.
    Metric,
    /// Where a metric and its value are expected, and one of them is missing.
    NotMetric,
    Operand,
}

/// What arguments ask for.
pub(crate) fn request_of(arguments: &[Vec<u8>]) -> Request
    ensures { result ≡ request_of arguments.now }
{
    let Some((word, words)) = arguments.split_first() else {
        return Request::Wrong(UsageError::NoCommand);
    };
    if let Some(subcommand) = named(word) {
        read_words(subcommand, words)
    } else if is(word, "help") {
        help_request(words)
    } else if is_help(word) {
        alone(Request::Help(None), words)
    } else if is_version(word) {
        alone(Request::Version, words)
    } else if is_option(word) {
        Request::Wrong(UsageError::UnknownOption(None, arguments.len()))
    } else {
        Request::Wrong(UsageError::UnknownCommand(arguments.len()))
    }
}

/// Whether a word asks for the version.
fn is_version(word: &[u8]) -> bool
    ensures { result ≡ is_version word.now }
{
    is(word, "version") || is(word, "--version") || is(word, "-V")
}

/// The subcommand of this name.
pub(crate) fn named(word: &[u8]) -> Option<Subcommand>
    ensures { result ≡ named_by word.now }
{
    let all = Subcommand::ALL.iter();
    all.copied().find(|subcommand| is(word, subcommand.name()))
}

/// What the words after a subcommand ask for.
fn read_words(subcommand: Subcommand, words: &[Vec<u8>]) -> Request
    ensures { result ≡ read_words subcommand (length words.now) no_flags None words.now }
{
    let mut flags = Flags::none();
    let mut due = None;
    let mut left = words;
    while let Some((word, rest)) = left.split_first() {
        let read = words.len().saturating_sub(left.len());
        match due {
            Some(flag) => match flags.with_value(flag, word) {
                Some(given) => {
                    flags = given;
                    due = None;
                }
                None => return Request::Wrong(value_error(flag, subcommand, left.len())),
            },
            None => match word_of(subcommand, word) {
                Word::End => return found(subcommand, flags, read, rest),
                Word::Operand => return found(subcommand, flags, read, left),
                Word::Help => return Request::Help(Some(subcommand)),
                Word::Unknown => {
                    let error = UsageError::UnknownOption(Some(subcommand), left.len());
                    return Request::Wrong(error);
                }
                Word::NotMetric => return Request::Wrong(UsageError::NotMetric(left.len())),
                Word::Metric => {}
                Word::Flag(flag) => {
                    flags = flags.with(flag);
                    due = flag.value_due();
                }
            },
        }
        left = rest;
    }
    match due {
        Some(_) => Request::Wrong(UsageError::NoValue(subcommand)),
        None => found(subcommand, flags, words.len(), left),
    }
}

pub(crate) fn word_of(subcommand: Subcommand, word: &[u8]) -> Word
    ensures { result ≡ word_of subcommand word.now }
{
    if is(word, "--") {
        Word::End
    } else if is_help(word) {
        Word::Help
    } else if is_option(word) {
        match flag_of(subcommand, word) {
            Some(flag) => Word::Flag(flag),
            None => Word::Unknown,
        }
    } else if subcommand.sets_metrics() {
        metric_word(word)
    } else {
        Word::Operand
    }
}

/// What a word is where metrics are set.
fn metric_word(word: &[u8]) -> Word
    ensures { result ≡ metric_word word.now }
{
    if word.contains(&b'/') || is(word, "-") {
        Word::Operand
    } else if is_setting(word) {
        Word::Metric
    } else {
        Word::NotMetric
    }
}

/// Whether a word has bytes before its first colon, and after it.
fn is_setting(word: &[u8]) -> bool
    ensures { result ≡ is_setting word.now }
{
    match first_index(word, b':') {
        Some(index) => index != 0 && index + 1 != word.len(),
        None => false,
    }
}

/// The index of the first byte with this value.
pub(crate) fn first_index(word: &[u8], value: u8) -> Option<usize>
    ensures index { result ≡ position (λ byte. byte == value) word.now }
    ensures bound { IfSome result (λ index. index < length word.now) }
{
    word.iter().position(|byte| *byte == value)
}

/// The flag of this name that a subcommand has.
pub(crate) fn flag_of(subcommand: Subcommand, word: &[u8]) -> Option<Flag>
    ensures { result ≡ flag_of subcommand word.now }
{
    let known = subcommand.flags().iter();
    known.copied().find(|flag| is(word, flag.name()))
}

/// The request of a subcommand after so many words and with these operands.
fn found(subcommand: Subcommand, flags: Flags, words: usize, operands: &[Vec<u8>]) -> Request
    ensures { result ≡ found subcommand flags words operands.now }
{
    match conflict_of(subcommand, flags, operands) {
        Some(error) => Request::Wrong(error),
        None => {
            let options = Options {
                flags,
                words,
                operands: operands.len(),
            };
            Request::Run(subcommand, options)
        }
    }
}

/// The error of a value that an option cannot have, so many words from the end.
fn value_error(flag: Flag, subcommand: Subcommand, left: usize) -> UsageError
    ensures { result ≡ value_error flag subcommand left }
{
    match flag {
        Flag::Assume => UsageError::UnknownVersion(subcommand, left),
        Flag::Prefer => UsageError::NotPreference(left),
        _ => UsageError::NotScore(subcommand, left),
    }
}

fn help_request(words: &[Vec<u8>]) -> Request
    ensures { result ≡ help_of words.now }
{
    match words {
        [] => Request::Help(None),
        [word] if is(word, "help") || is(word, "version") => Request::Help(None),
        [word] => match named(word) {
            Some(subcommand) => Request::Help(Some(subcommand)),
            None => Request::Wrong(UsageError::UnknownCommand(1)),
        },
        [_, more @ ..] => Request::Wrong(UsageError::Unexpected(more.len())),
    }
}

/// The request, if no more words follow.
fn alone(request: Request, words: &[Vec<u8>]) -> Request
    ensures { result ≡ alone_of request words.now }
{
    match words {
        [] => request,
        _ => Request::Wrong(UsageError::Unexpected(words.len())),
    }
}

fn is_help(word: &[u8]) -> bool
    ensures { result ≡ is_help word.now }
{
    is(word, "--help") || is(word, "-h")
}

pub(crate) fn is(word: &[u8], text: &str) -> bool
    ensures { result ≡ bytes_eq word.now text.now }
{
    word == text.as_bytes()
}

/// Whether a word begins with a hyphen, and is not one alone.
pub(crate) fn is_option(word: &[u8]) -> bool
    ensures { result ≡ is_option word.now }
{
    matches!(word, [b'-', _, ..])
}
