//! The column that an option says.

ghost use Rattle.std.specs.Prelude.{◌≡◌, ◌-◌, option_copied, true};
ghost use Rattle.std.specs.Char.{is_ascii_digit};
ghost use Rattle.cvss_subcommands.specs.Columns.{IsColumn, by_three, column_text, index_by, number_of};

use crate::flags::Flag;
use crate::subcommand::Subcommand;
use crate::values::Values;
use cvss_csv::Column;

/// The value of the last `--column` among the words of the options.
pub(crate) fn column_text(subcommand: Subcommand, words: &[Vec<u8>]) -> Option<&[u8]>
    ensures { option_copied result ≡ column_text subcommand words.now }
{
    let mut found = None;
    let mut values = Values::of(subcommand, words);
    while let Some((flag, value)) = values.take_next() {
        if let Flag::Column = flag {
            found = Some(value);
        }
    }
    found
}

/// The column by its number, from 1, or by its name; any, where none is given.
pub(crate) fn column_of(text: Option<&[u8]>) -> Column<'_>
    ensures { IsColumn (option_copied text.entry) result }
{
    match text {
        None => Column::AnyColumn,
        Some(text) => match index_by(number_of(text)) {
            Some(index) => Column::Index(index, text),
            None => Column::Named(text),
        },
    }
}

/// A number from 1 on as an index.
fn index_by(number: Option<usize>) -> Option<usize>
    ensures { result ≡ index_by number }
{
    match number {
        None | Some(0) => None,
        Some(number) => Some(number - 1),
    }
}

/// The number that a text of at most three digits is.
fn number_of(text: &[u8]) -> Option<usize>
    ensures { result ≡ number_of text.now }
{
    match text {
        [c] => by_three(b'0', b'0', *c),
        [b, c] => by_three(b'0', *b, *c),
        [a, b, c] => by_three(*a, *b, *c),
        _ => None,
    }
}

fn by_three(a: u8, b: u8, c: u8) -> Option<usize>
    ensures { result ≡ by_three a b c }
{
    if a.is_ascii_digit() && b.is_ascii_digit() && c.is_ascii_digit() {
        Some(100 * digit(a) + 10 * digit(b) + digit(c))
    } else {
        None
    }
}

fn digit(byte: u8) -> usize
    requires { is_ascii_digit byte ≡ true }
    ensures { result ≡ byte - 48 }
{
    usize::from(byte - b'0')
}
