//! The options that have values, with their values.

ghost use Rattle.std.specs.Prelude.{◌≡◌, ◌∷◌, [], MatchOption};
ghost use Rattle.cvss_subcommands.specs.Values.{due_after, values_of};

use crate::flags::Flag;
use crate::requests::flag_of;
use crate::subcommand::Subcommand;

/// The options that have values among the words of options, each with its value, in order.
#[derive(Drop)]
pub(crate) struct Values<'a> {
    subcommand: Subcommand,
    /// The words that are left.
    words: &'a [Vec<u8>],
}

impl<'a> Values<'a> {
    pub(crate) fn of(subcommand: Subcommand, words: &'a [Vec<u8>]) -> Values<'a>
        ensures { values_of result.subcommand result.words.now ≡ values_of subcommand words.now }
    {
        Values { subcommand, words }
    }

    /// The next option and its value.
    pub(crate) fn take_next(&mut self) -> Option<(Flag, &'a [u8])>
        ensures { MatchOption result (values_of self.old.subcommand self.old.words.now ≡ [])
            (λ it. values_of self.old.subcommand self.old.words.now
            ≡ (it.0, it.1.now) ∷ values_of self.new.subcommand self.new.words.now) }
    {
        while let Some((word, rest)) = self.words.split_first() {
            match (due_after(self.subcommand, word), rest) {
                (Some(flag), [value, rest @ ..]) => {
                    self.words = rest;
                    return Some((flag, value));
                }
                _ => self.words = rest,
            }
        }
        None
    }
}

/// The option whose value comes after a word, if it is one.
fn due_after(subcommand: Subcommand, word: &[u8]) -> Option<Flag>
    ensures { result ≡ due_after subcommand word.now }
{
    match flag_of(subcommand, word) {
        Some(flag) => flag.value_due(),
        None => None,
    }
}
