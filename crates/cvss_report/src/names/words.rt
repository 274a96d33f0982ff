//! How values are spelled, each with its word.

ghost use Rattle.std.specs.Prelude.{◌≡◌, map};
ghost use Rattle.cvss_report.specs.Words.{word_in};

use crate::names::NOT_DEFINED;

/// How a value is spelled, and its word.
pub type ValueWord = (&'static str, &'static str);

/// The word of a value that is not defined since CVSS v3.
pub(crate) const X: ValueWord = ("X", NOT_DEFINED);

/// The word of the value with this spelling; empty where no value has it.
pub fn word_in(words: &[ValueWord], spelling: &[u8]) -> &'static str
    ensures { result.now
        ≡ word_in (map (λ word. (word.0.now, word.1.now)) words.now) spelling.now }
{
    for (own, word) in words {
        if own.as_bytes() == spelling {
            return word;
        }
    }
    ""
}
