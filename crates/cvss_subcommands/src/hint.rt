//! What may help with a rejected vector that is a word of the command line.

ghost use Rattle.std.specs.Prelude.{◌≡◌, ◌↔◌, [], IsTrue, MatchOption, length};
ghost use Rattle.cvss_subcommands.specs.Hints.{HasNoHint, Holds, IsComplete, IsFirstHint, IsHinted, IsPrefixed, IsRejected, IsVector, MakeComplete, hint_text, without_back, without_front};
ghost use Rattle.cvss_subcommands.specs.declared.hint.Hint.{Hint};
ghost use Rattle.cvss_subcommands.specs.declared.hint.Hint.TheVariants.{Capitals};
ghost use Rattle.cvss_vector.specs.Setting.{text_with};

use cvss_frame::{Source, source_of};
use cvss_vector::{Cvss, Version};

/// What would make a rejected text a vector.
#[derive(Clone, Copy, Drop)]
pub enum Hint {
    /// The version 3.1 before it.
    Version,
    /// The version 4.0 before it.
    VersionV40,
    /// Its prefix in capitals.
    Capitals,
    /// Nothing around it.
    Alone,
}

impl Hint {
    /// The line that is reported.
    pub(crate) fn text(self) -> &'static str
        ensures { result.now ≡ hint_text self }
    {
        match self {
            Hint::Version => "cvss: hint: write `CVSS:3.1/` before it\n",
            Hint::VersionV40 => "cvss: hint: write `CVSS:4.0/` before it\n",
            Hint::Capitals => "cvss: hint: write its prefix in capitals, as `CVSS:3.1/`\n",
            Hint::Alone => "cvss: hint: `cvss find` finds vectors among other text\n",
        }
    }
}

/// The hint for the first of the words that is a rejected vector and for which there is one.
pub fn first_hint(words: &[Vec<u8>]) -> Option<Hint>
    ensures { IsFirstHint words.now result }
{
    let mut left = words;
    while let Some((word, rest)) = left.split_first() {
        if let Some(hint) = hint_for(word) {
            return Some(hint);
        }
        left = rest;
    }
    None
}

fn hint_for(word: &[u8]) -> Option<Hint>
    ensures { MatchOption result (HasNoHint word.now) (IsHinted word.now) }
{
    if is_rejected(word) {
        hint_that_holds(word)
    } else {
        None
    }
}

/// Whether a word is given as a vector, and is none.
fn is_rejected(word: &[u8]) -> bool
    ensures { IsTrue result ↔ IsRejected word.now }
{
    matches!(source_of(word), Source::Vector) && !is_vector(word)
}

/// The first of the hints that holds for a text.
pub(crate) fn hint_that_holds(text: &[u8]) -> Option<Hint>
    ensures { MatchOption result ((hint : Hint) → ¬ (Holds hint text.now)) (λ hint. Holds hint text.now) }
{
    if make_complete(Version::V31, text) {
        Some(Hint::Version)
    } else if make_complete(Version::V40, text) {
        Some(Hint::VersionV40)
    } else if has_prefix_in_other_case(text) {
        Some(Hint::Capitals)
    } else if is_complete(without_back(without_front(text))) {
        Some(Hint::Alone)
    } else {
        None
    }
}

/// Whether a text is the prefix of one of the versions in some case and metrics that make a vector.
fn has_prefix_in_other_case(text: &[u8]) -> bool
    ensures { IsTrue result ↔ Holds Capitals text.now }
{
    is_prefixed(Version::V30, b"CVSS:3.0/", text)
        || is_prefixed(Version::V31, b"CVSS:3.1/", text)
        || is_prefixed(Version::V40, b"CVSS:4.0/", text)
}

fn is_vector(text: &[u8]) -> bool
    ensures { IsTrue result ↔ IsVector text.now }
{
    Cvss::read_bytes(text).is_some()
}

/// Whether a text is a vector that lacks no base metric.
fn is_complete(text: &[u8]) -> bool
    ensures { IsTrue result ↔ IsComplete text.now }
{
    match Cvss::read_bytes(text) {
        Some(cvss) => cvss.first_missing().is_none(),
        None => false,
    }
}

/// Whether metrics make a vector of a version that lacks no base metric.
fn make_complete(version: Version, metrics: &[u8]) -> bool
    ensures { IsTrue result ↔ MakeComplete version metrics.now }
{
    let Ok(metrics) = str::from_utf8(metrics) else {
        return false;
    };
    match Cvss::build(version, metrics) {
        Ok(cvss) => cvss.first_missing().is_none(),
        Err(_) => false,
    }
}

/// Whether a text is the prefix of a version in some case and metrics that make a vector.
fn is_prefixed(version: Version, prefix: &[u8], text: &[u8]) -> bool
    requires prefix { prefix.now ≡ text_with version [] }
    requires length { length prefix.now ≡ 9 }
    ensures { IsTrue result ↔ IsPrefixed version text.now }
{
    match text.split_at_checked(9) {
        Some((front, metrics)) => {
            front.eq_ignore_ascii_case(prefix) && make_complete(version, metrics)
        }
        None => false,
    }
}

/// A text from its first ASCII letter or digit on.
fn without_front(text: &[u8]) -> &[u8]
    ensures { result.now ≡ without_front text.now }
{
    let mut left = text;
    while let [byte, rest @ ..] = left {
        if byte.is_ascii_alphanumeric() {
            return left;
        }
        left = rest;
    }
    left
}

/// A text to its last ASCII letter or digit.
fn without_back(text: &[u8]) -> &[u8]
    ensures { result.now ≡ without_back text.now }
{
    let mut end = text.len();
    while end > 0 && !text[end - 1].is_ascii_alphanumeric() {
        end -= 1;
    }
    &text[..end]
}
