//! A match of a vector in a text.

ghost use Rattle.std.specs.Prelude.{◌≡◌, ◌↔◌, ◌+◌, ◌<◌, ◌≤◌, ◌^◌, length, IfSome, IsTrue, MatchOption, Some};
ghost use Rattle.cvss_vector.specs.Answers.{HasScore};
ghost use Rattle.cvss_vector.specs.Dispatch.{DenotesCvss};
ghost use Rattle.cvss_vector.specs.declared.vector.Cvss.{Cvss};
ghost use Rattle.cvss_matches.specs.Matches.{IsCertain, IsFound, is_meant_exactly, is_meant_loosely, label_of, candidate_of, without_label};
ghost use Rattle.cvss_matches.specs.CandidatesLeft.{as_candidate};

use crate::part::{unencoded, without_dividers};
use crate::prefix::{begins_exactly, begins_loosely, begins_with_prefix, label_length};
use crate::unprefixed::{Sought, has_sought, is_encoded_v2, lacks_prefix};
use cvss_vector::Cvss;

/// A match of a vector in a text: bytes that are accepted as a vector, or that were meant as one.
#[derive(Clone, Copy, Debug)]
pub struct Match<'a> {
    /// The offset of the first byte in the text, from 0.
    pub offset: usize,
    /// The bytes of the match.
    pub text: &'a [u8],
}

impl Match<'_> {
    /// The vector of the match; `None` if the match is rejected, and then `Cvss::from_bytes`
    /// returns the reason.
    pub fn vector(&self) -> Option<Cvss>
        ensures denoted { IfSome result (λ cvss. DenotesCvss self.now.text.now cvss) }
        ensures accepts { (cvss : Cvss) → DenotesCvss self.now.text.now cvss → result ≡ Some cvss }
        ensures scored { IfSome result (λ cvss. HasScore cvss) }
    {
        Cvss::read_bytes(self.text)
    }
}

/// The match of a part that begins at an offset of a text, if it is found.
pub(crate) fn find_in(offset: usize, part: &[u8]) -> Option<Match<'_>>
    requires { offset + length part.now < 2 ^ 64 }
    ensures { MatchOption result (¬ (IsFound (candidate_of offset part.now).text))
        (λ found. (as_candidate found ≡ candidate_of offset part.now)
        × IsFound (candidate_of offset part.now).text) }
{
    find_after_label(offset, without_dividers(unencoded(part)))
}

/// The bytes that begin at an offset, if they are found without their label.
#[inline(always)]
fn find_after_label(offset: usize, text: &[u8]) -> Option<Match<'_>>
    requires { offset + length text.now < 2 ^ 64 }
    ensures { MatchOption result (¬ (IsFound (without_label offset text.now).text))
        (λ found. (as_candidate found ≡ without_label offset text.now)
        × IsFound (without_label offset text.now).text) }
{
    if is_certain(text) {
        return Some(Match { offset, text });
    }
    let label = label_of(text);
    let text = &text[label..];
    if is_found(text) {
        return Some(Match {
            offset: offset + label,
            text,
        });
    }
    None
}

/// How many bytes are before a match in these: a label, where they do not begin with a prefix.
fn label_of(text: &[u8]) -> usize
    ensures value { result ≡ label_of text.now }
    ensures within { result ≤ length text.now }
{
    if begins_with_prefix(text) {
        0
    } else {
        label_length(text).unwrap_or(0)
    }
}

/// Whether a match is found: it is accepted, or it was meant as a vector.
fn is_found(text: &[u8]) -> bool
    ensures { IsTrue result ↔ IsFound text.now }
{
    is_certain(text) || is_meant_loosely(text)
}

/// Whether a text is accepted, or begins with `CVSS:` and has a slash.
#[inline(always)]
fn is_certain(text: &[u8]) -> bool
    ensures { IsTrue result ↔ IsCertain text.now }
{
    is_meant_exactly(text) || Cvss::read_bytes(text).is_some()
}

/// Whether a text begins with `CVSS:` and has a slash, percent-encoded or not.
#[inline(always)]
fn is_meant_exactly(text: &[u8]) -> bool
    ensures { result ≡ is_meant_exactly text.now }
{
    begins_exactly(text) && has_sought(Sought::Slash, text)
}

/// Whether a text begins as a vector whose prefix is written loosely, as one without its prefix, or
/// as an encoded one of v2.
fn is_meant_loosely(text: &[u8]) -> bool
    ensures { result ≡ is_meant_loosely text.now }
{
    begins_loosely(text) || lacks_prefix(text) || is_encoded_v2(text)
}
