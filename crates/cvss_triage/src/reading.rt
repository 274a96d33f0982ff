//! The vector of a line.

ghost use Rattle.std.specs.Prelude.{◌≡◌, ◌↔◌, IfErr, IfOk, IfSome, IsTrue, MatchOption};
ghost use Rattle.cvss_matches.specs.CandidatesLeft.{candidates_left};
ghost use Rattle.cvss_vector.specs.Answers.{HasScore};
ghost use Rattle.cvss_vector.specs.Dispatch.{DenotesCvss};
ghost use Rattle.cvss_vector.specs.declared.vector.Cvss.{Cvss as AnyCvss};
ghost use Rattle.cvss_triage.specs.Reading.{IsVectorOf, IsWhyNone};
ghost use Rattle.cvss_triage.specs.private.Denoting.{AllDenote};

use cvss_matches::Matches;
use cvss_vector::{Cvss, ReadError, v2, v3, v4};

/// Why a line has no row.
#[derive(Drop)]
pub(crate) enum Reason<'a> {
    /// No vector is found in it.
    NoVector,
    /// Several are, which do not denote one vector.
    SeveralVectors,
    /// What is found is no vector, or lacks base metrics after the overrides and may not.
    Rejected(ReadError<'a>),
}

/// The vector that all matches of a line denote.
///
/// # Errors
///
/// Why there is none.
pub(crate) fn vector_of(line: &[u8]) -> Result<Cvss, Reason<'_>>
    ensures vector { IfOk result (IsVectorOf line.now) }
    ensures scored { IfOk result (λ cvss. HasScore cvss) }
    ensures reason { IfErr result (IsWhyNone line.now) }
{
    let mut matches = Matches::of(line);
    let Some(first) = matches.next() else {
        return Err(Reason::NoVector);
    };
    match matches.next() {
        None => match Cvss::read(first.text) {
            Ok(cvss) => Ok(cvss),
            Err(error) => Err(Reason::Rejected(error)),
        },
        Some(second) => match vector_of_all(first.text, second.text, matches) {
            Some(cvss) => Ok(cvss),
            None => Err(Reason::SeveralVectors),
        },
    }
}

/// The vector that two texts and all other matches denote, if they denote one.
fn vector_of_all(first: &[u8], second: &[u8], others: Matches<'_>) -> Option<Cvss>
    ensures denoted { MatchOption result
        ((cvss : AnyCvss) → DenotesCvss first.now cvss → DenotesCvss second.now cvss
        → ¬ (AllDenote cvss (candidates_left others.entry)))
        (λ cvss. DenotesCvss first.now cvss × DenotesCvss second.now cvss
        × AllDenote cvss (candidates_left others.entry)) }
    ensures scored { IfSome result (λ cvss. HasScore cvss) }
{
    match Cvss::read_bytes(first) {
        Some(cvss) if denotes(second, &cvss) && all_denote(others, &cvss) => Some(cvss),
        _ => None,
    }
}

/// Whether all matches denote a vector.
fn all_denote(mut matches: Matches<'_>, cvss: &Cvss) -> bool
    ensures { IsTrue result ↔ AllDenote cvss.now (candidates_left matches.entry) }
{
    while let Some(found) = matches.next() {
        if !denotes(found.text, cvss) {
            return false;
        }
    }
    true
}

/// Whether a text denotes a vector.
fn denotes(text: &[u8], cvss: &Cvss) -> bool
    ensures { IsTrue result ↔ DenotesCvss text.now cvss.now }
{
    match Cvss::read_bytes(text) {
        Some(denoted) => are_equal(&denoted, cvss),
        None => false,
    }
}

/// Whether two vectors are one.
pub(crate) fn are_equal(one: &Cvss, other: &Cvss) -> bool
    ensures { IsTrue result ↔ (one.now ≡ other.now) }
{
    v2::laws::vectors_are_their_values();
    v3::laws::vectors_are_their_values();
    v4::laws::vectors_are_their_values();
    one == other
}
