//! How the value at a place is spelled, and how its place is found by that.

ghost use Rattle.std.specs.Prelude.{◌≡◌, ◌∷◌, [], bytes_eq};
ghost use Rattle.std.specs.List.{position_from};
ghost use Rattle.std.specs.Str.{str_eq_ignore_ascii_case};
ghost use Rattle.cvss_metric.specs.v4.Table.{spelling_at, spellings_of};

use crate::v4::metric::MetricType;
use crate::v4::table::spellings;

/// How the value is spelled that has this place among those of its metric.
#[inline(always)]
pub(super) fn spelling_at(kind: MetricType, place: usize) -> &'static str
    ensures { result.now ≡ spelling_at kind place }
{
    match spellings(kind).get(place) {
        Some(spelling) => as_constant(spelling),
        None => "",
    }
}

/// The place of the value that this letter spells, exactly as it is written.
#[inline(always)]
pub(super) fn place_of_letter(kind: MetricType, letter: u8) -> Option<usize>
    ensures { result ≡ position_from (λ spelling. bytes_eq spelling (letter ∷ [])) 0 (spellings_of kind) }
{
    spellings(kind)
        .iter()
        .position(|spelling| is_letter(spelling.as_bytes(), letter))
}

/// The place of the value with this spelling, in any ASCII case.
#[inline(always)]
pub(super) fn place_of(kind: MetricType, text: &[u8]) -> Option<usize>
    ensures { result ≡ position_from (λ spelling. str_eq_ignore_ascii_case spelling text.now) 0
        (spellings_of kind) }
{
    spellings(kind)
        .iter()
        .position(|spelling| is_alike(spelling.as_bytes(), text))
}

/// Whether a text is this letter.
#[inline(always)]
fn is_letter(text: &[u8], letter: u8) -> bool
    ensures { result ≡ bytes_eq text.now (letter ∷ []) }
{
    match text {
        [only] => *only == letter,
        _ => false,
    }
}

/// Whether two texts are alike except for the case of their ASCII letters. Most are one letter.
#[inline(always)]
#[tactic(auto, using(cvss_base::proofs::EqualityLemmas::bytes_eq_when))]
fn is_alike(text: &[u8], other: &[u8]) -> bool
    ensures { result ≡ str_eq_ignore_ascii_case text.now other.now }
{
    match (text, other) {
        ([letter], [same]) => letter.to_ascii_lowercase() == same.to_ascii_lowercase(),
        _ => text.eq_ignore_ascii_case(other),
    }
}

/// The same text, as a constant if it is one of the letters that spell values. Of a constant the compiler
/// knows the length, and so how a component is stored.
#[inline(always)]
fn as_constant(text: &'static str) -> &'static str
    ensures { result.now ≡ text.now }
{
    match text.as_bytes() {
        [b'X'] => "X",
        [b'N'] => "N",
        [b'L'] => "L",
        [b'H'] => "H",
        [b'P'] => "P",
        [b'A'] => "A",
        [b'U'] => "U",
        [b'M'] => "M",
        [b'S'] => "S",
        [b'Y'] => "Y",
        [b'I'] => "I",
        [b'D'] => "D",
        [b'C'] => "C",
        _ => text,
    }
}
