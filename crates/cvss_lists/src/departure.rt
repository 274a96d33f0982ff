//! What a version's standard does not allow of a text, although it is read.

ghost use Rattle.std.specs.Prelude.{◌≡◌, ◌++◌, MatchOption, OnOk, codes, option_copied, option_map};
ghost use Rattle.std.specs.Char.{is_ascii_lowercase};
ghost use Rattle.std.specs.List.{list_any};
ghost use Rattle.cvss_base.specs.Text.{pieces};
ghost use Rattle.cvss_lines.specs.Answers.{written_text};
ghost use Rattle.cvss_lists.specs.Departures.{Departs, IsDeparture, MeetsAll, MeetsStandard, departure_text, first_exchanged, first_unlisted, letter_case_text, neighbours, order_text};
ghost use Rattle.cvss_lists.specs.private.Cutting.{IsExchangeIn};

use crate::cutting::{cut, is_in, name_of, rest_after};
use cvss_json::Page;
use cvss_lines::OutputBuffer;
use cvss_report::put_vector;
use cvss_vector::Cvss;
use std::alloc::AllocError;

/// What a version's standard does not allow of the text of a vector.
#[derive(Drop)]
pub enum Departure<'a> {
    /// A component whose letters are not in the case in which the standard lists them.
    LetterCase(&'a [u8]),
    /// A metric stands right after one that the standard puts behind it.
    OutOfOrder { metric: &'a [u8], after: &'a [u8] },
}

/// What the version's standard does not allow of a text that denotes a vector: in CVSS v3 and v4.0 the
/// first component that is not spelled as listed, and else in v4.0 the first metric that is out of order
/// (v3.1 specification, section 6; v4.0 specification, section 7). It takes no memory.
pub fn departure_of(text: &[u8]) -> Option<Departure<'_>>
    ensures { MatchOption result (MeetsAll text.now) (Departs text.now) }
{
    let cvss = Cvss::read_bytes(text)?;
    departure_from(&cvss, text)
}

/// What the standard does not allow of the text of a vector.
fn departure_from<'a>(cvss: &Cvss, text: &'a [u8]) -> Option<Departure<'a>>
    ensures { MatchOption result (MeetsStandard cvss.now text.now) (IsDeparture cvss.now text.now) }
{
    let mut page = Page::new();
    put_vector(&mut page, cvss);
    let canonical = page.bytes();
    match cvss {
        Cvss::CvssV20(_) => None,
        Cvss::CvssV30(_) | Cvss::CvssV31(_) => {
            Some(Departure::LetterCase(first_unlisted(text, canonical)?))
        }
        Cvss::CvssV40(_) => match first_unlisted(text, canonical) {
            Some(piece) => Some(Departure::LetterCase(piece)),
            None => exchange_in(text, canonical),
        },
    }
}

/// The first component of a text that is not spelled as in the canonical text.
fn first_unlisted<'a>(text: &'a [u8], canonical: &[u8]) -> Option<&'a [u8]>
    ensures { option_copied result ≡ first_unlisted (pieces canonical.now) (pieces text.now) }
{
    let mut left = Some(text);
    while let Some(rest) = left {
        let (piece, after) = cut(rest);
        if !is_in(piece, Some(canonical)) {
            return Some(piece);
        }
        left = after;
    }
    None
}

/// The names of the first two neighbours of a text that are not in the order of the canonical text.
fn exchange_in<'a>(text: &'a [u8], canonical: &[u8]) -> Option<Departure<'a>>
    ensures { IsExchangeIn (pieces canonical.now) (pieces text.now) result }
{
    let (before, piece) = first_exchanged(text, canonical)?;
    Some(Departure::OutOfOrder {
        metric: name_of(piece),
        after: name_of(before),
    })
}

/// The first two neighbours of a text that are not in the order of the canonical text.
fn first_exchanged<'a>(text: &'a [u8], canonical: &[u8]) -> Option<(&'a [u8], &'a [u8])>
    ensures { option_map (λ pair. (pair.0.now, pair.1.now)) result
        ≡ first_exchanged (pieces canonical.now) (neighbours (pieces text.now)) }
{
    let (mut before, mut left) = cut(text);
    while let Some(rest) = left {
        let (piece, after) = cut(rest);
        if !is_in(piece, rest_after(before, canonical)) {
            return Some((before, piece));
        }
        before = piece;
        left = after;
    }
    None
}

/// Writes what is not allowed of a line, and a byte 10.
///
/// # Errors
///
/// Out of memory. A beginning of it may be written then.
pub fn write_departure(
    departure: Departure<'_>,
    answers: &mut OutputBuffer,
) -> Result<(), AllocError>
    ensures { OnOk result (answers.new.bytes.items ≡ answers.old.bytes.items
        ++ written_text (codes "error: " ++ departure_text departure.entry)) }
{
    answers.push(b"error: ")?;
    match departure {
        Departure::LetterCase(piece) => push_letter_case(piece, answers)?,
        Departure::OutOfOrder { metric, after } => push_order(metric, after, answers)?,
    }
    answers.push(b"\n")
}

fn push_letter_case(piece: &[u8], answers: &mut OutputBuffer) -> Result<(), AllocError>
    ensures { OnOk result
        (answers.new.bytes.items ≡ answers.old.bytes.items ++ letter_case_text piece.now) }
{
    if has_lower_case(piece) {
        answers.push(b"lower case: ")?;
    } else {
        answers.push(b"upper case: ")?;
    }
    answers.push(piece)
}

fn push_order(metric: &[u8], after: &[u8], answers: &mut OutputBuffer) -> Result<(), AllocError>
    ensures { OnOk result (answers.new.bytes.items ≡ answers.old.bytes.items
        ++ order_text metric.now after.now) }
{
    answers.push(b"metrics out of order: ")?;
    answers.push(metric)?;
    answers.push(b" after ")?;
    answers.push(after)
}

fn has_lower_case(text: &[u8]) -> bool
    ensures { result ≡ list_any is_ascii_lowercase text.now }
{
    text.iter().any(|byte| byte.is_ascii_lowercase())
}
