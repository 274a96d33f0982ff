//! The value of a field.

ghost use Rattle.std.specs.Prelude.{◌≡◌, ◌≢◌, ◌<◌, ◌++◌, ◌∷◌, All, IfOk, IfSome, MatchOption, OnOk, length};
ghost use Rattle.std.specs.Cow.{cow_slice_items};
ghost use Rattle.cvss_csv.specs.Fields.{fields, quote, unquoted, value, value_at};
ghost use Rattle.cvss_csv.specs.private.Values.{after_quote};

use crate::fields::field_at;
use crate::state::QUOTE;
use cvss_lines::either_or_len;
use std::alloc::{AllocError, Global};
use std::borrow::CowSlice;

/// The value of a field, if its bytes are in the field as they are: no quote is doubled, and none closes
/// the field before its end.
#[inline(always)]
pub(crate) fn value_as_is(field: &[u8]) -> Option<&[u8]>
    ensures { IfSome result (λ text. text.now ≡ value field.now) }
{
    match field.split_first() {
        Some((b'"', inner)) => unquoted_as_is(inner),
        _ => Some(field),
    }
}

fn unquoted_as_is(inner: &[u8]) -> Option<&[u8]>
    ensures { IfSome result (λ text. text.now ≡ unquoted inner.now) }
{
    let end = either_or_len(inner, QUOTE, QUOTE);
    if inner.len() - end > 1 {
        return None;
    }
    Some(&inner[..end])
}

/// The value of the field of a record with this index, counted from 0; nothing, where there is none. It takes
/// no memory where the value is in the record as it is.
///
/// # Errors
///
/// Out of memory.
pub fn value_at(alloc: Global, index: usize, body: &[u8]) -> Result<CowSlice<'_, u8>, AllocError>
    ensures { IfOk result (λ text. cow_slice_items text ≡ value_at index (fields body.now)) }
{
    match field_at(index, body) {
        Some(field) => value_of(alloc, field),
        None => Ok(CowSlice::Borrowed(&[])),
    }
}

/// The value of a field.
fn value_of(alloc: Global, field: &[u8]) -> Result<CowSlice<'_, u8>, AllocError>
    ensures { IfOk result (λ text. cow_slice_items text ≡ value field.now) }
{
    if let Some(text) = value_as_is(field) {
        return Ok(CowSlice::Borrowed(text));
    }
    let mut text = Vec::new(alloc);
    decode(field, &mut text)?;
    Ok(CowSlice::Owned(text))
}

/// The value of a field, which a buffer has where it is not in the field as it is.
///
/// # Errors
///
/// Out of memory.
#[inline(always)]
pub(crate) fn value_in<'a>(field: &'a [u8], room: &'a mut Vec<u8>) -> Result<&'a [u8], AllocError>
    ensures { IfOk result (λ text. text.now ≡ value field.now) }
{
    match value_as_is(field) {
        Some(text) => Ok(text),
        None => {
            decode(field, room)?;
            Ok(room)
        }
    }
}

/// Writes the value of a field over what a buffer has.
///
/// # Errors
///
/// Out of memory.
pub(crate) fn decode(field: &[u8], text: &mut Vec<u8>) -> Result<(), AllocError>
    ensures { OnOk result (text.new.items ≡ value field.now) }
{
    text.clear();
    match field.split_first() {
        Some((b'"', inner)) => push_unquoted(inner, text),
        _ => text.extend_from_slice(field),
    }
}

/// Appends what is after the quote with which a field begins, with one quote for each two.
fn push_unquoted(inner: &[u8], text: &mut Vec<u8>) -> Result<(), AllocError>
    ensures { OnOk result (text.new.items ≡ text.old.items ++ unquoted inner.now) }
{
    let mut rest = inner;
    while let Some((run, following)) = cut_at_quote(rest) {
        text.extend_from_slice(run)?;
        let Some(after) = after_second_quote(following) else {
            return text.extend_from_slice(following);
        };
        text.push(QUOTE)?;
        rest = after;
    }
    text.extend_from_slice(rest)
}

/// What follows a second quote, where one follows the first.
fn after_second_quote(following: &[u8]) -> Option<&[u8]>
    ensures value { MatchOption result (after_quote following.now ≡ following.now)
        (λ rest. after_quote following.now ≡ quote ∷ unquoted rest.now) }
    ensures shorter { IfSome result (λ rest. length rest.now < length following.now) }
{
    match following.split_first() {
        Some((b'"', rest)) => Some(rest),
        _ => None,
    }
}

/// The bytes before and after the first quote.
fn cut_at_quote(bytes: &[u8]) -> Option<(&[u8], &[u8])>
    ensures { MatchOption result (All (λ b. b ≢ quote) bytes.now)
        (λ cut. All (λ b. b ≢ quote) cut.0.now × (bytes.now ≡ cut.0.now ++ quote ∷ cut.1.now)) }
{
    let end = either_or_len(bytes, QUOTE, QUOTE);
    if end == bytes.len() {
        return None;
    }
    Some((&bytes[..end], &bytes[end + 1..]))
}
