//! How a text is cut into parts.

ghost use Rattle.std.specs.Prelude.{◌≡◌, ◌<◌, ◌≤◌, ◌&&◌, ◌∷◌, length, not, take, drop};
ghost use Rattle.std.specs.List.{list_any};
ghost use Rattle.cvss_matches.specs.Parts.{before_escape, before_other, begins_encoded, begins_part, begins_run, encoded_front, encoded_length, ends_encoded, is_encoded, is_ending, is_escape, is_like, is_run_byte, is_vector_byte, without_dividers, parts_of, unencoded};
ghost use Rattle.cvss_matches.specs.laws.Whole.{is_edge};
ghost use Rattle.cvss_matches.specs.private.Passing.{uncut_length};

use crate::prefix::{begins_like, begins_with_prefix};
use crate::unprefixed::{Sought, begins_metrics, has_sought};
use cvss_lines::either_or_len;

/// The length of the first part of a text that has bytes.
pub(crate) fn first_part(text: &[u8]) -> usize
    requires { 0 < length text.now }
    ensures within { result ≤ length text.now }
    ensures some { 0 < result }
    ensures cut { parts_of text.now ≡ take result text.now ∷ parts_of (drop result text.now) }
{
    match text.split_first() {
        Some((_, rest)) if begins_run(text) => uncut_length(rest) + 1,
        _ => 1,
    }
}

/// How many bytes of a text are before its first cut.
#[inline(always)]
fn uncut_length(text: &[u8]) -> usize
    ensures value { result ≡ uncut_length text.now }
    ensures within { result ≤ length text.now }
{
    let mut left = text;
    while let Some((_, after)) = left.split_first() {
        if begins_part(left) {
            break;
        }
        left = after;
    }
    text.len() - left.len()
}

/// 0 for each byte before which no text is cut: the bytes of runs, but not `C` and `c`. 1 for others.
const MARKS: [u8; 256] = [
    1, 1, 1, 1, 1, 1, 1, 1, 1, 1, 1, 1, 1, 1, 1, 1, 1, 1, 1, 1, 1, 1, 1, 1, 1, 1, 1, 1, 1, 1, 1, 1,
    1, 1, 1, 1, 1, 0, 1, 1, 1, 1, 1, 1, 1, 1, 0, 0, 0, 0, 0, 0, 0, 0, 0, 0, 0, 0, 0, 1, 1, 1, 1, 1,
    1, 0, 0, 1, 0, 0, 0, 0, 0, 0, 0, 0, 0, 0, 0, 0, 0, 0, 0, 0, 0, 0, 0, 0, 0, 0, 0, 1, 1, 1, 1, 1,
    1, 0, 0, 1, 0, 0, 0, 0, 0, 0, 0, 0, 0, 0, 0, 0, 0, 0, 0, 0, 0, 0, 0, 0, 0, 0, 0, 1, 1, 1, 1, 1,
    1, 1, 1, 1, 1, 1, 1, 1, 1, 1, 1, 1, 1, 1, 1, 1, 1, 1, 1, 1, 1, 1, 1, 1, 1, 1, 1, 1, 1, 1, 1, 1,
    1, 1, 1, 1, 1, 1, 1, 1, 1, 1, 1, 1, 1, 1, 1, 1, 1, 1, 1, 1, 1, 1, 1, 1, 1, 1, 1, 1, 1, 1, 1, 1,
    1, 1, 1, 1, 1, 1, 1, 1, 1, 1, 1, 1, 1, 1, 1, 1, 1, 1, 1, 1, 1, 1, 1, 1, 1, 1, 1, 1, 1, 1, 1, 1,
    1, 1, 1, 1, 1, 1, 1, 1, 1, 1, 1, 1, 1, 1, 1, 1, 1, 1, 1, 1, 1, 1, 1, 1, 1, 1, 1, 1, 1, 1, 1, 1,
];

/// Whether a text is cut before these bytes.
#[inline(always)]
fn begins_part(bytes: &[u8]) -> bool
    ensures { result ≡ begins_part bytes.now }
{
    match bytes.split_first() {
        Some((byte, _)) => !is_passed(*byte) && begins_part_in_full(bytes),
        None => false,
    }
}

/// Whether a byte is of runs and no first letter of a prefix.
#[inline(always)]
fn is_passed(byte: u8) -> bool
    ensures { result ≡ (is_run_byte byte && not (is_like 67 byte)) }
{
    MARKS[byte as usize] == 0
}

/// Whether a text is cut before these bytes, without the table.
fn begins_part_in_full(bytes: &[u8]) -> bool
    ensures { result ≡ begins_part bytes.now }
{
    match bytes {
        [b'C' | b'c', b'V' | b'v', ..] => begins_with_prefix(bytes),
        [_, ..] => !begins_run(bytes),
        [] => false,
    }
}

/// Whether bytes begin with one of a run, or with a backslash and a slash, which in JSON is a slash.
#[inline(always)]
fn begins_run(bytes: &[u8]) -> bool
    ensures { result ≡ begins_run bytes.now }
{
    match bytes.split_first() {
        Some((byte, _)) => is_run_byte(*byte) || bytes.starts_with(b"\\/"),
        None => false,
    }
}

/// Whether vectors are written with a byte: an ASCII letter or digit, `.`, `/` or `:`.
#[inline(always)]
pub(crate) fn is_vector_byte(byte: u8) -> bool
    ensures { result ≡ is_vector_byte byte }
{
    matches!(byte, b'a'..=b'z' | b'A'..=b'Z' | b'.'..=b':')
}

/// Whether vectors, or percent-encoded ones, are written with a byte.
#[inline(always)]
pub(crate) fn is_run_byte(byte: u8) -> bool
    ensures { result ≡ is_run_byte byte }
{
    is_vector_byte(byte) || byte == b'%'
}

/// Whether a byte is of a run, or a backslash, which is of one before a slash.
pub(crate) fn is_edge(byte: u8) -> bool
    ensures { result ≡ is_edge byte }
{
    is_run_byte(byte) || byte == b'\\'
}

/// Whether no match ends with a byte.
fn is_ending(byte: u8) -> bool
    ensures { result ≡ is_ending byte }
{
    matches!(byte, b'.' | b'/' | b':' | b'\\')
}

/// A part without the dots, slashes, colons and backslashes at its end.
pub(crate) fn without_dividers(part: &[u8]) -> &[u8]
    ensures { result.now ≡ without_dividers part.now }
{
    let mut end = part.len();
    while end > 0 && is_ending(part[end - 1]) {
        end -= 1;
    }
    &part[..end]
}

/// A part, which ends before its first `%` or backslash if a slash is before that: what is in it is
/// written as it is then.
pub(crate) fn unencoded(part: &[u8]) -> &[u8]
    ensures { result.now ≡ unencoded part.now }
{
    let front = before_escape(part);
    if front.contains(&b'/') {
        front
    } else {
        encoded_front(part)
    }
}

/// A part, which ends before what encodes neither a colon nor a slash, if a vector is encoded in it.
fn encoded_front(part: &[u8]) -> &[u8]
    ensures { result.now ≡ encoded_front part.now }
{
    if is_encoded(part) {
        before_other(part)
    } else {
        part
    }
}

/// Whether a part begins as a vector, and a slash, encoded or not, is before what encodes neither a
/// colon nor a slash.
fn is_encoded(part: &[u8]) -> bool
    ensures { result ≡ is_encoded part.now }
{
    (begins_with_prefix(part) || begins_metrics(part))
        && has_sought(Sought::Slash, before_other(part))
}

/// What is before the first `%` that encodes neither a colon nor a slash.
fn before_other(text: &[u8]) -> &[u8]
    ensures { result.now ≡ before_other text.now }
{
    &text[..encoded_length(text)]
}

/// How many bytes are before it.
fn encoded_length(text: &[u8]) -> usize
    ensures value { result ≡ encoded_length text.now }
    ensures within { result ≤ length text.now }
{
    let mut left = text;
    while let Some((_, after)) = left.split_first() {
        if ends_encoded(left) {
            break;
        }
        left = after;
    }
    text.len() - left.len()
}

/// Whether bytes begin with a `%` that encodes neither a colon nor a slash.
fn ends_encoded(bytes: &[u8]) -> bool
    ensures { result ≡ ends_encoded bytes.now }
{
    match bytes.split_first() {
        Some((byte, _)) => *byte == b'%' && !begins_encoded(bytes),
        None => false,
    }
}

/// Whether bytes begin with a percent-encoded colon or slash.
fn begins_encoded(bytes: &[u8]) -> bool
    ensures { result ≡ begins_encoded bytes.now }
{
    begins_like(b"%3A", bytes) || begins_like(b"%2F", bytes)
}

/// What is before the first `%` or backslash; all, where there is none.
fn before_escape(text: &[u8]) -> &[u8]
    ensures { result.now ≡ before_escape text.now }
{
    &text[..either_or_len(text, b'%', b'\\')]
}

/// Whether a text has a `%` or a backslash.
pub(crate) fn has_escape(text: &[u8]) -> bool
    ensures { result ≡ list_any is_escape text.now }
{
    either_or_len(text, b'%', b'\\') < text.len()
}
