//! Texts of a row that may need escapes.

ghost use Rattle.std.specs.Prelude.{◌≡◌, ◌++◌, true, IfOk};
ghost use Rattle.cvss_base.specs.Text.{read_as};
ghost use Rattle.cvss_json.specs.Sinks.{Adds};
ghost use Rattle.cvss_report.specs.Cells.{escaped, escaped_byte, given_text, guard, is_formula};
ghost use Rattle.cvss_report.specs.declared.format.Format.TheVariants.{Json};
ghost use Rattle.cvss_vector.specs.Reasons.{error_message};
ghost use Rattle.cvss_vector.specs.Segments.{segment_text, text_of};

use crate::format::Format;
use cvss_json::{Growing, Sink, put_string};
use cvss_vector::{Message, ReadError, Segment};
use std::alloc::{AllocError, Global};

/// Writes a text, or nothing where JSON cannot hold it.
pub fn put_given<S: Sink>(sink: &mut S, format: Format, text: &[u8])
    ensures { Adds S.Holds (given_text format text.now) sink.old sink.new }
{
    match format {
        Format::Tsv => put_escaped(sink, text),
        Format::GuardedTsv => put_guarded(sink, text),
        Format::Json => put_if_utf8(sink, text),
    }
}

#[tactic(auto, using(crate::proofs::TextLemmas::given_if_text, crate::proofs::TextLemmas::given_if_none))]
fn put_if_utf8<S: Sink>(sink: &mut S, text: &[u8])
    ensures { Adds S.Holds (given_text Json text.now) sink.old sink.new }
{
    match str::from_utf8(text) {
        Ok(text) => put_string(sink, text),
        Err(_) => sink.push(b"null"),
    }
}

/// Writes a text in a column that is guarded.
#[tactic(auto, using(cvss_json::proofs::AddsLemmas::join2))]
fn put_guarded<S: Sink>(sink: &mut S, text: &[u8])
    ensures { Adds S.Holds (guard true text.now ++ escaped text.now) sink.old sink.new }
{
    put_guard(sink, text);
    put_escaped(sink, text);
}

/// Writes the apostrophe before a formula.
fn put_guard<S: Sink>(sink: &mut S, text: &[u8])
    ensures { Adds S.Holds (guard true text.now) sink.old sink.new }
{
    if is_formula(text) {
        sink.push(b"'");
    } else {
        sink.push(b"");
    }
}

/// Whether a spreadsheet takes a text for a formula, by its first byte.
pub fn is_formula(text: &[u8]) -> bool
    ensures { result ≡ is_formula text.now }
{
    matches!(text, [b'=' | b'+' | b'-' | b'@', ..])
}

/// Writes a text in a column.
fn put_escaped<S: Sink>(sink: &mut S, text: &[u8])
    ensures { Adds S.Holds (escaped text.now) sink.old sink.new }
{
    for byte in text {
        put_byte(sink, *byte);
    }
}

#[inline(always)]
fn put_byte<S: Sink>(sink: &mut S, byte: u8)
    ensures { Adds S.Holds (escaped_byte byte) sink.old sink.new }
{
    match byte {
        b'\t' => sink.push(b"\\t"),
        b'\n' => sink.push(b"\\n"),
        b'\r' => sink.push(b"\\r"),
        b'\\' => sink.push(b"\\\\"),
        _ => sink.push(&[byte]),
    }
}

/// What an error says.
///
/// # Errors
///
/// Out of memory.
pub fn reason_of(alloc: Global, error: ReadError<'_>) -> Result<Vec<u8>, AllocError>
    ensures { IfOk result (λ reason. reason.items ≡ error_message error.entry) }
{
    let mut reason = Growing::new(alloc);
    put_segments(&mut reason, &Message::of(error).segments);
    reason.end()
}

/// Writes what an error says.
pub fn put_error<S: Sink>(sink: &mut S, error: ReadError<'_>)
    ensures { Adds S.Holds (error_message error.entry) sink.old sink.new }
{
    put_segments(sink, &Message::of(error).segments);
}

/// Writes the text of segments.
fn put_segments<S: Sink>(sink: &mut S, segments: &[Segment<'_>])
    ensures { Adds S.Holds (text_of segments.now) sink.old sink.new }
{
    for segment in segments {
        put_segment(sink, *segment);
    }
}

fn put_segment<S: Sink>(sink: &mut S, segment: Segment<'_>)
    ensures { Adds S.Holds (segment_text segment.entry) sink.old sink.new }
{
    if segment.upper {
        put_upper(sink, segment.bytes);
    } else {
        sink.push(segment.bytes);
    }
}

/// Writes a text with its ASCII letters in upper case.
fn put_upper<S: Sink>(sink: &mut S, text: &[u8])
    ensures { Adds S.Holds (read_as true text.now) sink.old sink.new }
{
    for byte in text {
        sink.push(&[byte.to_ascii_uppercase()]);
    }
}
