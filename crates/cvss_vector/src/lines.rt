//! What is written of a vector and of an error: the line that answers it.

ghost use Rattle.std.specs.Prelude.{◌≡◌, ◌≤◌, ◌++◌, OnOk};
ghost use Rattle.cvss_lines.specs.Answers.{written_text};
ghost use Rattle.cvss_vector.specs.Answers.{severity_by, text_of as text_of_vector, vector_answer};
ghost use Rattle.cvss_vector.specs.Published.{severity_within, vector_line};
ghost use Rattle.cvss_vector.specs.Reasons.{error_line};
ghost use Rattle.cvss_vector.specs.Segments.{segment_text, text_of};

use crate::message::Message;
use crate::published::Published;
use crate::rejection::ReadError;
use crate::score_lines::score_line;
use crate::segment::Segment;
use crate::vector::Cvss;
use cvss_lines::OutputBuffer;
use std::alloc::AllocError;
use std::fmt::{self, Write};

/// Writes a canonical text with what is published of its vector, and a byte 10: the answer to it.
///
/// # Errors
///
/// Out of memory. A beginning of the answer may be written then.
#[inline(always)]
pub fn write_canonical(
    text: &[u8],
    published: Published,
    answers: &mut OutputBuffer,
) -> Result<(), AllocError>
    requires { published.tenths ≤ 100 }
    ensures { OnOk result (answers.new.bytes.items
        ≡ answers.old.bytes.items ++ vector_line text.now published) }
{
    answers.bytes.extend_from_slice(text)?;
    answers
        .bytes
        .extend_from_slice(score_line(published).as_bytes())
}

/// Writes a vector's text with what is published of it, and a byte 10: the vector's answer.
///
/// # Errors
///
/// Out of memory. A beginning of the answer may be written then.
pub fn write_vector(
    vector: &Cvss,
    published: Published,
    answers: &mut OutputBuffer,
) -> Result<(), AllocError>
    requires rated { severity_by vector.now ≡ severity_within published.bounds }
    requires to_ten { published.tenths ≤ 100 }
    ensures { OnOk result (answers.new.bytes.items ≡ answers.old.bytes.items
        ++ written_text (vector_answer vector.now published.tenths)) }
{
    match write_text(vector, answers) {
        Ok(()) => answers.push(score_line(published).as_bytes()),
        Err(_) => Err(AllocError),
    }
}

/// Writes a vector's text.
#[tactic(auto, using(cvss_lines::proofs::TextsLemmas::appended))]
fn write_text(vector: &Cvss, answers: &mut OutputBuffer) -> fmt::Result
    ensures { OnOk result
        (answers.new.bytes.items ≡ answers.old.bytes.items ++ text_of_vector vector.now) }
{
    write!(answers, "{vector}")
}

/// Writes why a line is no vector, and a byte 10.
///
/// # Errors
///
/// Out of memory. A beginning of the answer may be written then.
// A call of its own keeps the segments out of the frame of an accepted line.
#[inline(never)]
pub fn write_error(error: ReadError<'_>, answers: &mut OutputBuffer) -> Result<(), AllocError>
    ensures { OnOk result (answers.new.bytes.items
        ≡ answers.old.bytes.items ++ error_line error.entry) }
{
    let out = &mut answers.bytes;
    out.extend_from_slice(b"error: ")?;
    push_segments(&Message::of(error).segments, out)?;
    out.extend_from_slice(b"\n")
}

/// Writes segments one after another.
fn push_segments(segments: &[Segment<'_>], out: &mut Vec<u8>) -> Result<(), AllocError>
    ensures { OnOk result (out.new.items ≡ out.old.items ++ text_of segments.now) }
{
    for segment in segments {
        push_segment(*segment, out)?;
    }
    Ok(())
}

fn push_segment(segment: Segment<'_>, out: &mut Vec<u8>) -> Result<(), AllocError>
    ensures { OnOk result (out.new.items ≡ out.old.items ++ segment_text segment.entry) }
{
    // Half of the segments of most messages are empty.
    if segment.bytes.is_empty() {
        return Ok(());
    }
    let start = out.len();
    out.extend_from_slice(segment.bytes)?;
    if segment.upper {
        out[start..].make_ascii_uppercase();
    }
    Ok(())
}
