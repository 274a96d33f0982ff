//! How a file holds its documents.

ghost use Rattle.std.specs.Prelude.{◌≡◌, ◌≢◌, ◌||◌, IfErr, IfOk, vec_len};
ghost use Rattle.cvss_lines.specs.declared.fault.RunFault.TheVariants.{Write as WriteFault};
ghost use Rattle.cvss_audit.specs.Answers.{is_blank};
ghost use Rattle.cvss_audit.specs.Inputs.{input_view};
ghost use Rattle.cvss_audit.specs.Files.{FileEnds, IsBeginning, first_text, is_by_line, is_json, without_blanks};
ghost use Rattle.cvss_audit.specs.private.Beginnings.{HasLineEnd, has_bytes, more_text};

use crate::documents::input::Input;
use crate::documents::lines::Documents;
use crate::documents::whole::answer_whole;
use cvss_lines::{RunFault, Summary, cut_at_line_end, serve};
use serde_json::Value;
use std::alloc::{AllocError, Global};
use std::io::{Read, Write};

/// How many bytes one read may return.
const CHUNK: usize = 64 * 1024;

/// Answers an input that has one document a line, or is one document: by its first line that is not
/// blank, which is a document by itself or is not. Without such a line it has no documents.
///
/// # Errors
///
/// Out of memory, or a failure of the reader or the writer.
pub(crate) fn answer_file<R: Read, W: Write>(
    alloc: Global,
    input: Input<'_>,
    reader: &mut R,
    writer: &mut W,
) -> Result<Summary, RunFault>
    ensures { FileEnds (input_view input.entry) (R.remaining reader.old) (R.remaining reader.new)
        (W.contents writer.old) (W.contents writer.new) result }
{
    let beginning = read_beginning(alloc, reader)?;
    let by_line = is_by_line(alloc, &beginning)?;
    let mut whole = beginning.as_slice().chain(reader);
    if by_line {
        serve(&Documents { input }, alloc, &mut whole, writer)
    } else {
        answer_whole(alloc, input, &mut whole, writer)
    }
}

/// Reads until the first line that is not blank has ended, or the input. It looks at each byte once, after
/// the read that returns it: who writes to a pipe may wait for the answer to that line.
fn read_beginning<R: Read>(alloc: Global, reader: &mut R) -> Result<Vec<u8>, RunFault>
    ensures read { IfOk result (λ beginning. IsBeginning beginning.items
        (R.remaining reader.old) (R.remaining reader.new)) }
    ensures fault { IfErr result (λ fault. fault ≢ WriteFault) }
{
    let mut chunk = room_to_read(alloc)?;
    let mut beginning = Vec::new(alloc);
    let mut has_text = false;
    for _ in 0..u64::MAX {
        let Ok(count) = reader.read(&mut chunk) else {
            return Err(RunFault::Read);
        };
        if count == 0 {
            return Ok(beginning);
        }
        let more = &chunk[..count];
        beginning.extend_from_slice(more)?;
        let text = more_text(has_text, more);
        if has_line_end(text) {
            return Ok(beginning);
        }
        has_text = is_begun(has_text, text);
    }
    Err(RunFault::Read)
}

/// Room for the bytes of one read.
fn room_to_read(alloc: Global) -> Result<Vec<u8>, AllocError>
    ensures { IfOk result (λ room. vec_len room ≡ CHUNK) }
{
    vec![in alloc; 0; CHUNK]
}

/// Whether there is one document a line, as the first line that is not blank is one by itself, or there
/// is no such line.
///
/// # Errors
///
/// Out of memory.
fn is_by_line(alloc: Global, bytes: &[u8]) -> Result<bool, AllocError>
    ensures { IfOk result (λ by_line. by_line ≡ is_by_line bytes.now) }
{
    let text = first_text(bytes);
    if text.is_empty() {
        return Ok(true);
    }
    is_json(alloc, text)
}

fn is_json(alloc: Global, text: &[u8]) -> Result<bool, AllocError>
    ensures { IfOk result (λ json. json ≡ is_json text.now) }
{
    let Ok(text) = str::from_utf8(text) else {
        return Ok(false);
    };
    match Value::from_str(alloc, text) {
        Ok(_) => Ok(true),
        Err(error) if error.is_memory() => Err(AllocError),
        Err(_) => Ok(false),
    }
}

/// The first line that is not blank, without the blanks at its start.
fn first_text(bytes: &[u8]) -> &[u8]
    ensures { result.now ≡ first_text bytes.now }
{
    let text = without_blanks(bytes);
    match cut_at_line_end(text) {
        Some((line, _)) => line,
        None => text,
    }
}

/// What more bytes add to those from the first on that is no blank, where some of those are there or not.
fn more_text(has_text: bool, more: &[u8]) -> &[u8]
    ensures { result.now ≡ more_text has_text more.now }
{
    if has_text { more } else { without_blanks(more) }
}

/// Whether there are bytes from the first on that is no blank, where some were there or not and more are.
fn is_begun(has_text: bool, more: &[u8]) -> bool
    ensures { result ≡ (has_text || has_bytes more.now) }
{
    match more {
        [] => has_text,
        [_, ..] => true,
    }
}

/// Whether a line ends in a text.
fn has_line_end(text: &[u8]) -> bool
    ensures { HasLineEnd text.now result }
{
    cut_at_line_end(text).is_some()
}

/// The bytes from the first on that is no blank.
fn without_blanks(bytes: &[u8]) -> &[u8]
    ensures { result.now ≡ without_blanks bytes.now }
{
    let mut left = bytes;
    while let Some((byte, rest)) = left.split_first() {
        if !is_blank(*byte) {
            return left;
        }
        left = rest;
    }
    left
}

/// Whether a byte is a blank of JSON.
pub(crate) fn is_blank(byte: u8) -> bool
    ensures { result ≡ is_blank byte }
{
    matches!(byte, b' ' | b'\t' | b'\r' | b'\n')
}
