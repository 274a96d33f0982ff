//! Buffers that are too short, and buffers that just fit; and errors that are too short.

use cvss_ffi::CvssError;
use std::io;

/// The byte that stays in a buffer which nothing is written into.
pub(super) const LEFT: u8 = b'#';

/// What is printed of a call that takes an error.
#[derive(Clone, Copy)]
pub(super) enum Form {
    /// The result; `-` where there is none.
    Result,
    /// The result and `-`, or `-` and the message.
    Made,
    /// The number of the kind, the metric and the message of a rejection, or the result.
    Kind,
    /// All that the error says, and the quoted part.
    Error,
    /// The quoted part; `-` where there is none.
    Quoted,
}

/// An error that nothing is written into yet.
pub(super) fn unset_error(size: u32) -> CvssError {
    CvssError {
        size,
        kind: 99,
        index: 99,
        reserved: 99,
        metric: [LEFT; 8],
        quoted_start: 99,
        quoted_length: 99,
    }
}

fn is_unset(error: &CvssError, size: u32) -> bool {
    is_same(error, &unset_error(size))
}

fn is_same(error: &CvssError, other: &CvssError) -> bool {
    [error.kind, error.index, error.reserved] == [other.kind, other.index, other.reserved]
        && error.size == other.size
        && error.metric == other.metric
        && error.quoted_start == other.quoted_start
        && error.quoted_length == other.quoted_length
}

/// Prints what a call reports, or what it does wrong.
pub(super) fn print_report<F>(rt: &HostRuntime, form: Form, write: F) -> io::Result<()>
where
    F: Fn(&mut CvssError, &mut [u8]) -> usize,
    requires { F.IsAlwaysCallable write }
{
    let mut error = unset_error(41);
    let length = write(&mut error, &mut []);
    if length == 0 {
        return print!(rt; "nothing is reported");
    }
    let mut buffer = vec![in rt.alloc(); LEFT; length]?;
    let mut small = unset_error(39);
    if write(&mut small, &mut buffer[1..]) != length || !is_left(&buffer) {
        return print!(rt; "a buffer that is too short was not left as it was");
    }
    if !is_unset(&small, 39) {
        return print!(rt; "an error that is too short was not left as it was");
    }
    let mut again = unset_error(41);
    if write(&mut again, &mut buffer) != length || !is_same(&error, &again) {
        return print!(rt; "another length or error where the buffer fits");
    }
    print_as(rt, form, &error, &buffer)
}

fn print_as(rt: &HostRuntime, form: Form, error: &CvssError, reported: &[u8]) -> io::Result<()> {
    if error.size != 41 || error.reserved != 0 {
        return print!(rt; "another size, or a reserved number");
    }
    match (form, error.kind) {
        (Form::Result | Form::Kind, 0) => print_bytes(rt, reported),
        (Form::Result, _) => print!(rt; "-"),
        (Form::Made, 0) => {
            print_bytes(rt, reported)?;
            print!(rt; " -")
        }
        (Form::Made, _) => {
            print!(rt; "- ")?;
            print_bytes(rt, reported)
        }
        (Form::Kind, kind) => {
            print!(rt; "{kind} {} ", name_of(&error.metric))?;
            print_bytes(rt, reported)
        }
        (Form::Error, _) => print_error(rt, error, reported),
        (Form::Quoted, _) if error.quoted_length == 0 => print!(rt; "-"),
        (Form::Quoted, _) => print_quoted(rt, error, reported),
    }
}

/// Prints the kind, the index, the metric, the offset and the length of the quoted part, and this
/// part.
fn print_error(rt: &HostRuntime, error: &CvssError, reported: &[u8]) -> io::Result<()> {
    print!(rt;
        "{} {} {} {} {} ",
        error.kind,
        error.index,
        name_of(&error.metric),
        error.quoted_start,
        error.quoted_length
    )?;
    print_quoted(rt, error, reported)
}

/// Prints the part of a message that it quotes.
fn print_quoted(rt: &HostRuntime, error: &CvssError, reported: &[u8]) -> io::Result<()> {
    let length = error.quoted_length;
    match reported.get(error.quoted_start..) {
        Some(rest) if length <= rest.len() => print_bytes(rt, &rest[..length]),
        _ => print!(rt; "no such part"),
    }
}

/// The text before the bytes 0 that fill a field; `-` if it is empty.
fn name_of(field: &[u8; 8]) -> &str {
    match text_of(field) {
        "" => "-",
        name => name,
    }
}

/// The text before the bytes 0 that fill a field.
pub(super) fn text_of(field: &[u8; 8]) -> &str {
    let (text, rest) = crate::capi::cut(field, 0);
    if !rest.iter().all(|byte| *byte == 0) {
        return "more than the text";
    }
    str::from_utf8(text).unwrap_or("not UTF-8")
}

/// Prints the text that a call without an error writes, or what the call does wrong.
pub(super) fn print_written<F>(rt: &HostRuntime, write: F) -> io::Result<()>
where
    F: Fn(&mut [u8]) -> usize,
    requires { F.IsAlwaysCallable write }
{
    let length = write(&mut []);
    if length == 0 {
        return print!(rt; "-");
    }
    let mut buffer = vec![in rt.alloc(); LEFT; length]?;
    if write(&mut buffer[1..]) != length || !is_left(&buffer) {
        return print!(rt; "a buffer that is too short was not left as it was");
    }
    if write(&mut buffer) != length {
        return print!(rt; "another length where the buffer fits");
    }
    print_bytes(rt, &buffer)
}

/// Whether nothing was written into a buffer.
fn is_left(buffer: &[u8]) -> bool {
    buffer.iter().all(|byte| *byte == LEFT)
}

pub(super) fn print_bytes(rt: &HostRuntime, bytes: &[u8]) -> io::Result<()> {
    match str::from_utf8(bytes) {
        Ok(text) => print!(rt; "{text}"),
        Err(_) => print!(rt; "not UTF-8"),
    }
}
