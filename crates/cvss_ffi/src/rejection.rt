//! Why there is no vector, and how it is reported. It takes no memory.

ghost use Rattle.std.specs.Prelude.{◌≡◌, [], length, Ok, Err};
ghost use Rattle.cvss_vector.specs.Answers.{text_of};
ghost use Rattle.cvss_vector.specs.Reasons.{reason_text};
ghost use Rattle.cvss_vector.specs.Rejections.{rejection_of};
ghost use Rattle.cvss_ffi.specs.Buffer.{IsWritten};
ghost use Rattle.cvss_ffi.specs.Calls.{IsReturned};
ghost use Rattle.cvss_ffi.specs.Errors.{before_quoted, error_of, kind_number as number_of_kind, named_metric as metric_named, quoted_part as part_quoted, report_at, reported_plainly};
ghost use Rattle.cvss_ffi.specs.private.Rejection.{answered, reported};

use crate::buffer::{write, write_message};
use crate::canonical::write_canonical;
use crate::error::{CvssError, ERROR_SIZE, accept};
use crate::metrics::padded;
use crate::numbers::NOTHING;
use cvss_vector::{Cvss, Message, ReadError, Rejection};

/// Why there is no vector.
#[derive(Clone, Copy)]
pub(crate) enum NoVector<'a> {
    /// The text is rejected, or the metrics are not UTF-8.
    Text(ReadError<'a>),
    /// No version has this number.
    NoVersion,
    /// Metrics make no vector: the one with this index is rejected, or one is missing.
    Metrics(Option<u8>, Rejection<'a>),
}

/// Writes the canonical text of a new vector, or why there is none.
pub(crate) fn write_new(
    new: Result<Cvss, NoVector<'_>>,
    error: &mut CvssError,
    buffer: &mut [u8],
) -> usize
    ensures { IsReturned (answered new.entry) error.old error.new buffer.old buffer.new result }
{
    match new {
        Ok(cvss) => write_vector(&cvss, error, buffer),
        Err(rejection) => reject(rejection, error, buffer),
    }
}

/// Writes the canonical text of a vector, and that there is one.
pub(crate) fn write_vector(cvss: &Cvss, error: &mut CvssError, buffer: &mut [u8]) -> usize
    ensures { IsReturned (Ok (text_of cvss.now)) error.old error.new buffer.old buffer.new result }
{
    accept(error);
    write_canonical(cvss, buffer)
}

/// Writes why there is no vector: the message, and the struct if it is large enough.
// A call of its own keeps the segments out of the frame of an accepted text.
#[inline(never)]
pub(crate) fn reject(rejection: NoVector<'_>, error: &mut CvssError, buffer: &mut [u8]) -> usize
    ensures { IsReturned (Err (reported rejection.entry)) error.old error.new buffer.old buffer.new result }
{
    let length = write_rejection(rejection, buffer);
    if error.size >= ERROR_SIZE {
        *error = error_of(rejection, length, error.size);
    }
    length
}

/// Writes the message of a rejection.
fn write_rejection(rejection: NoVector<'_>, buffer: &mut [u8]) -> usize
    ensures { IsWritten (reported rejection.entry).message buffer.old buffer.new result }
{
    match rejection {
        NoVector::Text(error) => write_message(&[], Message::of(error), &[], buffer),
        NoVector::NoVersion => write(b"unsupported CVSS version", buffer),
        NoVector::Metrics(_, reason) => {
            write_message(&[], Message::of_rejection(reason), &[], buffer)
        }
    }
}

/// What is reported of a rejection whose message has this length.
fn error_of(rejection: NoVector<'_>, message_length: usize, size: u32) -> CvssError
    requires { message_length ≡ length (reported rejection).message }
    ensures { result ≡ error_of size (reported rejection.entry) }
{
    match rejection {
        NoVector::Text(ReadError::NotUtf8) => plain_error(8, size),
        NoVector::NoVersion => plain_error(3, size),
        NoVector::Text(ReadError::Invalid(reason)) | NoVector::Metrics(None, reason) => {
            error_for(NOTHING, reason, message_length, size)
        }
        NoVector::Metrics(Some(index), reason) => {
            error_for(i32::from(index), reason, message_length, size)
        }
    }
}

/// An error of this kind that names and quotes nothing.
fn plain_error(kind: i32, size: u32) -> CvssError
    ensures { result ≡ error_of size (reported_plainly kind []) }
{
    CvssError {
        size,
        kind,
        index: NOTHING,
        reserved: 0,
        metric: [0; 8],
        quoted_start: 0,
        quoted_length: 0,
    }
}

/// The error of a reason whose message has this length.
fn error_for(index: i32, reason: Rejection<'_>, message_length: usize, size: u32) -> CvssError
    requires { message_length ≡ length (reason_text (rejection_of reason)) }
    ensures { result ≡ error_of size (report_at index (rejection_of reason.entry)) }
{
    CvssError {
        size,
        kind: kind_number(reason),
        index,
        reserved: 0,
        metric: padded(named_metric(reason)),
        quoted_start: quoted_start(reason, message_length),
        quoted_length: quoted_length(reason),
    }
}

fn kind_number(reason: Rejection<'_>) -> i32
    ensures { result ≡ number_of_kind (rejection_of reason.entry) }
{
    match reason {
        Rejection::BadComponent(_) => 1,
        Rejection::WrongPrefix(_) => 2,
        Rejection::WrongVersion(_) => 3,
        Rejection::UnknownName(_) => 4,
        Rejection::BadValue(_, _) => 5,
        Rejection::Repeated(_) => 6,
        Rejection::Missing(_) => 7,
    }
}

/// The abbreviation of the metric that a message names, if it names one.
fn named_metric(reason: Rejection<'_>) -> &'static [u8]
    ensures { result.now ≡ metric_named (rejection_of reason.entry) }
{
    match reason {
        Rejection::BadValue(metric, _) | Rejection::Repeated(metric) | Rejection::Missing(metric) =>
            { metric.name().as_bytes() }
        _ => &[],
    }
}

/// Where the part begins that a message of this length quotes, if it quotes one: the part is at the end,
/// but for a backquote after each that is no version.
fn quoted_start(reason: Rejection<'_>, message_length: usize) -> usize
    requires { message_length ≡ length (reason_text (rejection_of reason)) }
    ensures { result ≡ length (before_quoted (rejection_of reason.entry)) }
{
    match reason {
        Rejection::WrongVersion(part) => message_length - part.bytes.len(),
        Rejection::BadComponent(part)
        | Rejection::WrongPrefix(part)
        | Rejection::UnknownName(part)
        | Rejection::BadValue(_, part) => message_length - part.bytes.len() - 1,
        Rejection::Repeated(_) | Rejection::Missing(_) => 0,
    }
}

/// The length of the part that a message quotes, if it quotes one.
fn quoted_length(reason: Rejection<'_>) -> usize
    ensures { result ≡ length (part_quoted (rejection_of reason.entry)) }
{
    match reason {
        Rejection::BadComponent(part)
        | Rejection::WrongPrefix(part)
        | Rejection::WrongVersion(part)
        | Rejection::UnknownName(part)
        | Rejection::BadValue(_, part) => part.bytes.len(),
        Rejection::Repeated(_) | Rejection::Missing(_) => 0,
    }
}
