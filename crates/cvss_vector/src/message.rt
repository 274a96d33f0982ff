//! What an error says to a reader, as segments.

ghost use Rattle.std.specs.Prelude.{◌≡◌, ◌++◌, ◌≤◌, ◌<◌, ◌+◌, ◌^◌, length};
ghost use Rattle.cvss_vector.specs.Reasons.{error_message, reason_text};
ghost use Rattle.cvss_vector.specs.Rejections.{rejection_of};
ghost use Rattle.cvss_vector.specs.Segments.{segment_text, text_of};

use crate::rejection::{ReadError, Rejection};
use crate::segment::Segment;

/// What an error says, in five segments, of which some may be empty.
#[derive(Clone, Copy)]
pub struct Message<'a> {
    pub segments: [Segment<'a>; 5],
}

impl<'a> Message<'a> {
    /// What an error says.
    pub fn of(error: ReadError<'a>) -> Message<'a>
        ensures text { text_of result.segments ≡ error_message error.entry }
        ensures bound { length (text_of result.segments) < 2 ^ 63 + 300 }
    {
        match error {
            ReadError::NotUtf8 => said("not UTF-8", "", "", Segment::words(""), ""),
            ReadError::Invalid(rejection) => Message::of_rejection(rejection),
        }
    }

    /// What a reason says.
    pub fn of_rejection(rejection: Rejection<'a>) -> Message<'a>
        ensures text { text_of result.segments ≡ reason_text (rejection_of rejection.entry) }
        ensures bound { length (text_of result.segments) < 2 ^ 63 + 300 }
    {
        let none = Segment::words("");
        match rejection {
            Rejection::BadComponent(text) => {
                said("invalid CVSS metric group component: `", "", "", text, "`")
            }
            Rejection::WrongPrefix(text) => said(
                "invalid CVSS string prefix: `",
                "",
                "",
                text,
                "`",
            ),
            Rejection::WrongVersion(text) => said("unsupported CVSS version: ", "", "", text, ""),
            Rejection::UnknownName(text) => said("unknown CVSS metric name: `", "", "", text, "`"),
            Rejection::BadValue(kind, text) => said("invalid ", kind.words(), ": `", text, "`"),
            Rejection::Repeated(kind) => said("duplicate ", kind.words(), "", none, ""),
            Rejection::Missing(kind) => said("missing mandatory ", kind.words(), "", none, ""),
        }
    }
}

/// Words, those of a metric, what is before a text, the text, and what is after it.
fn said<'a>(
    words: &'static str,
    metric: &'static str,
    before: &'static str,
    text: Segment<'a>,
    after: &'static str,
) -> Message<'a>
    requires { length words.now + length metric.now + length before.now + length after.now ≤ 200 }
    ensures text { text_of result.segments
        ≡ words.now ++ metric.now ++ before.now ++ segment_text text.entry ++ after.now }
    ensures bound { length (text_of result.segments) < 2 ^ 63 + 300 }
{
    let segments = [
        Segment::words(words),
        Segment::words(metric),
        Segment::words(before),
        text,
        Segment::words(after),
    ];
    Message { segments }
}
