//! Texts in a buffer of the caller, items in an array, and values, without memory.

ghost use Rattle.std.specs.Prelude.{◌≡◌, ◌<◌, ◌≤◌, ◌+◌, ◌^◌, ◌++◌, length};
ghost use Rattle.cvss_vector.specs.Segments.{text_of};
ghost use Rattle.cvss_ffi.specs.Buffer.{IsPut, IsWritten};
ghost use Rattle.cvss_ffi.specs.private.Steps.{IsWrittenAt};

use cvss_vector::{Message, Segment};

/// Writes a text, or items, at the beginning of a buffer where they fit, and returns their number.
// Its copy, inlined wherever it is called, would be a thirtieth of the module of WebAssembly.
#[inline(never)]
pub(crate) fn write<T: Copy>(items: &[T], buffer: &mut [T]) -> usize
    ensures { IsWritten items.now buffer.old buffer.new result }
{
    let length = items.len();
    if length > buffer.len() {
        return length;
    }
    buffer[..length].copy_from_slice(items);
    length
}

/// Writes a value over another, if there is one, and returns whether there is.
pub(crate) fn put<T: Drop>(value: Option<T>, target: &mut T) -> bool
    ensures { IsPut value target.old target.new result }
{
    let Some(value) = value else {
        return false;
    };
    *target = value;
    true
}

/// Writes segments from an offset of a buffer on where all of them fit, and returns the offset after
/// them.
pub(crate) fn write_segments(segments: &[Segment<'_>], offset: usize, buffer: &mut [u8]) -> usize
    requires { offset + length (text_of segments.now) < 2 ^ 64 }
    ensures { IsWrittenAt offset (text_of segments.now) buffer.old buffer.new result }
{
    let [segment, rest @ ..] = segments else {
        return offset;
    };
    let end = offset + segment.bytes.len();
    let last = write_segments(rest, end, buffer);
    if last > buffer.len() {
        return last;
    }
    let part = &mut buffer[offset..end];
    part.copy_from_slice(segment.bytes);
    if segment.upper {
        part.make_ascii_uppercase();
    }
    last
}

/// Writes words, a message and an end.
pub(crate) fn write_message<'a>(
    words: &'a [u8],
    message: Message<'a>,
    end: &'a [u8],
    buffer: &mut [u8],
) -> usize
    requires around { length words.now + length end.now ≤ 33 }
    requires message { length (text_of message.segments) < 2 ^ 63 + 300 }
    ensures { IsWritten (words.now ++ (text_of message.entry.segments ++ end.now)) buffer.old
        buffer.new result }
{
    write_segments(&around(words, message.segments, end), 0, buffer)
}

/// Words, the segments of a message and an end.
fn around<'a>(words: &'a [u8], segments: [Segment<'a>; 5], end: &'a [u8]) -> [Segment<'a>; 7]
    ensures { text_of result ≡ words.now ++ (text_of segments.entry ++ end.now) }
{
    let [first, second, third, fourth, fifth] = segments;
    let (before, after) = (Segment::given(words), Segment::given(end));
    [before, first, second, third, fourth, fifth, after]
}
