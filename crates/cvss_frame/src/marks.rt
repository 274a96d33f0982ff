//! The byte-order mark that an input may begin with.

ghost use Rattle.std.specs.Io.{ReadsAtMost};
ghost use Rattle.std.specs.Io.KnownBytes.{Consumes, IsAtEnd, ReadConsumes, prepend_known};
ghost use Rattle.std.specs.Option.{option_map};
ghost use Rattle.std.specs.Prelude.{◌≡◌, ◌+◌, ◌<◌, ◌≤◌, ℕ, List, Option, IfOk, IfSome, IsErr, MatchResult, length, false, take, true};
ghost use Rattle.cvss_frame.specs.Marks.{begins_utf16, begins_utf8, held, seen, unread_at};
ghost use Rattle.cvss_frame.specs.private.Filling.{IsDecided, has_begun, is_open};
ghost use Rattle.cvss_frame.specs.declared.watching.Start.TheVariants.{Unread as IsUnread};

use crate::watching::Start;
use std::io::{self, ErrorKind, Read};

/// Reads from the beginning of an input, without its mark. It is an error if there is no room for a
/// mark.
#[inline(never)]
pub(crate) fn read_start<R: Read>(
    reader: &mut R,
    start: &mut Start,
    buf: &mut [u8],
) -> io::Result<usize>
    ensures bound { ReadsAtMost result buf.new }
    ensures bytes { ReadConsumes (unread_at start.old (R.remaining reader.old))
        (unread_at start.new (R.remaining reader.new)) result buf.new }
    ensures utf16 { start.old ≡ IsUnread → IfSome (R.remaining reader.old)
        (λ bytes. begins_utf16 bytes ≡ true → IsErr result) }
{
    if buf.len() < 3 || has_begun(start) {
        return Err(io::Error::from(ErrorKind::InvalidInput));
    }
    let held = give_held(start, buf);
    let (count, outcome) = fill(reader, buf, held);
    match outcome {
        Ok(()) => begin(reader, start, buf, count),
        Err(error) => {
            *start = start_with(&buf[..count]);
            Err(error)
        }
    }
}

fn has_begun(start: &Start) -> bool
    ensures { result ≡ has_begun start.now }
{
    matches!(start, Start::Begun | Start::Utf16)
}

/// Writes the bytes that are held to the start of a buffer, and returns how many they are.
fn give_held(start: &Start, buf: &mut [u8]) -> usize
    requires { 3 ≤ length buf.old }
    ensures bytes { take result buf.new ≡ held start.now }
    ensures count { result ≤ 2 }
    ensures length { length buf.new ≡ length buf.old }
{
    match *start {
        Start::One(first) => {
            buf[0] = first;
            1
        }
        Start::Two(first, second) => {
            buf[0] = first;
            buf[1] = second;
            2
        }
        Start::Unread | Start::Begun | Start::Utf16 => 0,
    }
}

/// The start by bytes that may be a part of a mark.
fn start_with(bytes: &[u8]) -> Start
    requires { is_open bytes.now ≡ true }
    ensures held { held result ≡ bytes.now }
    ensures begun { has_begun result ≡ false }
{
    match bytes {
        [first] => Start::One(*first),
        [first, second] => Start::Two(*first, *second),
        _ => Start::Unread,
    }
}

/// Reads after bytes of a buffer, until what it begins with is known to be a mark or none, or the input
/// is at its end. Returns how many bytes the buffer has then.
fn fill<R: Read>(reader: &mut R, buf: &mut [u8], held: usize) -> (usize, io::Result<()>)
    requires room { 3 ≤ length buf.old }
    requires count { held ≤ 2 }
    ensures bound { result.0 ≤ length buf.new }
    ensures length { length buf.new ≡ length buf.old }
    ensures bytes { Consumes (prepend_known (take held buf.old) (R.remaining reader.old))
        (R.remaining reader.new) (take result.0 buf.new) }
    ensures outcome { MatchResult result.1
        (λ _. IsDecided (take result.0 buf.new) (R.remaining reader.new))
        (λ _. is_open (take result.0 buf.new) ≡ true) }
{
    let mut count = held;
    while is_open(&buf[..count]) {
        match read_after(reader, buf, count) {
            Ok(0) => return (count, Ok(())),
            Ok(more) => count += more,
            Err(error) => return (count, Err(error)),
        }
    }
    (count, Ok(()))
}

/// Whether bytes may be a part of a mark, of which more is to come.
fn is_open(bytes: &[u8]) -> bool
    ensures value { result ≡ is_open bytes.now }
    ensures short { result ≡ true → length bytes.now ≤ 2 }
{
    matches!(bytes, [] | [0xef | 0xfe | 0xff] | [0xef, 0xbb])
}

/// Reads after so many bytes of a buffer, which are kept.
fn read_after<R: Read>(reader: &mut R, buf: &mut [u8], count: usize) -> io::Result<usize>
    requires { count ≤ length buf.old }
    ensures bound { IfOk result (λ more. count + more ≤ length buf.new) }
    ensures length { length buf.new ≡ length buf.old }
    ensures bytes { (before : Option (List ℕ))
        → Consumes before (R.remaining reader.old) (take count buf.old)
        → MatchResult result
        (λ more. Consumes before (R.remaining reader.new) (take (count + more) buf.new)
        × (more ≡ 0 → count < length buf.old → IsAtEnd (R.remaining reader.new)))
        (λ _. Consumes before (R.remaining reader.new) (take count buf.new)) }
    ensures kept { take count buf.new ≡ take count buf.old }
{
    reader.read(&mut buf[count..])
}

/// Begins an input with the bytes that a buffer begins with, which are known to be a mark or none.
fn begin<R: Read>(
    reader: &mut R,
    start: &mut Start,
    buf: &mut [u8],
    count: usize,
) -> io::Result<usize>
    requires room { count ≤ length buf.old }
    requires decided { IsDecided (take count buf.old) (R.remaining reader.old) }
    ensures bound { ReadsAtMost result buf.new }
    ensures bytes { (before : Option (List ℕ))
        → Consumes before (R.remaining reader.old) (take count buf.old)
        → ReadConsumes (option_map seen before) (unread_at start.new (R.remaining reader.new)) result buf.new }
    ensures utf16 { (before : Option (List ℕ))
        → Consumes before (R.remaining reader.old) (take count buf.old)
        → IfSome before (λ bytes. begins_utf16 bytes ≡ true → IsErr result) }
{
    if begins_utf16(&buf[..count]) {
        *start = Start::Utf16;
        return Err(io::Error::from(ErrorKind::InvalidData));
    }
    *start = Start::Begun;
    if !begins_utf8(&buf[..count]) {
        return Ok(count);
    }
    if count == 3 {
        return reader.read(buf);
    }
    buf.copy_within(3..count, 0);
    Ok(count - 3)
}

fn begins_utf16(bytes: &[u8]) -> bool
    ensures { result ≡ begins_utf16 bytes.now }
{
    matches!(bytes, [0xfe, 0xff, ..] | [0xff, 0xfe, ..])
}

fn begins_utf8(bytes: &[u8]) -> bool
    ensures { result ≡ begins_utf8 bytes.now }
{
    matches!(bytes, [0xef, 0xbb, 0xbf, ..])
}
