//! Readers and writers that keep why they failed.

ghost use Rattle.std.specs.Io.{ReadsAtMost, WritesAtMost};
ghost use Rattle.std.specs.Io.KnownBytes.{ReadConsumes, WriteAppends};
ghost use Rattle.std.specs.Option.{option_map};
ghost use Rattle.std.specs.Prelude.{◌≡◌, ◌||◌, ◌==◌, ℕ, List, Option, IfSome, IsErr, MatchResult, None, Some, false, not, true};
ghost use Rattle.cvss_frame.specs.Marks.{begins_utf16, seen, unread};
ghost use Rattle.cvss_frame.specs.declared.watching.Start.TheVariants.{Begun as HasBegun, Unread as IsUnread};

use crate::marks::read_start;
use std::io::{self, Read, Write};

/// How an input began, whose byte-order mark is left out.
#[derive(Drop)]
pub enum Start {
    /// Nothing is read of it.
    Unread,
    /// Its first byte is read, which may be a part of a mark.
    One(u8),
    /// Its first two bytes are read, which may be a part of a mark.
    Two(u8, u8),
    /// It has begun.
    Begun,
    /// With the mark of UTF-16, so that nothing of it is read.
    Utf16,
}

/// A reader without the byte-order mark that its input may begin with, and the error of its last read
/// that failed. An input that begins with the mark of UTF-16 cannot be read.
#[derive(Drop)]
pub struct WatchedReader<R> {
    pub reader: R,
    pub start: Start,
    pub error: Option<io::Error>,
}

impl<R> WatchedReader<R> {
    /// A reader of an input that nothing is read of.
    pub fn new(reader: R) -> WatchedReader<R>
        ensures reader { result.reader ≡ reader }
        ensures start { result.start ≡ IsUnread }
        ensures error { result.error ≡ None }
        ensures unread { (remaining : R → Option (List ℕ))
            → unread remaining result ≡ option_map seen (remaining reader) }
    {
        WatchedReader {
            reader,
            start: Start::Unread,
            error: None,
        }
    }

    /// A reader of a text that has no mark.
    pub fn of_text(reader: R) -> WatchedReader<R>
        ensures reader { result.reader ≡ reader }
        ensures start { result.start ≡ HasBegun }
        ensures error { result.error ≡ None }
        ensures unread { (remaining : R → Option (List ℕ))
            → unread remaining result ≡ remaining reader }
    {
        WatchedReader {
            reader,
            start: Start::Begun,
            error: None,
        }
    }
}

impl<R: Read> Read for WatchedReader<R> {
    ghost remaining = { λ watched. unread R.remaining watched };

    fn read(&mut self, buf: &mut [u8]) -> io::Result<usize>
        ensures bound { ReadsAtMost result buf.new }
        ensures bytes { ReadConsumes (unread R.remaining self.old) (unread R.remaining self.new) result buf.new }
        ensures error { MatchResult result (λ _. self.new.error ≡ self.old.error)
            (λ error. self.new.error ≡ Some error) }
        ensures utf16 { self.old.start ≡ IsUnread → IfSome (R.remaining self.old.reader)
            (λ bytes. begins_utf16 bytes ≡ true → IsErr result) }
    {
        let result = match self.start {
            Start::Begun => self.reader.read(buf),
            _ => read_start(&mut self.reader, &mut self.start, buf),
        };
        if let Err(error) = result {
            self.error = Some(error);
        }
        result
    }
}

/// A writer, whether it has taken bytes, and the error of its last write that failed.
#[derive(Drop)]
pub struct WatchedWriter<W> {
    pub writer: W,
    pub has_taken: bool,
    pub error: Option<io::Error>,
}

impl<W> WatchedWriter<W> {
    /// A writer that has taken nothing, and whose writes have not failed.
    pub fn new(writer: W) -> WatchedWriter<W>
        ensures writer { result.writer ≡ writer }
        ensures taken { result.has_taken ≡ false }
        ensures error { result.error ≡ None }
    {
        WatchedWriter {
            writer,
            has_taken: false,
            error: None,
        }
    }
}

impl<W: Write> Write for WatchedWriter<W> {
    ghost contents = { λ watched. W.contents watched.writer };

    fn write(&mut self, buf: &[u8]) -> io::Result<usize>
        ensures bound { WritesAtMost result buf.now }
        ensures bytes { WriteAppends (W.contents self.old.writer) (W.contents self.new.writer) result buf.now }
        ensures error { MatchResult result (λ _. self.new.error ≡ self.old.error)
            (λ error. self.new.error ≡ Some error) }
        ensures taken { MatchResult result
            (λ count. self.new.has_taken ≡ (self.old.has_taken || not (count == 0)))
            (λ _. self.new.has_taken ≡ self.old.has_taken) }
    {
        match self.writer.write(buf) {
            Ok(count) => {
                self.has_taken |= count != 0;
                Ok(count)
            }
            Err(error) => {
                self.error = Some(error);
                Err(error)
            }
        }
    }

    fn flush(&mut self) -> io::Result<()> {
        self.writer.flush()
    }
}
