//! Messages as segments, which are written one after another and need no memory of their own.

ghost use Rattle.std.specs.Prelude.{◌≡◌, IfOk, IsUtf8, string_bytes};
ghost use Rattle.cvss_base.specs.Text.{read_as};
ghost use Rattle.cvss_vector.specs.Segments.{segment_text};

use std::alloc::{AllocError, Global};

/// Bytes of a message, as they are or with their ASCII letters in upper case.
#[derive(Clone, Copy)]
pub struct Segment<'a> {
    pub bytes: &'a [u8],
    /// Whether ASCII letters are written in upper case.
    pub upper: bool,
}

impl<'a> Segment<'a> {
    /// Words as they are.
    pub fn words(words: &'static str) -> Segment<'a>
        ensures { segment_text result ≡ words.now }
    {
        Segment::given(words.as_bytes())
    }

    /// Bytes as they are.
    pub fn given(bytes: &'a [u8]) -> Segment<'a>
        ensures text { segment_text result ≡ bytes.now }
        ensures bytes { result.bytes.now ≡ bytes.now }
    {
        Segment::read(false, bytes)
    }

    /// Bytes as a version reads them: in upper case where it reads any case.
    pub(crate) fn read(any_case: bool, bytes: &'a [u8]) -> Segment<'a>
        ensures text { segment_text result ≡ read_as any_case bytes.now }
        ensures bytes { result.bytes.now ≡ bytes.now }
    {
        Segment {
            bytes,
            upper: any_case,
        }
    }

    /// A copy of the segment. What is not UTF-8 is replaced.
    pub(crate) fn copied(self, alloc: Global) -> Result<String, AllocError>
        ensures { IfOk result (λ text. IsUtf8 self.entry.bytes.now
            → string_bytes text ≡ segment_text self.entry) }
    {
        let mut text = String::from_utf8_lossy(alloc, self.bytes)?;
        if self.upper {
            text.make_ascii_uppercase();
        }
        Ok(text)
    }
}
