//! The answers that aren't written yet, and how they are written.

ghost use Rattle.std.specs.Io.KnownBytes.{Appends};
ghost use Rattle.std.specs.Prelude.{◌≡◌, ◌<◌, ◌++◌, ℕ, [], IfErr, IsOk, OnOk, length, take, vec_len};
ghost use Rattle.cvss_lines.specs.Streaming.{WritesWaiting};
ghost use Rattle.cvss_lines.specs.declared.fault.RunFault.TheVariants.{Write as WriteFault};

use crate::RunFault;
use std::alloc::{AllocError, Global};
use std::fmt;
use std::io::Write;

/// From how many bytes on answers are written in the midst of a line.
const FULL: usize = 64 * 1024;

/// Answers that wait to be written, as bytes, a byte 10 after each text: a line that is its own
/// answer's text is copied as it is.
#[derive(Drop)]
pub struct OutputBuffer {
    pub bytes: Vec<u8>,
}

impl OutputBuffer {
    pub(crate) fn new(alloc: Global) -> OutputBuffer
        ensures { result.bytes.items ≡ [] }
    {
        OutputBuffer {
            bytes: Vec::new(alloc),
        }
    }

    /// Appends bytes.
    pub fn push(&mut self, bytes: &[u8]) -> Result<(), AllocError>
        ensures { OnOk result (self.new.bytes.items ≡ self.old.bytes.items ++ bytes.now) }
    {
        self.bytes.extend_from_slice(bytes)
    }

    /// Writes the answers if they are as long as a read may be, so that what waits stays small in a line
    /// of many texts.
    ///
    /// # Errors
    ///
    /// A failure of the writer, which has a beginning of the answers then.
    pub fn write_if_full<W: Write>(&mut self, writer: &mut W) -> Result<(), RunFault>
        ensures written { OnOk result (WritesWaiting self.old.bytes.items self.new.bytes.items
            (W.contents writer.old) (W.contents writer.new)) }
        ensures cut { IfErr result (λ fault. (fault ≡ WriteFault) × ((count : ℕ)
            × Appends (W.contents writer.old) (W.contents writer.new)
            (take count self.old.bytes.items))) }
        ensures little { OnOk result (vec_len self.new.bytes < FULL) }
    {
        if self.bytes.len() >= FULL {
            self.write_out(writer)?;
        }
        Ok(())
    }

    /// Writes the answers.
    pub(crate) fn write_out<W: Write>(&mut self, writer: &mut W) -> Result<(), RunFault>
        ensures written { OnOk result (Appends (W.contents writer.old) (W.contents writer.new)
            self.old.bytes.items) }
        ensures none_waits { OnOk result (self.new.bytes.items ≡ []) }
        ensures cut { IfErr result (λ fault. (fault ≡ WriteFault) × ((count : ℕ)
            × Appends (W.contents writer.old) (W.contents writer.new)
            (take count self.old.bytes.items))) }
    {
        write_whole(writer, &self.bytes)?;
        self.bytes.clear();
        Ok(())
    }
}

impl fmt::Write for OutputBuffer {
    ghost write_str_gives = { λ old text new. new.bytes.items ≡ old.bytes.items ++ text };

    fn write_str(&mut self, text: &str) -> fmt::Result {
        self.push(text.as_bytes())?;
        Ok(())
    }
}

/// Writes all of the bytes. A write that fails is not tried again, not even one that a signal
/// interrupted; the writer has a beginning of the bytes then.
pub fn write_whole<W: Write>(writer: &mut W, bytes: &[u8]) -> Result<(), RunFault>
    ensures ok { OnOk result (Appends (W.contents writer.old) (W.contents writer.new) bytes.now) }
    ensures err { IfErr result (λ fault. (fault ≡ WriteFault) × ((count : ℕ)
        × Appends (W.contents writer.old) (W.contents writer.new) (take count bytes.now))) }
    ensures none { length bytes.now ≡ 0 → IsOk result }
{
    let mut written = 0;
    while written < bytes.len() {
        match writer.write(&bytes[written..]) {
            Ok(0) | Err(_) => return Err(RunFault::Write),
            Ok(count) => written += count,
        }
    }
    Ok(())
}
