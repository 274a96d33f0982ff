//! What C gets of lines, and of texts with vectors in them.

ghost use Rattle.cvss_ffi.specs.Buffer.{PutsFilled, Writes};
ghost use Rattle.cvss_ffi.specs.Matches.{IsMatchFrom, match_size};
ghost use Rattle.cvss_ffi.specs.ScoreLines.{IsScoreLine, WritesScoreLines};

use cvss_ffi::CvssMatch;
use cvss_ffi::matches::find;
use cvss_ffi::score_line::score_line;
use cvss_ffi::score_lines::score_lines;

/// The line that `cvss score` prints for a text, without the byte 10 that ends it.
#[unsafe(no_mangle)]
pub extern "C" fn cvss_score_line(text: &[u8], flags: u32, buffer: &mut [u8]) -> usize
    ensures { Writes (IsScoreLine flags text.now) buffer.old buffer.new result }
{
    score_line(text, flags, buffer)
}

/// The score lines of many texts, each ended by a byte 10, which one byte 13 may precede. Each score
/// line is ended by a byte 10. As many are written, one after the other, as have room in the buffer;
/// their length is returned, and in `read` how many bytes of the texts they are of. What follows the
/// last byte 10 is not read.
#[unsafe(no_mangle)]
pub extern "C" fn cvss_score_lines(
    texts: &[u8],
    flags: u32,
    buffer: &mut [u8],
    read: &mut usize,
) -> usize
    ensures { WritesScoreLines flags texts.now buffer.old buffer.new read.new result }
{
    let (written, bytes) = score_lines(texts, flags, buffer);
    *read = bytes;
    written
}

/// Whether a vector is found in a text from where the last call went on, or from its beginning, and
/// the struct is large enough; then the offset and the length of the match, and where the next call
/// goes on. A match denotes a vector, or was meant as one and is rejected.
#[unsafe(no_mangle)]
pub extern "C" fn cvss_find(text: &[u8], found: &mut CvssMatch) -> bool
    ensures { PutsFilled match_size found.old.size
        (IsMatchFrom text.now found.old.next found.old.size) found.old found.new result }
{
    find(text, found)
}
