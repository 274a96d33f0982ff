//! The lines that `cvss score` prints for many texts, one a line.

ghost use Rattle.cvss_ffi.specs.ScoreLines.{WritesScoreLines};

use crate::score_line::write_line;
use cvss_lines::{cut_at_line_end, line_text};

/// Writes the score lines of the first lines at the beginning of a buffer, as far as they have room, and
/// says their length and how many bytes of the texts were read.
pub fn score_lines(texts: &[u8], flags: u32, buffer: &mut [u8]) -> (usize, usize)
    ensures { WritesScoreLines flags texts.now buffer.old buffer.new result.1 result.0 }
{
    let mut rest = texts;
    let mut written = 0;
    while let Some((line, after)) = cut_at_line_end(rest) {
        let length = write_line(line_text(line), flags, b"\n", &mut buffer[written..]);
        if length > buffer.len() - written {
            return (written, texts.len() - rest.len());
        }
        written += length;
        rest = after;
    }
    (written, texts.len() - rest.len())
}
