//! The line that `cvss score` prints for a text.

ghost use Rattle.std.specs.Prelude.{◌≡◌, ◌≤◌, ◌<◌, ◌^◌, ◌++◌, ℕ, List, length};
ghost use Rattle.cvss_base.specs.SeverityText.{text_of as severity_text};
ghost use Rattle.cvss_vector.specs.Answers.{HasScore, severity_by, score_of_tenths, text_of as canonical_text, vector_answer};
ghost use Rattle.cvss_vector.specs.Evaluation.{IsOverallScore};
ghost use Rattle.cvss_ffi.specs.Buffer.{IsWritten, Writes};
ghost use Rattle.cvss_ffi.specs.ScoreLines.{IsScoreLine};

use crate::buffer::{write_message, write_segments};
use crate::canonical::write_canonical;
use crate::reading::read;
use cvss_base::tenths::text_of;
use cvss_vector::{Cvss, Message, Segment};

/// Writes the score line of a text.
pub fn score_line(text: &[u8], flags: u32, buffer: &mut [u8]) -> usize
    ensures { Writes (IsScoreLine flags text.now) buffer.old buffer.new result }
{
    write_line(text, flags, &[], buffer)
}

/// Writes the score line of a text, and an end.
pub(crate) fn write_line<'a>(text: &'a [u8], flags: u32, end: &'a [u8], buffer: &mut [u8]) -> usize
    requires { length end.now ≤ 1 }
    ensures { (line : List ℕ) × IsScoreLine flags text.now line
        × IsWritten (line ++ end.now) buffer.old buffer.new result }
{
    match read(text, flags) {
        Ok(cvss) => write_line_of(&cvss, text.len(), end, buffer),
        Err(error) => write_message(b"error: ", Message::of(error), end, buffer),
    }
}

/// Writes the score line of a vector, whose canonical text has this length, and an end.
// What follows the canonical text is written first: where it ends says whether the whole has room.
fn write_line_of(cvss: &Cvss, text_length: usize, end: &[u8], buffer: &mut [u8]) -> usize
    requires scored { HasScore cvss.now }
    requires length { length (canonical_text cvss.now) ≡ text_length }
    requires short { length end.now ≤ 1 }
    requires bound { text_length < 2 ^ 63 }
    ensures { (tenths : ℕ) × IsOverallScore cvss.now (score_of_tenths tenths)
        × IsWritten (vector_answer cvss.now tenths ++ end.now) buffer.old buffer.new result }
{
    let tenths = cvss.overall_tenths();
    let rated = [
        Segment::words(" "),
        Segment::words(text_of(tenths)),
        Segment::words(" "),
        Segment::words(severity_of(cvss, tenths)),
        Segment::given(end),
    ];
    let length = write_segments(&rated, text_length, buffer);
    if length <= buffer.len() {
        write_canonical(cvss, buffer);
    }
    length
}

/// The severity of a score of so many tenths, by the version of the vector.
fn severity_of(cvss: &Cvss, tenths: u8) -> &'static str
    requires { tenths ≤ 100 }
    ensures { result.now ≡ severity_text (severity_by cvss.now (score_of_tenths tenths)) }
{
    cvss.severity_of_tenths(tenths).as_str()
}
