//! The record of a vector, and how its score is computed, as JSON without spaces.

ghost use Rattle.std.specs.Prelude.{None};
ghost use Rattle.cvss_explain.specs.Explanation.{IsExplanationText};
ghost use Rattle.cvss_ffi.specs.Calls.{IsAnswerTo, Returns};
ghost use Rattle.cvss_report.specs.Record.{IsRecordText};

use crate::error::{CvssError, write_result};
use crate::reading::read;
use crate::rejection::{NoVector, reject};
use cvss_explain::put_explanation;
use cvss_json::Page;
use cvss_report::put_record;

/// Writes the record of the vector that a text denotes, or why there is none.
pub fn record(text: &[u8], flags: u32, error: &mut CvssError, buffer: &mut [u8]) -> usize
    ensures { Returns (IsAnswerTo flags text.now IsRecordText) error.old error.new
        buffer.old buffer.new result }
{
    match read(text, flags) {
        Ok(cvss) => {
            let mut page = Page::new();
            put_record(&mut page, &cvss);
            write_result(page.bytes(), error, buffer)
        }
        Err(why) => reject(NoVector::Text(why), error, buffer),
    }
}

/// Writes the explanation of the score of the vector that a text denotes, or why there is none.
pub fn explain(text: &[u8], flags: u32, error: &mut CvssError, buffer: &mut [u8]) -> usize
    ensures { Returns (IsAnswerTo flags text.now (IsExplanationText None)) error.old error.new
        buffer.old buffer.new result }
{
    match read(text, flags) {
        Ok(cvss) => {
            let mut page = Page::new();
            put_explanation(&mut page, None, &cvss);
            write_result(page.bytes(), error, buffer)
        }
        Err(why) => reject(NoVector::Text(why), error, buffer),
    }
}
