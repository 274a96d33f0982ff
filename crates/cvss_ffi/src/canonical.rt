//! The canonical text of a vector.

ghost use Rattle.cvss_vector.specs.Answers.{text_of};
ghost use Rattle.cvss_ffi.specs.Buffer.{IsWritten};

use crate::buffer::write;
use cvss_json::Page;
use cvss_report::put_vector;
use cvss_text::print::text_after;
use cvss_vector::{Cvss, TextBuffer};

/// Writes the canonical text of a vector.
pub(crate) fn write_canonical(cvss: &Cvss, buffer: &mut [u8]) -> usize
    ensures { IsWritten (text_of cvss.now) buffer.old buffer.new result }
{
    let mut page = TextBuffer::new();
    let text = match cvss {
        Cvss::CvssV20(own) => own.text(&mut page),
        Cvss::CvssV30(own) if own.minor_version == 0 => text_after(*b"CVSS:3.0", own, &mut page),
        Cvss::CvssV31(own) if own.minor_version == 1 => text_after(*b"CVSS:3.1", own, &mut page),
        Cvss::CvssV40(own) if own.minor_version == 0 => text_after(*b"CVSS:4.0", own, &mut page),
        _ => return write_by_page(cvss, buffer),
    };
    write(text, buffer)
}

/// Writes the canonical text of a vector of any minor version.
fn write_by_page(cvss: &Cvss, buffer: &mut [u8]) -> usize
    ensures { IsWritten (text_of cvss.now) buffer.old buffer.new result }
{
    let mut page = Page::new();
    put_vector(&mut page, cvss);
    write(page.bytes(), buffer)
}
