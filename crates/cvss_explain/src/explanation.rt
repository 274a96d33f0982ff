//! The explanation of a vector's scores.

ghost use Rattle.std.specs.Prelude.{◌≡◌, []};
ghost use Rattle.cvss_vector.specs.Answers.{HasScore};
ghost use Rattle.cvss_explain.specs.Explanation.{IsExplanationText};

use crate::{v2, v3, v4};
use cvss_json::Page;
use cvss_vector::Cvss;

/// Writes why a vector has its scores: an object with its canonical text and version, the score with all
/// metrics in it and the severity of that, the other scores, and the numbers on the way to each; and the
/// number of a line, if there is one.
pub fn put_explanation(page: &mut Page, line: Option<u64>, cvss: &Cvss)
    requires scored { HasScore cvss.now }
    requires empty { page.old ≡ [] }
    ensures { IsExplanationText line cvss.now page.new }
{
    let tenths = cvss.overall_tenths();
    match cvss {
        Cvss::CvssV20(vector) => v2::put_explanation(page, line, cvss, vector, tenths),
        Cvss::CvssV30(vector) | Cvss::CvssV31(vector) => {
            v3::put_explanation(page, line, cvss, vector, tenths);
        }
        Cvss::CvssV40(vector) => v4::put_explanation(page, line, cvss, vector, tenths),
    }
}
