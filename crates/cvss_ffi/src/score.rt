//! The score of a text, alone.

ghost use Rattle.std.specs.Prelude.{◌≡◌};
ghost use Rattle.cvss_vector.specs.Evaluation.{IsOverallScore};
ghost use Rattle.cvss_ffi.specs.Accepted.{Answers};
ghost use Rattle.cvss_ffi.specs.Scores.{IsScoreInTenths, nothing};

use crate::numbers::NOTHING;
use crate::reading::read_vector;

/// The tenths of the overall score of the vector that a text denotes; `NOTHING` where the text is
/// rejected.
pub fn score(text: &[u8], flags: u32) -> i32
    ensures { Answers flags text.now (λ cvss. IsScoreInTenths (IsOverallScore cvss) result)
        (result ≡ nothing) }
{
    match read_vector(text, flags) {
        Some(cvss) => i32::from(cvss.overall_tenths()),
        None => NOTHING,
    }
}
