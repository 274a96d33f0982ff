//! Exact numbers for C: those of vectors that may lack mandatory metrics, and numbers that are
//! rounded.

ghost use Rattle.cvss_ffi.specs.Buffer.{Puts, PutsFilled};
ghost use Rattle.cvss_ffi.specs.Exact.{AreNumbersOf, IsRoundedTo, IsTemporalWith, numbers_size};

use cvss_ffi::{CvssNumber, CvssNumbers, exact};

/// Whether the version is 20, 30 or 31, metrics make a vector of it, which may lack any:
/// components joined by slashes, in any order and each once, and the struct is large enough; then
/// the vector's scores, in tenths, and its exact sub-scores.
#[unsafe(no_mangle)]
pub extern "C" fn cvss_numbers(version: i32, metrics: &[u8], numbers: &mut CvssNumbers) -> bool
    ensures { PutsFilled numbers_size numbers.old.size
        (AreNumbersOf numbers.old.size version metrics.now) numbers.old numbers.new result }
{
    exact::numbers(version, metrics, numbers)
}

/// Whether the version is 20, 30 or 31 and the number's parts are within their bounds; then the
/// tenths of the number, rounded as the version rounds scores.
#[unsafe(no_mangle)]
pub extern "C" fn cvss_rounded(version: i32, number: &CvssNumber, tenths: &mut i32) -> bool
    ensures { Puts (IsRoundedTo version number.now) tenths.old tenths.new result }
{
    exact::rounded(version, number, tenths)
}

/// Whether metrics make a vector of CVSS v2, as for `cvss_numbers`, and the impact's parts are
/// within their bounds; then the tenths of the temporal score with this impact in place of the
/// vector's own, which may be below 0.
#[unsafe(no_mangle)]
pub extern "C" fn cvss_temporal_with_impact(
    metrics: &[u8],
    impact: &CvssNumber,
    tenths: &mut i32,
) -> bool
    ensures { Puts (IsTemporalWith metrics.now impact.now) tenths.old tenths.new result }
{
    exact::temporal_with_impact(metrics, impact, tenths)
}
