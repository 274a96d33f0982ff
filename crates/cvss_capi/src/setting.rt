//! Vectors that C makes of another by setting metrics or leaving some out, or of metrics alone.

ghost use Rattle.cvss_ffi.specs.Calls.{IsAnswerTo, Returns};
ghost use Rattle.cvss_ffi.specs.Defined.{IsTextWithout};
ghost use Rattle.cvss_ffi.specs.Setting.{MakesVector, SetsMetrics};

use cvss_ffi::CvssError;
use cvss_ffi::defined::without_not_defined;
use cvss_ffi::setting::{from_metrics, with_metrics};

/// The canonical text of the vector that a text denotes, with metrics set: components of any group,
/// joined by slashes, in any order and each metric once. The new vector has to be complete unless the
/// flags allow it to lack base metrics.
#[unsafe(no_mangle)]
pub extern "C" fn cvss_with_metrics(
    text: &[u8],
    metrics: &[u8],
    flags: u32,
    error: &mut CvssError,
    buffer: &mut [u8],
) -> usize
    ensures { Returns (SetsMetrics flags text.now metrics.now) error.old error.new
        buffer.old buffer.new result }
{
    with_metrics(text, metrics, flags, error, buffer)
}

/// The canonical text of the vector of a version, 20, 30, 31 or 40, that metrics make: components
/// joined by slashes, in any order and each metric once.
#[unsafe(no_mangle)]
pub extern "C" fn cvss_from_metrics(
    version: i32,
    metrics: &[u8],
    flags: u32,
    error: &mut CvssError,
    buffer: &mut [u8],
) -> usize
    ensures { Returns (MakesVector flags version metrics.now) error.old error.new
        buffer.old buffer.new result }
{
    from_metrics(version, metrics, flags, error, buffer)
}

/// The canonical text of the vector that a text denotes, without the metrics that are not defined.
/// Where no metric is defined, which may be in CVSS v3 alone, all are kept.
#[unsafe(no_mangle)]
pub extern "C" fn cvss_without_not_defined(
    text: &[u8],
    flags: u32,
    error: &mut CvssError,
    buffer: &mut [u8],
) -> usize
    ensures { Returns (IsAnswerTo flags text.now IsTextWithout) error.old error.new
        buffer.old buffer.new result }
{
    without_not_defined(text, flags, error, buffer)
}
