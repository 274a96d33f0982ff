//! Metrics that are set in a vector, and vectors that are made of metrics. It takes no memory.

ghost use Rattle.std.specs.Prelude.{◌≡◌, ◌≤◌, IfErr, IfNone, IfOk, IfSome, None, Some};
ghost use Rattle.cvss_base.specs.Rejection as spec;
ghost use Rattle.cvss_base.specs.V4Types.{most_metrics};
ghost use Rattle.cvss_vector.specs.Complete.{missing_by as lacks_by};
ghost use Rattle.cvss_vector.specs.Rejections.{rejection_of};
ghost use Rattle.cvss_vector.specs.declared.metric_type.MetricType.{MetricType};
ghost use Rattle.cvss_vector.specs.declared.setting.Version as version;
ghost use Rattle.cvss_ffi.specs.Accepted.{may_lack as is_allowed};
ghost use Rattle.cvss_ffi.specs.Calls.{Returns};
ghost use Rattle.cvss_ffi.specs.Errors.{report_of};
ghost use Rattle.cvss_ffi.specs.Setting.{MakesVector, SetsMetrics, number_of};
ghost use Rattle.cvss_ffi.specs.private.Rejection.{answered, reported};

use crate::error::CvssError;
use crate::reading::may_lack;
use crate::rejection::{NoVector, write_new};
use cvss_vector::{Cvss, ReadError, Rejection, SetError, Version};

/// Writes the canonical text of the vector that a text denotes with metrics set, or why there is none.
pub fn with_metrics(
    text: &[u8],
    metrics: &[u8],
    flags: u32,
    error: &mut CvssError,
    buffer: &mut [u8],
) -> usize
    ensures { Returns (SetsMetrics flags text.now metrics.now) error.old error.new
        buffer.old buffer.new result }
{
    write_new(vector_with(text, metrics, flags), error, buffer)
}

/// Writes the canonical text of the vector of a version that metrics make, or why they make none.
pub fn from_metrics(
    version: i32,
    metrics: &[u8],
    flags: u32,
    error: &mut CvssError,
    buffer: &mut [u8],
) -> usize
    ensures { Returns (MakesVector flags version metrics.now) error.old error.new
        buffer.old buffer.new result }
{
    write_new(vector_of(version, metrics, flags), error, buffer)
}

/// The vector that a text denotes with metrics set, or why there is none. Only the new vector has to be
/// complete.
fn vector_with<'a>(text: &'a [u8], metrics: &'a [u8], flags: u32) -> Result<Cvss, NoVector<'a>>
    ensures { SetsMetrics flags text.now metrics.now (answered result) }
{
    let cvss = match Cvss::read(text) {
        Ok(cvss) => cvss,
        Err(error) => return Err(NoVector::Text(error)),
    };
    let Ok(metrics) = str::from_utf8(metrics) else {
        return Err(NoVector::Text(ReadError::NotUtf8));
    };
    match cvss.with_metrics(metrics) {
        Ok(new) => completed(new, flags),
        Err(error) => Err(rejection_of(error)),
    }
}

/// The vector of a version that metrics make, or why they make none.
fn vector_of(version: i32, metrics: &[u8], flags: u32) -> Result<Cvss, NoVector<'_>>
    ensures { MakesVector flags version metrics.now (answered result) }
{
    let Some(version) = version_of(version) else {
        return Err(NoVector::NoVersion);
    };
    let Ok(metrics) = str::from_utf8(metrics) else {
        return Err(NoVector::Text(ReadError::NotUtf8));
    };
    match Cvss::build(version, metrics) {
        Ok(new) => completed(new, flags),
        Err(error) => Err(rejection_of(error)),
    }
}

/// The vector, unless it lacks base metrics and may not.
fn completed<'a>(cvss: Cvss, flags: u32) -> Result<Cvss, NoVector<'a>>
    ensures accepted { IfOk result (λ new. (new ≡ cvss) × (lacks_by (is_allowed flags) cvss ≡ None)) }
    ensures rejected { IfErr result (λ rejection. (metric : MetricType)
        × (lacks_by (is_allowed flags) cvss ≡ Some metric)
        × (reported rejection ≡ report_of None (spec.Missing metric))) }
{
    match cvss.missing_by(may_lack(flags)) {
        Some(metric) => Err(NoVector::Metrics(None, Rejection::Missing(metric))),
        None => Ok(cvss),
    }
}

/// Why metrics are rejected.
fn rejection_of(error: SetError<'_>) -> NoVector<'_>
    requires { IfSome error.index (λ index. index ≤ most_metrics) }
    ensures { reported result ≡ report_of error.entry.index (rejection_of error.entry.reason) }
{
    match error.index {
        Some(index) => NoVector::Metrics(Some(index as u8), error.reason),
        None => NoVector::Metrics(None, error.reason),
    }
}

/// The version with this number.
fn version_of(number: i32) -> Option<Version>
    ensures known { IfSome result (λ version. number_of version ≡ number) }
    ensures unknown { IfNone result ((version : version.Version) → ¬ (number_of version ≡ number)) }
{
    match number {
        20 => Some(Version::V20),
        30 => Some(Version::V30),
        31 => Some(Version::V31),
        40 => Some(Version::V40),
        _ => None,
    }
}
