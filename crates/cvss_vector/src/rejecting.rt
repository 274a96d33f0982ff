//! The errors that say why a text is rejected.

ghost use Rattle.std.specs.Prelude.{◌≡◌, true, Some, IfOk, IfErr, OnErr, IsErrAnd, IsSomeAnd, Ok, string_bytes};
ghost use Rattle.cvss_base.specs.Rejection as spec;
ghost use Rattle.cvss_base.specs.Rejection.{BadValue, Repeated, Missing, carries_text, IsFirstRejectionAfter};
ghost use Rattle.cvss_base.specs.Reported.{Reports, ReportsFirst, reason_reported};
ghost use Rattle.cvss_base.specs.Version.{Denotes, IsWellFormed};
ghost use Rattle.cvss_text.specs.private.Walk.{IsPrintable, reason_of};
ghost use Rattle.cvss_vector.specs.Dispatch.{cvss_reason};
ghost use Rattle.cvss_vector.specs.Rejections.{rejection_of};
ghost use Rattle.cvss_vector.specs.private.{IsReportable};
ghost use Rattle.cvss_vector.specs.private.ErrorLaws.{HasMissingError};

use crate::metric_type::MetricType;
use crate::one_version::OneVersion;
use crate::rejection::Rejection;
use cvss_base::Error;
use cvss_text::front::{Prefixed, read_after};
use cvss_text::walk::Fault;
use std::alloc::{AllocError, Global};

/// The vector that a text after a version piece denotes, or the error that says why there is none.
pub(crate) fn vector_after<V: OneVersion + Prefixed>(alloc: Global, text: &str) -> Result<V, Error>
    // Accepted: what is given is what the text denotes, and each such vector is given.
    ensures denoted { IfOk result (λ v. Denotes V.version text.now v) }
    ensures well_formed { IfOk result (λ v. IsWellFormed V.version v) }
    ensures accepts { (v : V) → Denotes V.version text.now v → IsWellFormed V.version v
        → result ≡ Ok v }
    // Rejected: for the first reason, and wherever there is one. Memory is the answer only where
    // the reason carries text.
    ensures rejected { IfErr result (ReportsFirst V.reason (IsFirstRejectionAfter V.version text.now)) }
    ensures rejects { (reason : spec.Rejection V.Kind) → IsFirstRejectionAfter V.version text.now reason
        → IsErrAnd result (Reports V.reason reason) }
{
    match read_after(text.as_bytes()) {
        Ok(vector) => Ok(vector),
        Err(fault) => Err(error_of_version::<V>(alloc, fault)),
    }
}

/// The error that says the fault that a version found, or that there is no memory for the text that the
/// fault names.
pub(crate) fn error_of_version<V: OneVersion>(alloc: Global, fault: Fault<'_, V::Kind>) -> Error
    requires { IsPrintable V.version fault }
    ensures { Reports V.reason (reason_of V.version fault.entry) result }
{
    error_of(alloc, Rejection::of_version::<V>(fault))
}

/// The error that says a reason, or that there is no memory for the text that the reason carries.
pub(crate) fn error_of(alloc: Global, rejection: Rejection<'_>) -> Error
    requires { IsReportable rejection }
    ensures { Reports cvss_reason (rejection_of rejection.entry) result }
{
    match copied_error(alloc, rejection) {
        Ok(error) => error,
        Err(_) => Error::OutOfMemory,
    }
}

fn copied_error(alloc: Global, rejection: Rejection<'_>) -> Result<Error, AllocError>
    requires { IsReportable rejection }
    ensures reported { IfOk result (λ error.
        reason_reported cvss_reason error ≡ Some (rejection_of rejection.entry)) }
    ensures lacks_memory { OnErr result (carries_text (rejection_of rejection.entry) ≡ true) }
{
    Ok(match rejection {
        Rejection::BadComponent(component) => Error::InvalidComponent {
            component: component.copied(alloc)?,
        },
        Rejection::WrongPrefix(prefix) => Error::InvalidPrefix {
            prefix: prefix.copied(alloc)?,
        },
        Rejection::WrongVersion(version) => Error::UnsupportedVersion {
            version: version.copied(alloc)?,
        },
        Rejection::UnknownName(name) => Error::UnknownMetric {
            name: name.copied(alloc)?,
        },
        Rejection::BadValue(metric, value) => invalid_metric(metric, value.copied(alloc)?),
        Rejection::Repeated(metric) => duplicate_metric(metric),
        Rejection::Missing(metric) => missing_metric(metric).unwrap(),
    })
}

/// The error that the metric has no such value.
fn invalid_metric(metric: MetricType, value: String) -> Error
    ensures { reason_reported cvss_reason result ≡ Some (BadValue metric (string_bytes value)) }
{
    match metric {
        MetricType::V2(metric_type) => Error::InvalidMetricV2 { metric_type, value },
        MetricType::V3(metric_type) => Error::InvalidMetricV3 { metric_type, value },
        MetricType::V4(metric_type) => Error::InvalidMetricV4 { metric_type, value },
    }
}

/// The error that the metric occurs twice.
fn duplicate_metric(metric: MetricType) -> Error
    ensures { reason_reported cvss_reason result ≡ Some (Repeated metric) }
{
    match metric {
        MetricType::V2(metric_type) => Error::DuplicateMetricV2 { metric_type },
        MetricType::V3(metric_type) => Error::DuplicateMetricV3 { metric_type },
        MetricType::V4(metric_type) => Error::DuplicateMetricV4 { metric_type },
    }
}

/// The error that the metric is missing. None: no metric of v3 is mandatory.
fn missing_metric(metric: MetricType) -> Option<Error>
    ensures { HasMissingError metric
        → IsSomeAnd result (λ error. reason_reported cvss_reason error ≡ Some (Missing metric)) }
{
    match metric {
        MetricType::V2(metric_type) => Some(Error::MissingMandatoryMetricV2 { metric_type }),
        MetricType::V3(_) => None,
        MetricType::V4(metric_type) => Some(Error::MissingMandatoryMetricV4 { metric_type }),
    }
}
