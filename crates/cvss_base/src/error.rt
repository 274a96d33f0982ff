//! Why a text is rejected.

ghost use Rattle.std.specs.Prelude.{◌≡◌, Some};
ghost use Rattle.cvss_base.specs.declared.error.Error.TheVariants.{OutOfMemory};
ghost use Rattle.cvss_base.specs.ErrorText.{error_text};
ghost use Rattle.cvss_base.specs.private.Messages.{metric_named};

use crate::named::Named;
use crate::{v2, v3, v4};
use std::alloc::AllocError;
use std::fmt;

/// Why a text is no vector, metric or severity.
#[derive(Clone, Debug, Drop, PartialEq, Eq)]
pub enum Error {
    /// A piece of the text has no colon, or more than one.
    InvalidComponent {
        component: String,
    },
    /// The text does not begin with `CVSS`.
    InvalidPrefix {
        prefix: String,
    },
    /// The version that the text begins with is not one that is read.
    UnsupportedVersion {
        version: String,
    },
    /// The metric has no such value.
    InvalidMetricV2 {
        metric_type: v2::MetricType,
        value: String,
    },
    /// The metric occurs twice in the text.
    DuplicateMetricV2 {
        metric_type: v2::MetricType,
    },
    /// A metric that every vector has is missing.
    MissingMandatoryMetricV2 {
        metric_type: v2::MetricType,
    },
    /// The metric has no such value.
    InvalidMetricV3 {
        metric_type: v3::MetricType,
        value: String,
    },
    /// The metric occurs twice in the text.
    DuplicateMetricV3 {
        metric_type: v3::MetricType,
    },
    /// The metric has no such value.
    InvalidMetricV4 {
        metric_type: v4::MetricType,
        value: String,
    },
    /// The metric occurs twice in the text.
    DuplicateMetricV4 {
        metric_type: v4::MetricType,
    },
    /// A metric that every vector has is missing.
    MissingMandatoryMetricV4 {
        metric_type: v4::MetricType,
    },
    /// No nomenclature has this name.
    InvalidNomenclatureV4 {
        nomenclature: String,
    },
    /// No severity has this name.
    InvalidSeverity {
        name: String,
    },
    /// No metric has this name.
    UnknownMetric {
        name: String,
    },
    /// There was no memory for the rejection's text.
    OutOfMemory,
}

impl Error {
    /// The metric that the error names, as messages have it, or nothing.
    fn metric(&self) -> &'static str
        ensures { result.now ≡ metric_named self.now }
    {
        match self {
            Error::InvalidMetricV2 { metric_type, .. }
            | Error::DuplicateMetricV2 { metric_type }
            | Error::MissingMandatoryMetricV2 { metric_type } => metric_type.row().3,
            Error::InvalidMetricV3 { metric_type, .. } | Error::DuplicateMetricV3 { metric_type } =>
                metric_type.row().3,
            Error::InvalidMetricV4 { metric_type, .. }
            | Error::DuplicateMetricV4 { metric_type }
            | Error::MissingMandatoryMetricV4 { metric_type } => metric_type.row().3,
            _ => "",
        }
    }
}

impl fmt::Display for Error {
    ghost output = { λ error. Some (error_text error) };

    fn fmt<W: fmt::Write>(&self, f: &mut fmt::Formatter<W>) -> fmt::Result {
        let metric = self.metric();
        match self {
            Error::InvalidComponent { component } => {
                write!(f, "invalid CVSS metric group component: `{component}`")
            }
            Error::InvalidPrefix { prefix } => write!(f, "invalid CVSS string prefix: `{prefix}`"),
            Error::UnsupportedVersion { version } => {
                write!(f, "unsupported CVSS version: {version}")
            }
            Error::InvalidMetricV2 { value, .. }
            | Error::InvalidMetricV3 { value, .. }
            | Error::InvalidMetricV4 { value, .. } => write!(f, "invalid {metric}: `{value}`"),
            Error::DuplicateMetricV2 { .. }
            | Error::DuplicateMetricV3 { .. }
            | Error::DuplicateMetricV4 { .. } => write!(f, "duplicate {metric}"),
            Error::MissingMandatoryMetricV2 { .. } | Error::MissingMandatoryMetricV4 { .. } => {
                write!(f, "missing mandatory {metric}")
            }
            Error::InvalidNomenclatureV4 { nomenclature } => {
                write!(f, "invalid CVSSv4 nomenclature: `{nomenclature}`")
            }
            Error::InvalidSeverity { name } => {
                write!(f, "invalid CVSS Qualitative Severity Rating: `{name}`")
            }
            Error::UnknownMetric { name } => write!(f, "unknown CVSS metric name: `{name}`"),
            Error::OutOfMemory => f.write_str("out of memory"),
        }
    }
}

impl std::error::Error for Error {}

impl From<AllocError> for Error {
    ghost from_gives = { λ _ error. error ≡ OutOfMemory };

    fn from(_e: AllocError) -> Error {
        Error::OutOfMemory
    }
}
