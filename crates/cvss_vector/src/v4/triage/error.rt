//! Why texts get no rows.

ghost use Rattle.std.specs.Prelude.{◌≡◌, ℕ, Some};
ghost use Rattle.cvss_vector.specs.v4.Overriding.{Objection, ReportsObjection};
ghost use Rattle.cvss_base.specs.Rejection.{Rejection};
ghost use Rattle.cvss_base.specs.Reported.{Reports};
ghost use Rattle.cvss_base.specs.V4Types.{v4_reason};
ghost use Rattle.cvss_base.specs.declared.v4.MetricType.{MetricType};
ghost use Rattle.cvss_vector.specs.v4.TriageFaults.{InOverride, InText, ReportsFault, triage_error_text};
ghost use Rattle.cvss_vector.specs.declared.v4.triage.error.TriageError.TheVariants.{OutOfMemory};

use crate::v4::OverrideError;
use cvss_base::Error;
use std::alloc::{AllocError, AllocFailed};
use std::fmt;

/// Why texts get no rows. Places are counted from 0.
#[derive(Clone, Debug, Drop, PartialEq, Eq)]
pub enum TriageError {
    /// The override at this place is rejected as a component of a vector is.
    Override { index: usize, error: Error },
    /// The override at this place is a metric that is not environmental.
    NotEnvironmental { index: usize },
    /// The text at this place is no vector.
    Text { index: usize, error: Error },
    /// There was no memory for the rows, or for the text of a rejection.
    OutOfMemory,
}

impl TriageError {
    /// The error that the text at this place is rejected.
    pub(crate) fn of_text(index: usize, error: Error) -> TriageError
        ensures { (reason : Rejection MetricType) → Reports v4_reason reason error
            → ReportsFault (InText index reason) result }
    {
        match error {
            Error::OutOfMemory => TriageError::OutOfMemory,
            error => TriageError::Text { index, error },
        }
    }
}

impl From<OverrideError> for TriageError {
    ghost from_gives = { λ rejected reported. (place : ℕ) (objection : Objection)
        → ReportsObjection place objection rejected → ReportsFault (InOverride place objection) reported };

    fn from(rejected: OverrideError) -> Self {
        match rejected {
            OverrideError::NotEnvironmental { index } => TriageError::NotEnvironmental { index },
            OverrideError::Rejected {
                error: Error::OutOfMemory,
                ..
            } => TriageError::OutOfMemory,
            OverrideError::Rejected { index, error } => TriageError::Override { index, error },
        }
    }
}

impl From<AllocError> for TriageError {
    ghost from_gives = { λ _ reported. reported ≡ OutOfMemory };

    fn from(_: AllocError) -> Self {
        TriageError::OutOfMemory
    }
}

impl<T: Drop> From<AllocFailed<T>> for TriageError {
    ghost from_gives = { λ _ reported. reported ≡ OutOfMemory };

    fn from(_: AllocFailed<T>) -> Self {
        TriageError::OutOfMemory
    }
}

impl fmt::Display for TriageError {
    ghost output = { λ error. Some (triage_error_text error) };

    fn fmt<W: fmt::Write>(&self, f: &mut fmt::Formatter<W>) -> fmt::Result {
        match self {
            TriageError::Override { index, error } => write!(f, "override {index}: {error}"),
            TriageError::NotEnvironmental { index } => {
                write!(f, "override {index}: no environmental CVSSv4 metric")
            }
            TriageError::Text { index, error } => write!(f, "text {index}: {error}"),
            TriageError::OutOfMemory => f.write_str("out of memory"),
        }
    }
}

impl std::error::Error for TriageError {}
