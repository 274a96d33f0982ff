//! An organisation's own environmental metrics, as they are given (v4.0 specification, section 4).

ghost use Rattle.std.specs.Prelude.{◌≡◌, Some, IfOk, IfErr, OnOk, IsOk, IsErrAnd, Ok, ℕ, length, map};
ghost use Rattle.cvss_vector.specs.v4.Overriding.{AreOverrides, Objection, HasNoObjectionBefore, IsFirstObjection, ReportsObjection, ReportsFirstObjection, override_error_text};
ghost use Rattle.cvss_vector.specs.v4.private.OverridingSteps.{IsPrintableFault, objection_of};

use crate::rejecting::error_of_version;
use crate::v4::overrides::{OverrideFault, read_overrides};
use crate::v4::vector::Vector;
use cvss_base::Error;
use std::alloc::Global;
use std::fmt;

/// Why texts are not environmental metrics. Places are counted from 0.
#[derive(Clone, Debug, Drop, PartialEq, Eq)]
pub enum OverrideError {
    /// The metric at this place is of another group.
    NotEnvironmental { index: usize },
    /// The text at this place is rejected as a component of a vector is.
    Rejected { index: usize, error: Error },
}

impl fmt::Display for OverrideError {
    ghost output = { λ error. Some (override_error_text error) };

    fn fmt<W: fmt::Write>(&self, f: &mut fmt::Formatter<W>) -> fmt::Result {
        match self {
            OverrideError::NotEnvironmental { index } => {
                write!(f, "override {index}: no environmental CVSSv4 metric")
            }
            OverrideError::Rejected { index, error } => write!(f, "override {index}: {error}"),
        }
    }
}

impl std::error::Error for OverrideError {}

impl Vector {
    /// The vector of environmental metrics whose components the texts are, in any order and any
    /// ASCII case, each once. Accepting takes no memory.
    ///
    /// # Errors
    ///
    /// The first text that is none, and why: `InvalidComponent` (shown as it was given),
    /// `UnknownMetric`, a metric of another group, `InvalidMetricV4` or `DuplicateMetricV4`;
    /// `OutOfMemory` in place of one that carries text.
    pub fn from_overrides(alloc: Global, overrides: &[&str]) -> Result<Vector, OverrideError>
        // Accepted: the texts are the components of what is given, which has minor version 0, and
        // all such texts are accepted.
        ensures accepted { IfOk result (AreOverrides (map (λ text. text.now) overrides.now)) }
        ensures version { IfOk result (λ vector. vector.minor_version ≡ 0) }
        ensures accepts { (vector : Vector)
            → AreOverrides (map (λ text. text.now) overrides.now) vector → IsOk result }
        ensures given { (vector : Vector)
            → AreOverrides (map (λ text. text.now) overrides.now) vector
            → vector.minor_version ≡ 0 → result ≡ Ok vector }
        ensures faultless { OnOk result
            (HasNoObjectionBefore (map (λ text. text.now) overrides.now)
            (length (map (λ text. text.now) overrides.now))) }
        // Rejected: the first text with which something is wrong, and wherever there is one.
        ensures rejected { IfErr result
            (ReportsFirstObjection (map (λ text. text.now) overrides.now)) }
        ensures rejects { (place : ℕ) (objection : Objection)
            → IsFirstObjection (map (λ text. text.now) overrides.now) place objection
            → IsErrAnd result (ReportsObjection place objection) }
    {
        match read_overrides(overrides) {
            Ok(vector) => Ok(vector),
            Err((index, fault)) => Err(reported(alloc, index, fault)),
        }
    }
}

/// The error that says the fault of the text at this place.
fn reported(alloc: Global, index: usize, fault: OverrideFault<'_>) -> OverrideError
    requires { IsPrintableFault fault }
    ensures { ReportsObjection index (objection_of fault.entry) result }
{
    match fault {
        OverrideFault::OtherGroup => OverrideError::NotEnvironmental { index },
        OverrideFault::Component(fault) => OverrideError::Rejected {
            index,
            error: error_of_version::<Vector>(alloc, fault),
        },
    }
}
