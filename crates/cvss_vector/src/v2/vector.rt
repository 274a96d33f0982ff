//! A vector of CVSS v2.

ghost use Rattle.std.specs.Prelude.{◌≡◌, ◌↔◌, IsTrue, IfSome, IsSome, IfOk, IfErr, IsErrAnd, Some, Ok};

mod cutting;
mod in_order;
mod printing;
mod reading;
mod scores;
mod weighing;

use crate::rejecting::error_of_version;
use crate::v2::laws::vectors_are_their_values;
use cvss_base::Error;
use cvss_metric::v2::base::{
    AccessComplexity, AccessVector, Authentication, AvailabilityImpact, ConfidentialityImpact,
    IntegrityImpact,
};
use cvss_metric::v2::environmental::{
    AvailabilityRequirement, CollateralDamagePotential, ConfidentialityRequirement,
    IntegrityRequirement, TargetDistribution,
};
use cvss_metric::v2::temporal::{Exploitability, RemediationLevel, ReportConfidence};
use cvss_text::walk::read_vector;
pub use printing::Metrics;
use std::alloc::Global;

/// A vector of CVSS v2 (guide, section 2.4): at most one value for each metric.
///
/// A vector that was read from a text has all six base metrics.
#[derive(Clone, Copy, Debug, Default, PartialEq, Eq)]
pub struct Vector {
    pub av: Option<AccessVector>,
    pub ac: Option<AccessComplexity>,
    pub au: Option<Authentication>,
    pub c: Option<ConfidentialityImpact>,
    pub i: Option<IntegrityImpact>,
    pub a: Option<AvailabilityImpact>,
    pub e: Option<Exploitability>,
    pub rl: Option<RemediationLevel>,
    pub rc: Option<ReportConfidence>,
    pub cdp: Option<CollateralDamagePotential>,
    pub td: Option<TargetDistribution>,
    pub cr: Option<ConfidentialityRequirement>,
    pub ir: Option<IntegrityRequirement>,
    pub ar: Option<AvailabilityRequirement>,
}

/// Calls a macro with what is given for it and, of each metric in printing order, the abbreviation,
/// the field and the type of its values.
#[macro_export]
macro_rules! each_v2_metric {
    ($with:ident!($($given:tt)*)) => {
        $with! {
            ($($given)*)
            AV av AccessVector,
            AC ac AccessComplexity,
            Au au Authentication,
            C c ConfidentialityImpact,
            I i IntegrityImpact,
            A a AvailabilityImpact,
            E e Exploitability,
            RL rl RemediationLevel,
            RC rc ReportConfidence,
            CDP cdp CollateralDamagePotential,
            TD td TargetDistribution,
            CR cr ConfidentialityRequirement,
            IR ir IntegrityRequirement,
            AR ar AvailabilityRequirement,
        }
    };
}

impl Vector {
    ghost use Rattle.std.specs.Str.{IsUtf8};
    ghost use Rattle.cvss_base.specs.Rejection.{Rejection, IsFirstRejection};
    ghost use Rattle.cvss_base.specs.Reported.{Reports, ReportsFirst};
    ghost use Rattle.cvss_base.specs.V2Types.{v2_reason};
    ghost use Rattle.cvss_base.specs.Version.{canonical_text, Denotes, IsComplete};
    ghost use Rattle.cvss_text.specs.private.Walk.{IsEmpty};
    ghost use Rattle.cvss_base.specs.declared.v2.MetricType.{MetricType};
    ghost use Rattle.cvss_vector.specs.v2.Vector.{v2};

    /// The vector that a text denotes: its components in any order, each once, with slashes between
    /// them (guide, section 2.4). Accepting takes no memory.
    ///
    /// # Errors
    ///
    /// The first reason why the text is no vector with all base metrics: `InvalidComponent`,
    /// `UnknownMetric`, `InvalidMetricV2`, `DuplicateMetricV2` or `MissingMandatoryMetricV2`;
    /// `OutOfMemory` in place of one that carries text.
    pub fn from_str(alloc: Global, text: &str) -> Result<Vector, Error>
        // Accepted: what is given is what the text denotes, and each such vector is given.
        ensures denoted { IfOk result (λ vector. Denotes v2 text.now vector) }
        ensures complete { IfOk result (λ vector. IsComplete v2 vector) }
        ensures accepts { (vector : Vector) → Denotes v2 text.now vector
            → IsComplete v2 vector → result ≡ Ok vector }
        // Rejected: for the first reason, and wherever there is one. Memory is the answer only where
        // the reason carries text.
        ensures rejected { IfErr result (ReportsFirst v2_reason (IsFirstRejection v2 text.now)) }
        ensures rejects { (reason : Rejection MetricType) → IsFirstRejection v2 text.now reason
            → IsErrAnd result (Reports v2_reason reason) }
    {
        match read_vector(text.as_bytes(), Vector::empty()) {
            Ok(vector) => Ok(vector),
            Err(fault) => Err(error_of_version::<Vector>(alloc, fault)),
        }
    }

    /// The vector that a text denotes, if there is one. It takes no memory.
    pub fn read_bytes(text: &[u8]) -> Option<Vector>
        ensures denoted { IfSome result (λ vector. Denotes v2 text.now vector) }
        ensures complete { IfSome result (λ vector. IsComplete v2 vector) }
        ensures accepts { (vector : Vector) → Denotes v2 text.now vector
            → IsComplete v2 vector → result ≡ Some vector }
        ensures utf8 { IsSome result → IsUtf8 text.now }
    {
        read_vector(text, Vector::empty()).ok()
    }

    /// The vector without metrics.
    fn empty() -> Vector
        ensures { IsEmpty v2 result }
    {
        vectors_are_their_values();
        Vector::default()
    }

    /// Whether two vectors have one canonical text, which is whether they are equal.
    pub fn same_text(&self, other: &Vector) -> bool
        ensures vectors { IsTrue result ↔ (self.now ≡ other.now) }
        ensures texts { IsTrue result
            ↔ (canonical_text v2 self.now ≡ canonical_text v2 other.now) }
    {
        vectors_are_their_values();
        self == other
    }
}
