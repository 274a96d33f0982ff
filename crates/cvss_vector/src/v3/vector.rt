//! A vector of CVSS v3.0 or v3.1.

ghost use Rattle.std.specs.Prelude.{◌≡◌, ◌↔◌, IsTrue, IfSome, IsSome, IfOk, IfErr, IsErrAnd, Some, Ok};

mod cutting;
mod printing;
mod reading;
mod scores;
mod weighing;

use crate::rejecting::vector_after;
use crate::v3::laws::vectors_are_their_values;
use cvss_base::Error;
use cvss_metric::v3::base::{
    AttackComplexity, AttackVector, Availability, Confidentiality, Integrity, PrivilegesRequired,
    Scope, UserInteraction,
};
use cvss_metric::v3::environmental::{
    AvailabilityRequirement, ConfidentialityRequirement, IntegrityRequirement, Modified,
    ModifiedScope,
};
use cvss_metric::v3::temporal::{ExploitCodeMaturity, RemediationLevel, ReportConfidence};
use cvss_text::front::read_after;
pub use printing::Metrics;
use std::alloc::Global;

/// A vector of CVSS v3.0 or v3.1 (v3.1 specification, section 6): at most one value for each metric.
///
/// No metric is mandatory. A vector that was read from a text has minor version 0 or 1.
#[derive(Clone, Copy, Debug, Default, PartialEq, Eq)]
pub struct Vector {
    pub minor_version: usize,
    pub av: Option<AttackVector>,
    pub ac: Option<AttackComplexity>,
    pub pr: Option<PrivilegesRequired>,
    pub ui: Option<UserInteraction>,
    pub s: Option<Scope>,
    pub c: Option<Confidentiality>,
    pub i: Option<Integrity>,
    pub a: Option<Availability>,
    pub e: Option<ExploitCodeMaturity>,
    pub rl: Option<RemediationLevel>,
    pub rc: Option<ReportConfidence>,
    pub mav: Option<Modified<AttackVector>>,
    pub cr: Option<ConfidentialityRequirement>,
    pub ir: Option<IntegrityRequirement>,
    pub ar: Option<AvailabilityRequirement>,
    pub mac: Option<Modified<AttackComplexity>>,
    pub mpr: Option<Modified<PrivilegesRequired>>,
    pub mui: Option<Modified<UserInteraction>>,
    pub ms: Option<ModifiedScope>,
    pub mc: Option<Modified<Confidentiality>>,
    pub mi: Option<Modified<Integrity>>,
    pub ma: Option<Modified<Availability>>,
}

/// Calls a macro with what is given for it and, of each metric in printing order, the abbreviation,
/// the field and the type of its values.
#[macro_export]
macro_rules! each_v3_metric {
    ($with:ident!($($given:tt)*)) => {
        $with! {
            ($($given)*)
            AV av AttackVector,
            AC ac AttackComplexity,
            PR pr PrivilegesRequired,
            UI ui UserInteraction,
            S s Scope,
            C c Confidentiality,
            I i Integrity,
            A a Availability,
            E e ExploitCodeMaturity,
            RL rl RemediationLevel,
            RC rc ReportConfidence,
            CR cr ConfidentialityRequirement,
            IR ir IntegrityRequirement,
            AR ar AvailabilityRequirement,
            MAV mav Modified<AttackVector>,
            MAC mac Modified<AttackComplexity>,
            MPR mpr Modified<PrivilegesRequired>,
            MUI mui Modified<UserInteraction>,
            MS ms ModifiedScope,
            MC mc Modified<Confidentiality>,
            MI mi Modified<Integrity>,
            MA ma Modified<Availability>,
        }
    };
}

impl Vector {
    ghost use Rattle.std.specs.Str.{IsUtf8};
    ghost use Rattle.cvss_base.specs.Rejection.{Rejection, IsFirstRejectionAfter};
    ghost use Rattle.cvss_base.specs.Reported.{Reports, ReportsFirst};
    ghost use Rattle.cvss_base.specs.V3Types.{v3_reason};
    ghost use Rattle.cvss_base.specs.Version.{canonical_text, Denotes, IsWellFormed};
    ghost use Rattle.cvss_base.specs.declared.v3.MetricType.{MetricType};
    ghost use Rattle.cvss_vector.specs.v3.Vector.{v3};

    /// The vector that a text denotes: `CVSS:3.0` or `CVSS:3.1` and then, each after a slash, its
    /// components in any order, each once (v3.1 specification, section 6), and in any ASCII case.
    /// No metric has to be there, though the specification demands the base metrics. Accepting
    /// takes no memory.
    ///
    /// # Errors
    ///
    /// The first reason why the text is no such vector: `InvalidComponent`, `InvalidPrefix`,
    /// `UnsupportedVersion`, `UnknownMetric`, `InvalidMetricV3` or `DuplicateMetricV3`; `OutOfMemory`
    /// in place of one that carries text. Names and values are shown in upper case, and a bad value
    /// of a modified metric is reported of its base metric.
    pub fn from_str(alloc: Global, text: &str) -> Result<Vector, Error>
        // Accepted: what is given is what the text denotes, and each such vector is given.
        ensures denoted { IfOk result (λ vector. Denotes v3 text.now vector) }
        ensures well_formed { IfOk result (λ vector. IsWellFormed v3 vector) }
        ensures accepts { (vector : Vector) → Denotes v3 text.now vector
            → IsWellFormed v3 vector → result ≡ Ok vector }
        // Rejected: for the first reason, and wherever there is one. Memory is the answer only where
        // the reason carries text.
        ensures rejected { IfErr result (ReportsFirst v3_reason (IsFirstRejectionAfter v3 text.now)) }
        ensures rejects { (reason : Rejection MetricType) → IsFirstRejectionAfter v3 text.now reason
            → IsErrAnd result (Reports v3_reason reason) }
    {
        vector_after(alloc, text)
    }

    /// The vector that a text denotes, if there is one. It takes no memory.
    pub fn read_bytes(text: &[u8]) -> Option<Vector>
        ensures denoted { IfSome result (λ vector. Denotes v3 text.now vector) }
        ensures well_formed { IfSome result (λ vector. IsWellFormed v3 vector) }
        ensures accepts { (vector : Vector) → Denotes v3 text.now vector
            → IsWellFormed v3 vector → result ≡ Some vector }
        ensures utf8 { IsSome result → IsUtf8 text.now }
    {
        read_after(text).ok()
    }

    /// Whether two vectors have one canonical text, which is whether they are equal.
    pub fn same_text(&self, other: &Vector) -> bool
        ensures vectors { IsTrue result ↔ (self.now ≡ other.now) }
        ensures texts { IsTrue result
            ↔ (canonical_text v3 self.now ≡ canonical_text v3 other.now) }
    {
        vectors_are_their_values();
        self == other
    }
}
