//! A vector of CVSS v4.0.

ghost use Rattle.std.specs.Prelude.{◌≡◌, ◌↔◌, IsTrue, IfSome, IsSome, IfOk, IfErr, IsErrAnd, Some, Ok};

mod cutting;
mod groups;
mod merging;
mod overriding;
mod printing;
mod reading;
mod scores;

use crate::rejecting::vector_after;
use crate::v4::laws::vectors_are_their_values;
use cvss_base::Error;
use cvss_metric::v4::table;
use cvss_text::front::read_after;
use cvss_text::walk::Components;
pub use overriding::OverrideError;
pub use printing::Metrics;
use std::alloc::Global;

/// A vector of CVSS v4.0 (v4.0 specification, section 7): at most one value for each metric, by its place
/// among those of the metric.
///
/// A vector that was read from a text has minor version 0 and all eleven base metrics.
#[derive(Clone, Copy, Default, PartialEq, Eq)]
pub struct Vector {
    pub minor_version: usize,
    av: Option<table::AV>,
    ac: Option<table::AC>,
    at: Option<table::AT>,
    pr: Option<table::PR>,
    ui: Option<table::UI>,
    vc: Option<table::VC>,
    vi: Option<table::VI>,
    va: Option<table::VA>,
    sc: Option<table::SC>,
    si: Option<table::SI>,
    sa: Option<table::SA>,
    e: Option<table::E>,
    cr: Option<table::CR>,
    ir: Option<table::IR>,
    ar: Option<table::AR>,
    mav: Option<table::MAV>,
    mac: Option<table::MAC>,
    mat: Option<table::MAT>,
    mpr: Option<table::MPR>,
    mui: Option<table::MUI>,
    mvc: Option<table::MVC>,
    mvi: Option<table::MVI>,
    mva: Option<table::MVA>,
    msc: Option<table::MSC>,
    msi: Option<table::MSI>,
    msa: Option<table::MSA>,
    s: Option<table::S>,
    au: Option<table::AU>,
    r: Option<table::R>,
    v: Option<table::V>,
    re: Option<table::RE>,
    u: Option<table::U>,
}

/// Calls a macro with what is given for it and, of each metric in printing order, the abbreviation,
/// the field and the enum of its values, by its path in `cvss::v4::metric`.
#[macro_export]
macro_rules! each_v4_metric {
    ($with:ident!($($given:tt)*)) => {
        $with! {
            ($($given)*)
            AV av base::AttackVector,
            AC ac base::AttackComplexity,
            AT at base::AttackRequirements,
            PR pr base::PrivilegesRequired,
            UI ui base::UserInteraction,
            VC vc base::ConfidentialityImpactToTheVulnerableSystem,
            VI vi base::IntegrityImpactToTheVulnerableSystem,
            VA va base::AvailabilityImpactToTheVulnerableSystem,
            SC sc base::ConfidentialityImpactToTheSubsequentSystem,
            SI si base::IntegrityImpactToTheSubsequentSystem,
            SA sa base::AvailabilityImpactToTheSubsequentSystem,
            E e threat::ExploitMaturity,
            CR cr environmental::ConfidentialityRequirements,
            IR ir environmental::IntegrityRequirements,
            AR ar environmental::AvailabilityRequirements,
            MAV mav environmental::ModifiedAttackVector,
            MAC mac environmental::ModifiedAttackComplexity,
            MAT mat environmental::ModifiedAttackRequirements,
            MPR mpr environmental::ModifiedPrivilegesRequired,
            MUI mui environmental::ModifiedUserInteraction,
            MVC mvc environmental::ModifiedConfidentialityImpactToTheVulnerableSystem,
            MVI mvi environmental::ModifiedIntegrityImpactToTheVulnerableSystem,
            MVA mva environmental::ModifiedAvailabilityImpactToTheVulnerableSystem,
            MSC msc environmental::ModifiedConfidentialityImpactToTheSubsequentSystem,
            MSI msi environmental::ModifiedIntegrityImpactToTheSubsequentSystem,
            MSA msa environmental::ModifiedAvailabilityImpactToTheSubsequentSystem,
            S s supplemental::Safety,
            AU au supplemental::Automatable,
            R r supplemental::Recovery,
            V v supplemental::ValueDensity,
            RE re supplemental::VulnerabilityResponseEffort,
            U u supplemental::ProviderUrgency,
        }
    };
}

impl Vector {
    ghost use Rattle.std.specs.Str.{IsUtf8};
    ghost use Rattle.cvss_base.specs.Rejection.{Rejection, IsFirstRejectionAfter};
    ghost use Rattle.cvss_base.specs.Reported.{Reports, ReportsFirst};
    ghost use Rattle.cvss_base.specs.V4Types.{v4_reason};
    ghost use Rattle.cvss_base.specs.Version.{canonical_text, Denotes, IsComplete, IsWellFormed};
    ghost use Rattle.cvss_base.specs.declared.v4.MetricType.{MetricType};
    ghost use Rattle.cvss_vector.specs.v4.Vector.{v4};

    /// The vector that a text denotes: `CVSS:4.0` and then, each after a slash, its components,
    /// each once, with all base metrics among them (v4.0 specification, section 7), in any order,
    /// where the specification demands one, and in any ASCII case. Accepting takes no memory.
    ///
    /// # Errors
    ///
    /// The first reason why the text is no such vector: `InvalidComponent`, `InvalidPrefix`,
    /// `UnsupportedVersion`, `UnknownMetric`, `InvalidMetricV4`, `DuplicateMetricV4` or
    /// `MissingMandatoryMetricV4`; `OutOfMemory` in place of one that carries text. Names and values
    /// are shown in upper case.
    pub fn from_str(alloc: Global, text: &str) -> Result<Vector, Error>
        // Accepted: what is given is what the text denotes, and each such vector is given.
        ensures denoted { IfOk result (λ vector. Denotes v4 text.now vector) }
        ensures well_formed { IfOk result (λ vector. IsWellFormed v4 vector) }
        ensures accepts { (vector : Vector) → Denotes v4 text.now vector
            → IsWellFormed v4 vector → result ≡ Ok vector }
        // Rejected: for the first reason, and wherever there is one. Memory is the answer only where
        // the reason carries text.
        ensures rejected { IfErr result (ReportsFirst v4_reason (IsFirstRejectionAfter v4 text.now)) }
        ensures rejects { (reason : Rejection MetricType) → IsFirstRejectionAfter v4 text.now reason
            → IsErrAnd result (Reports v4_reason reason) }
    {
        vector_after(alloc, text)
    }

    /// The vector that a text denotes, if there is one. It takes no memory.
    pub fn read_bytes(text: &[u8]) -> Option<Vector>
        ensures denoted { IfSome result (λ vector. Denotes v4 text.now vector) }
        ensures well_formed { IfSome result (λ vector. IsWellFormed v4 vector) }
        ensures accepts { (vector : Vector) → Denotes v4 text.now vector
            → IsWellFormed v4 vector → result ≡ Some vector }
        ensures utf8 { IsSome result → IsUtf8 text.now }
    {
        read_after(text).ok()
    }

    /// Whether the vector has all base metrics, as each vector has that was read from a text.
    pub fn is_complete(&self) -> bool
        ensures { IsTrue result ↔ IsComplete v4 self.now }
    {
        self.first_missing().is_none()
    }

    /// Whether two vectors have one canonical text, which is whether they are equal.
    pub fn same_text(&self, other: &Vector) -> bool
        ensures vectors { IsTrue result ↔ (self.now ≡ other.now) }
        ensures texts { IsTrue result
            ↔ (canonical_text v4 self.now ≡ canonical_text v4 other.now) }
    {
        vectors_are_their_values();
        self == other
    }
}
