//! An organisation's own metrics, which its overrides set.

ghost use Rattle.std.specs.Option.{option_or};
ghost use Rattle.std.specs.Prelude.{◌≡◌, ◌++◌, ◌∷◌, ◌↔◌, [], All, IfSome, IsTrue, List, MatchOption};
ghost use Rattle.cvss_base.specs.Version.{IsComplete};
ghost use Rattle.cvss_vector.specs.Answers.{HasScore};
ghost use Rattle.cvss_base.specs.declared.v3.MetricType.{MetricType as V3Type};
ghost use Rattle.cvss_vector.specs.v3.Vector.{v3 as version_v3};
ghost use Rattle.cvss_base.specs.declared.v4.MetricType.{MetricType as V4Type};
ghost use Rattle.cvss_vector.specs.v4.Vector.{v4 as version_v4};
ghost use Rattle.cvss_triage.specs.Overrides.{AreOwn, Gives, HasOwn, HoldsForSome, HoldsIn, IsFor, IsWithOwn};
ghost use Rattle.cvss_triage.specs.declared.overrides.Family.{Family};
ghost use Rattle.cvss_triage.specs.declared.overrides.Family.TheVariants.{V3, V4};
ghost use Rattle.cvss_triage.specs.declared.overrides.Override.{Override};
ghost use Rattle.cvss_triage.specs.private.Steps.{AreOwnMetrics, own_value};

use crate::overrides::{Family, Override};
use crate::{v2, v3};
use cvss_text::print::Printed;
use cvss_text::setting::{completed, read_given};
use cvss_text::texts::components_of;
use cvss_vector::{Cvss, Versioned, v4};

/// For each family of versions the metrics that overrides set, as a vector that has no others; `None`
/// where no override holds for the family.
#[derive(Clone, Copy)]
pub(crate) struct OwnMetrics {
    pub(crate) v2: Option<v2::Vector>,
    pub(crate) v3: Option<v3::Vector>,
    pub(crate) v4: Option<v4::Vector>,
}

impl OwnMetrics {
    /// Those that no override sets.
    #[tactic(auto, using(crate::proofs::OwnLemmas::own_none))]
    pub(crate) fn none() -> OwnMetrics
        ensures { AreOwnMetrics [] result }
    {
        OwnMetrics {
            v2: None,
            v3: None,
            v4: None,
        }
    }

    /// Those that overrides set, if each holds for some family.
    #[tactic(auto, using(crate::proofs::OwnLemmas::own_more, crate::proofs::OwnLemmas::some_not))]
    pub(crate) fn of(overrides: &[Override<'_>]) -> Option<OwnMetrics>
        ensures { MatchOption result (¬ (All HoldsForSome overrides.now))
            (λ own. All HoldsForSome overrides.now × AreOwnMetrics overrides.now own) }
    {
        let mut own = OwnMetrics::none();
        for it in overrides {
            if !own.set(*it) {
                return None;
            }
        }
        Some(own)
    }

    /// Sets the metrics of an override after those of others, in each family for which it holds. Says
    /// whether it holds for some.
    pub(crate) fn set(&mut self, it: Override<'_>) -> bool
        ensures holds { IsTrue result ↔ HoldsForSome it.entry }
        ensures set { (before : List Override) → AreOwnMetrics before self.old
            → AreOwnMetrics (before ++ it.entry ∷ []) self.new }
    {
        let in_v2 = set_in(&mut self.v2, Family::V2, it);
        let in_v3 = set_in(&mut self.v3, Family::V3, it);
        let in_v4 = set_in(&mut self.v4, Family::V4, it);
        in_v2 || in_v3 || in_v4
    }

    /// The vector with own metrics.
    #[tactic(auto, using(crate::proofs::OwnLemmas::in_any))]
    pub(crate) fn in_vector(&self, cvss: Cvss) -> Cvss
        ensures own { (overrides : List Override) → AreOwnMetrics overrides self.now
            → IsWithOwn overrides cvss result }
        ensures scored { HasScore cvss → HasScore result }
    {
        match cvss {
            Cvss::CvssV20(vector) => Cvss::CvssV20(with_own(self.v2, vector)),
            Cvss::CvssV30(vector) => Cvss::CvssV30(self.in_v3(vector)),
            Cvss::CvssV31(vector) => Cvss::CvssV31(self.in_v3(vector)),
            Cvss::CvssV40(vector) => Cvss::CvssV40(self.in_v4(vector)),
        }
    }

    #[tactic(auto, using(crate::proofs::OwnLemmas::own_same))]
    fn in_v3(&self, vector: v3::Vector) -> v3::Vector
        ensures { (overrides : List Override)
            → AreOwn version_v3 V3 overrides (own_value version_v3 self.now.v3)
            → HasOwn version_v3 V3 overrides vector result }
    {
        with_own(of_minor_v3(self.v3, vector.minor_version), vector)
    }

    #[tactic(auto, using(crate::proofs::OwnLemmas::own_same))]
    fn in_v4(&self, vector: v4::Vector) -> v4::Vector
        ensures own { (overrides : List Override)
            → AreOwn version_v4 V4 overrides (own_value version_v4 self.now.v4)
            → HasOwn version_v4 V4 overrides vector result }
        ensures complete { IsComplete version_v4 vector → IsComplete version_v4 result }
    {
        with_own(of_minor_v4(self.v4, vector.minor_version), vector)
    }
}

/// Sets the metrics of an override in those of a family, if it holds for the family, and says so.
#[tactic(auto, using(crate::proofs::OwnLemmas::holds_by))]
fn set_in<V: Versioned>(own: &mut Option<V>, family: Family, it: Override<'_>) -> bool
    ensures holds { IsTrue result ↔ HoldsIn V.version family it.entry }
    ensures set { (before : List Override) → AreOwn V.version family before (own_value V.version own.old)
        → AreOwn V.version family (before ++ it.entry ∷ []) (own_value V.version own.new) }
{
    let Some(given) = given_in::<V>(family, it) else {
        return false;
    };
    *own = Some(after(given, *own));
    true
}

/// The metrics that an override gives the vectors of a family, if it holds for it.
#[tactic(auto, using(crate::proofs::OwnLemmas::gives_by))]
fn given_in<V: Versioned>(family: Family, it: Override<'_>) -> Option<V>
    ensures { MatchOption result (¬ (HoldsIn V.version family it.entry))
        (Gives V.version family it.entry) }
{
    if !is_for(it.family, family) {
        return None;
    }
    match read_given(components_of(it.metrics), V::without_metrics(0)) {
        Ok(given) => Some(given),
        Err(_) => None,
    }
}

/// The given metrics, and those before where none is given.
fn after<V: Printed>(given: V, before: Option<V>) -> V
    ensures { (kind : V.Kind) → V.version.value_of result kind
        ≡ option_or (V.version.value_of given kind) (own_value V.version before kind) }
{
    match before {
        Some(before) => completed(given, &before, None),
        None => given,
    }
}

/// The vector with own metrics, if there are some.
#[tactic(auto, using(crate::proofs::OwnLemmas::complete_with))]
fn with_own<V: Printed>(own: Option<V>, vector: V) -> V
    requires { IfSome own (λ own. V.version.front own ≡ V.version.front vector) }
    ensures own { (family : Family) (overrides : List Override)
        → AreOwn V.version family overrides (own_value V.version own)
        → HasOwn V.version family overrides vector result }
    ensures complete { IsComplete V.version vector → IsComplete V.version result }
{
    match own {
        Some(own) => completed(own, &vector, None),
        None => vector,
    }
}

/// Own metrics as those of a minor version.
fn of_minor_v3(own: Option<v3::Vector>, minor_version: usize) -> Option<v3::Vector>
    ensures minor { IfSome result (λ own. own.minor_version ≡ minor_version) }
    ensures values { (kind : V3Type) → own_value version_v3 result kind ≡ own_value version_v3 own kind }
{
    let mut own = own?;
    own.minor_version = minor_version;
    Some(own)
}

#[tactic(auto, using(crate::proofs::OwnLemmas::minor_v4))]
fn of_minor_v4(own: Option<v4::Vector>, minor_version: usize) -> Option<v4::Vector>
    ensures minor { IfSome result (λ own. own.minor_version ≡ minor_version) }
    ensures values { (kind : V4Type) → own_value version_v4 result kind ≡ own_value version_v4 own kind }
{
    let mut own = own?;
    own.minor_version = minor_version;
    Some(own)
}

/// Whether metrics for a family, or for all versions, may be set in the vectors of a family.
fn is_for(own: Option<Family>, family: Family) -> bool
    ensures { IsTrue result ↔ IsFor own family }
{
    match own {
        None => true,
        Some(own) => own == family,
    }
}
