//! The effective values of a vector (v4.0 specification, sections 3.1, 4.1, 4.2 and 8.2).

ghost use Rattle.std.specs.Prelude.{◌≡◌};
ghost use Rattle.cvss_base.specs.declared.v4.MetricType.TheVariants as metric;
ghost use Rattle.cvss_score.specs.v4.Effective.{meaning, attack_vectors, privileges, user_interactions, attack_complexities, all_attack_requirements, vulnerable_impacts, subsequent_impacts, safety_impacts, requirements, exploit_maturities};
ghost use Rattle.cvss_metric.specs.v4.Places.{three_rank, four_rank, five_rank};
ghost use Rattle.cvss_vector.specs.v4.Merging.{effective_of, letter_at, letter_by, merged, replaced};

use crate::v4::vector::Vector;
use cvss_metric::v4::place::{OneOfFive, OneOfFour, OneOfThree, OneOfTwo};
use cvss_score::v4::scoring::effective::{
    AttackComplexity, AttackRequirements, AttackVector, Effective, ExploitMaturity,
    PrivilegesRequired, Requirement, SafetyImpact, SubsequentImpact, UserInteraction,
    VulnerableImpact,
};

/// The effective value of a metric that is not modified, by its place: the first that is listed, also
/// where the metric is absent.
macro_rules! by_place {
    ($value:expr, $places:ident,
     $effective:ident[$($usual_place:ident)|+ $usual:ident, $($place:ident $name:ident),*]) => {
        match $value {
            None $(| Some($places::$usual_place))+ => $effective::$usual,
            $(Some($places::$place) => $effective::$name,)*
        }
    };
}

/// The effective value of a metric: that of the modified metric, by its place, or another one where this
/// is absent or not defined.
macro_rules! merged {
    ($modified:expr, $places:ident[$undefined:ident], $effective:ident[$($place:ident $name:ident),*],
     $base:expr) => {{
        let unmodified = $base;
        match $modified {
            None | Some($places::$undefined) => unmodified,
            $(Some($places::$place) => $effective::$name,)*
        }
    }};
}

impl Vector {
    /// The effective values: a modified metric that is defined replaces its base metric, and what is
    /// not defined counts as its default.
    #[inline(always)]
    pub(super) fn effective(&self) -> Effective
        ensures { result ≡ effective_of self.now }
    {
        Effective {
            av: self.effective_av(),
            pr: self.effective_pr(),
            ui: self.effective_ui(),
            ac: self.effective_ac(),
            at: self.effective_at(),
            vc: vulnerable_impact(self.mvc, self.vc),
            vi: vulnerable_impact(self.mvi, self.vi),
            va: vulnerable_impact(self.mva, self.va),
            sc: self.effective_sc(),
            si: safety_impact(self.msi, self.si),
            sa: safety_impact(self.msa, self.sa),
            cr: requirement(self.cr),
            ir: requirement(self.ir),
            ar: requirement(self.ar),
            e: self.effective_e(),
        }
    }

    fn effective_av(&self) -> AttackVector
        ensures { result ≡ meaning attack_vectors (merged self.now metric.MAV metric.AV) }
    {
        merged!(self.mav, OneOfFive[Fifth], AttackVector[First Physical, Second Local, Third Adjacent, Fourth Network],
            by_place!(self.av, OneOfFour, AttackVector[Fourth Network, First Physical, Second Local, Third Adjacent]))
    }

    fn effective_ac(&self) -> AttackComplexity
        ensures { result ≡ meaning attack_complexities (merged self.now metric.MAC metric.AC) }
    {
        merged!(self.mac, OneOfThree[First], AttackComplexity[Second High, Third Low],
            by_place!(self.ac, OneOfTwo, AttackComplexity[Second Low, First High]))
    }

    fn effective_at(&self) -> AttackRequirements
        ensures { result ≡ meaning all_attack_requirements (merged self.now metric.MAT metric.AT) }
    {
        merged!(self.mat, OneOfThree[First], AttackRequirements[Second Present, Third None],
            by_place!(self.at, OneOfTwo, AttackRequirements[Second None, First Present]))
    }

    fn effective_pr(&self) -> PrivilegesRequired
        ensures { result ≡ meaning privileges (merged self.now metric.MPR metric.PR) }
    {
        merged!(self.mpr, OneOfFour[First], PrivilegesRequired[Second High, Third Low, Fourth None],
            by_place!(self.pr, OneOfThree, PrivilegesRequired[Third None, First High, Second Low]))
    }

    fn effective_ui(&self) -> UserInteraction
        ensures { result ≡ meaning user_interactions (merged self.now metric.MUI metric.UI) }
    {
        merged!(self.mui, OneOfFour[First], UserInteraction[Second Active, Third Passive, Fourth None],
            by_place!(self.ui, OneOfThree, UserInteraction[Third None, First Active, Second Passive]))
    }

    fn effective_sc(&self) -> SubsequentImpact
        ensures { result ≡ meaning subsequent_impacts (merged self.now metric.MSC metric.SC) }
    {
        merged!(self.msc, OneOfFour[First], SubsequentImpact[Second None, Third Low, Fourth High],
            by_place!(self.sc, OneOfThree, SubsequentImpact[Third High, First None, Second Low]))
    }

    fn effective_e(&self) -> ExploitMaturity
        ensures { result ≡ meaning exploit_maturities (letter_at self.now metric.E) }
    {
        by_place!(self.e, OneOfFour, ExploitMaturity[First | Fourth Attacked, Second Unreported, Third ProofOfConcept])
    }
}

/// The effective value of VC, VI or VA.
fn vulnerable_impact<const MODIFIED: usize, const BASE: usize>(
    modified: Option<OneOfFour<MODIFIED>>,
    base: Option<OneOfThree<BASE>>,
) -> VulnerableImpact
    ensures { result ≡ meaning vulnerable_impacts
        (replaced (letter_by metric.MVC four_rank modified.entry) (letter_by metric.VC three_rank base.entry)) }
{
    merged!(modified, OneOfFour[First], VulnerableImpact[Second None, Third Low, Fourth High],
        by_place!(base, OneOfThree, VulnerableImpact[Third High, First None, Second Low]))
}

/// The effective value of SI or SA.
fn safety_impact<const MODIFIED: usize, const BASE: usize>(
    modified: Option<OneOfFive<MODIFIED>>,
    base: Option<OneOfThree<BASE>>,
) -> SafetyImpact
    ensures { result ≡ meaning safety_impacts
        (replaced (letter_by metric.MSI five_rank modified.entry) (letter_by metric.SI three_rank base.entry)) }
{
    merged!(modified, OneOfFive[First], SafetyImpact[Second None, Third Low, Fourth High, Fifth Safety],
        by_place!(base, OneOfThree, SafetyImpact[Third High, First None, Second Low]))
}

/// The effective value of CR, IR or AR.
fn requirement<const NUMBER: usize>(value: Option<OneOfFour<NUMBER>>) -> Requirement
    ensures { result ≡ meaning requirements (letter_by metric.CR four_rank value.entry) }
{
    by_place!(value, OneOfFour, Requirement[First | Fourth High, Second Low, Third Medium])
}
