//! The classes of effective values: EQ1 to EQ6 (v4.0 specification, section 8.2).

ghost use Rattle.std.specs.Prelude.{◌≡◌, ◌&&◌};
ghost use Rattle.cvss_score.specs.v4.Classes.{eq1, eq2, eq3, eq4, eq5, eq6, is_requirement_high, is_vulnerable_high, macro_vector, IsMacroVector};

use crate::v4::scoring::effective::{
    AttackComplexity, AttackRequirements, AttackVector, Effective, ExploitMaturity,
    PrivilegesRequired, Requirement, SafetyImpact, SubsequentImpact, UserInteraction,
    VulnerableImpact,
};

/// The six numbers of a class, of which 0 is the most severe.
#[derive(Clone, Copy)]
pub struct MacroVector {
    pub eq1: u8,
    pub eq2: u8,
    pub eq3: u8,
    pub eq4: u8,
    pub eq5: u8,
    pub eq6: u8,
}

/// EQ1, the class of exploitability.
#[inline(always)]
fn eq1(av: AttackVector, pr: PrivilegesRequired, ui: UserInteraction) -> u8
    ensures { result ≡ eq1 av pr ui }
{
    match (av, pr, ui) {
        (AttackVector::Network, PrivilegesRequired::None, UserInteraction::None) => 0,
        (AttackVector::Physical, _, _) => 2,
        (AttackVector::Network, _, _) => 1,
        (_, PrivilegesRequired::None, _) => 1,
        (_, _, UserInteraction::None) => 1,
        _ => 2,
    }
}

/// EQ2, the class of complexity.
#[inline(always)]
fn eq2(ac: AttackComplexity, at: AttackRequirements) -> u8
    ensures { result ≡ eq2 ac at }
{
    match (ac, at) {
        (AttackComplexity::Low, AttackRequirements::None) => 0,
        _ => 1,
    }
}

/// EQ3, the class of impacts on the vulnerable system.
#[inline(always)]
fn eq3(vc: VulnerableImpact, vi: VulnerableImpact, va: VulnerableImpact) -> u8
    ensures { result ≡ eq3 vc vi va }
{
    match (vc, vi, va) {
        (VulnerableImpact::High, VulnerableImpact::High, _) => 0,
        (VulnerableImpact::High, _, _) => 1,
        (_, VulnerableImpact::High, _) => 1,
        (_, _, VulnerableImpact::High) => 1,
        _ => 2,
    }
}

/// EQ4, the class of impacts on subsequent systems.
#[inline(always)]
fn eq4(sc: SubsequentImpact, si: SafetyImpact, sa: SafetyImpact) -> u8
    ensures { result ≡ eq4 sc si sa }
{
    match (sc, si, sa) {
        (_, SafetyImpact::Safety, _) => 0,
        (_, _, SafetyImpact::Safety) => 0,
        (SubsequentImpact::High, _, _) => 1,
        (_, SafetyImpact::High, _) => 1,
        (_, _, SafetyImpact::High) => 1,
        _ => 2,
    }
}

/// EQ5, the class of exploits.
#[inline(always)]
fn eq5(e: ExploitMaturity) -> u8
    ensures { result ≡ eq5 e }
{
    match e {
        ExploitMaturity::Attacked => 0,
        ExploitMaturity::ProofOfConcept => 1,
        ExploitMaturity::Unreported => 2,
    }
}

/// Whether an impact is high and of high importance.
#[inline(always)]
fn is_critical(impact: VulnerableImpact, requirement: Requirement) -> bool
    ensures { result ≡ (is_requirement_high requirement && is_vulnerable_high impact) }
{
    matches!(
        (impact, requirement),
        (VulnerableImpact::High, Requirement::High)
    )
}

/// EQ6, the class of important impacts on the vulnerable system.
#[inline(always)]
fn eq6(effective: &Effective) -> u8
    ensures { result ≡ eq6 effective.now.vc effective.now.vi effective.now.va
        effective.now.cr effective.now.ir effective.now.ar }
{
    if is_critical(effective.vc, effective.cr)
        || is_critical(effective.vi, effective.ir)
        || is_critical(effective.va, effective.ar)
    {
        0
    } else {
        1
    }
}

impl MacroVector {
    /// The class of effective values.
    #[inline(always)]
    #[tactic(auto, using(crate::proofs::v4_lemmas::ClassLemmas::macro_vector_is))]
    pub fn of(effective: &Effective) -> Self
        ensures value { result ≡ macro_vector effective.now }
        ensures valid { IsMacroVector result }
    {
        MacroVector {
            eq1: eq1(effective.av, effective.pr, effective.ui),
            eq2: eq2(effective.ac, effective.at),
            eq3: eq3(effective.vc, effective.vi, effective.va),
            eq4: eq4(effective.sc, effective.si, effective.sa),
            eq5: eq5(effective.e),
            eq6: eq6(effective),
        }
    }
}
