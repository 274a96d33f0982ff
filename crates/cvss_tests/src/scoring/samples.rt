//! Effective values that tests score.

use cvss_score::v4::scoring::effective::{
    AttackComplexity, AttackRequirements, AttackVector, Effective, ExploitMaturity,
    PrivilegesRequired, Requirement, SafetyImpact, SubsequentImpact, UserInteraction,
    VulnerableImpact,
};

/// The easiest attack, with no impact: AV:N/AC:L/AT:N/PR:N/UI:N, all impacts N, E:A, CR:H/IR:H/AR:H.
pub(crate) const HARMLESS: Effective = Effective {
    av: AttackVector::Network,
    pr: PrivilegesRequired::None,
    ui: UserInteraction::None,
    ac: AttackComplexity::Low,
    at: AttackRequirements::None,
    vc: VulnerableImpact::None,
    vi: VulnerableImpact::None,
    va: VulnerableImpact::None,
    sc: SubsequentImpact::None,
    si: SafetyImpact::None,
    sa: SafetyImpact::None,
    cr: Requirement::High,
    ir: Requirement::High,
    ar: Requirement::High,
    e: ExploitMaturity::Attacked,
};

/// VI:H and E:P.
pub(crate) const INTEGRITY: Effective = Effective {
    vi: VulnerableImpact::High,
    e: ExploitMaturity::ProofOfConcept,
    ..HARMLESS
};

/// AV:A/AC:H/AT:N/PR:N/UI:P/VC:L/VI:N/VA:H/SC:N/SI:L/SA:S/E:U/CR:L/IR:H/AR:L.
pub(crate) const UNSAFE: Effective = Effective {
    av: AttackVector::Adjacent,
    ui: UserInteraction::Passive,
    ac: AttackComplexity::High,
    vc: VulnerableImpact::Low,
    va: VulnerableImpact::High,
    si: SafetyImpact::Low,
    sa: SafetyImpact::Safety,
    cr: Requirement::Low,
    ar: Requirement::Low,
    e: ExploitMaturity::Unreported,
    ..HARMLESS
};

/// PR:L and VC:H/VI:H/VA:H.
pub(crate) const PRIVILEGED: Effective = Effective {
    pr: PrivilegesRequired::Low,
    vc: VulnerableImpact::High,
    vi: VulnerableImpact::High,
    va: VulnerableImpact::High,
    ..HARMLESS
};

/// AV:A/AC:H, VC:H/VI:H, E:U and CR:H/IR:L/AR:L.
pub(crate) const ADJACENT: Effective = Effective {
    av: AttackVector::Adjacent,
    ac: AttackComplexity::High,
    vc: VulnerableImpact::High,
    vi: VulnerableImpact::High,
    ir: Requirement::Low,
    ar: Requirement::Low,
    e: ExploitMaturity::Unreported,
    ..HARMLESS
};

/// The least severe values with some impact: VA:L.
pub(crate) const LEAST: Effective = Effective {
    av: AttackVector::Physical,
    pr: PrivilegesRequired::High,
    ui: UserInteraction::Active,
    ac: AttackComplexity::High,
    at: AttackRequirements::Present,
    vc: VulnerableImpact::None,
    vi: VulnerableImpact::None,
    va: VulnerableImpact::Low,
    sc: SubsequentImpact::None,
    si: SafetyImpact::None,
    sa: SafetyImpact::None,
    cr: Requirement::Low,
    ir: Requirement::Low,
    ar: Requirement::Low,
    e: ExploitMaturity::Unreported,
};

/// All six impacts H.
pub(crate) const WORST: Effective = Effective {
    vc: VulnerableImpact::High,
    vi: VulnerableImpact::High,
    va: VulnerableImpact::High,
    sc: SubsequentImpact::High,
    si: SafetyImpact::High,
    sa: SafetyImpact::High,
    ..HARMLESS
};

/// VC:L, VI:H and E:P.
pub(crate) const LOW_CONFIDENTIALITY: Effective = Effective {
    vc: VulnerableImpact::Low,
    ..INTEGRITY
};

/// PR:H and VC:L/VI:L.
pub(crate) const HIGHLY_PRIVILEGED: Effective = Effective {
    pr: PrivilegesRequired::High,
    vc: VulnerableImpact::Low,
    vi: VulnerableImpact::Low,
    ..HARMLESS
};

/// VC:H.
pub(crate) const CONFIDENTIAL: Effective = Effective {
    vc: VulnerableImpact::High,
    ..HARMLESS
};

/// SI:S.
pub(crate) const UNSAFE_INTEGRITY: Effective = Effective {
    si: SafetyImpact::Safety,
    ..HARMLESS
};
