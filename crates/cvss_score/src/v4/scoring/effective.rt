//! The effective values of a vector: those that remain once each modified metric has replaced its
//! base metric and each undefined one its default (v4.0 specification, sections 4.2 and 8.2).

/// How near to the vulnerable system the attacker has to be: AV.
#[derive(Clone, Copy)]
pub enum AttackVector {
    Physical,
    Local,
    Adjacent,
    Network,
}

/// Whether the attacker has to overcome defences that are built in: AC.
#[derive(Clone, Copy)]
pub enum AttackComplexity {
    High,
    Low,
}

/// Whether an attack needs conditions that are not the attacker's to make: AT.
#[derive(Clone, Copy)]
pub enum AttackRequirements {
    Present,
    None,
}

/// What the attacker has to be allowed before the attack: PR.
#[derive(Clone, Copy)]
pub enum PrivilegesRequired {
    High,
    Low,
    None,
}

/// What a user has to do for the attack: UI.
#[derive(Clone, Copy)]
pub enum UserInteraction {
    Active,
    Passive,
    None,
}

/// An impact on the vulnerable system: VC, VI and VA.
#[derive(Clone, Copy)]
pub enum VulnerableImpact {
    High,
    Low,
    None,
}

/// An impact on subsequent systems that harms no person: SC.
#[derive(Clone, Copy)]
pub enum SubsequentImpact {
    High,
    Low,
    None,
}

/// An impact on subsequent systems that may harm persons: SI and SA.
#[derive(Clone, Copy)]
pub enum SafetyImpact {
    Safety,
    High,
    Low,
    None,
}

/// How much an impact matters to the user: CR, IR and AR.
#[derive(Clone, Copy)]
pub enum Requirement {
    High,
    Medium,
    Low,
}

/// How far an exploit has come: E.
#[derive(Clone, Copy)]
pub enum ExploitMaturity {
    Attacked,
    ProofOfConcept,
    Unreported,
}

/// The effective values of the fifteen metrics that a score depends on, by their short names.
#[derive(Clone, Copy)]
pub struct Effective {
    pub av: AttackVector,
    pub pr: PrivilegesRequired,
    pub ui: UserInteraction,
    pub ac: AttackComplexity,
    pub at: AttackRequirements,
    pub vc: VulnerableImpact,
    pub vi: VulnerableImpact,
    pub va: VulnerableImpact,
    pub sc: SubsequentImpact,
    pub si: SafetyImpact,
    pub sa: SafetyImpact,
    pub cr: Requirement,
    pub ir: Requirement,
    pub ar: Requirement,
    pub e: ExploitMaturity,
}
