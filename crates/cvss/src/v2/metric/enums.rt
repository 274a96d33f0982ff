//! That each metric of CVSS v2 has the values of its row in the table, in that order.

ghost use Rattle.std.proofs.Common.{rules};

use super::MetricEnum;
use super::base::{
    AccessComplexity, AccessVector, Authentication, AvailabilityImpact, ConfidentialityImpact,
    IntegrityImpact,
};
use super::environmental::{
    AvailabilityRequirement, CollateralDamagePotential, ConfidentialityRequirement,
    IntegrityRequirement, TargetDistribution,
};
use super::temporal::{Exploitability, RemediationLevel, ReportConfidence};

impl MetricEnum for AccessVector {
    ghost law = { Prim.search rules };
}

impl MetricEnum for AccessComplexity {
    ghost law = { Prim.search rules };
}

impl MetricEnum for Authentication {
    ghost law = { Prim.search rules };
}

impl MetricEnum for ConfidentialityImpact {
    ghost law = { Prim.search rules };
}

impl MetricEnum for IntegrityImpact {
    ghost law = { Prim.search rules };
}

impl MetricEnum for AvailabilityImpact {
    ghost law = { Prim.search rules };
}

impl MetricEnum for Exploitability {
    ghost law = { Prim.search rules };
}

impl MetricEnum for RemediationLevel {
    ghost law = { Prim.search rules };
}

impl MetricEnum for ReportConfidence {
    ghost law = { Prim.search rules };
}

impl MetricEnum for CollateralDamagePotential {
    ghost law = { Prim.search rules };
}

impl MetricEnum for TargetDistribution {
    ghost law = { Prim.search rules };
}

impl MetricEnum for ConfidentialityRequirement {
    ghost law = { Prim.search rules };
}

impl MetricEnum for IntegrityRequirement {
    ghost law = { Prim.search rules };
}

impl MetricEnum for AvailabilityRequirement {
    ghost law = { Prim.search rules };
}
