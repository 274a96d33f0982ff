//! That each metric of CVSS v3 has the values of its row in the table, in that order.

ghost use Rattle.std.proofs.Common.{rules};

use super::MetricEnum;
use super::base::{
    AttackComplexity, AttackVector, Availability, Confidentiality, Integrity, PrivilegesRequired,
    Scope, UserInteraction,
};
use super::environmental::{
    AvailabilityRequirement, ConfidentialityRequirement, IntegrityRequirement, ModifiedScope,
};
use super::temporal::{ExploitCodeMaturity, RemediationLevel, ReportConfidence};

impl MetricEnum for PrivilegesRequired {
    ghost law = { Prim.search rules };
}

impl MetricEnum for UserInteraction {
    ghost law = { Prim.search rules };
}

impl MetricEnum for AttackVector {
    ghost law = { Prim.search rules };
}

impl MetricEnum for AttackComplexity {
    ghost law = { Prim.search rules };
}

impl MetricEnum for Confidentiality {
    ghost law = { Prim.search rules };
}

impl MetricEnum for Integrity {
    ghost law = { Prim.search rules };
}

impl MetricEnum for Availability {
    ghost law = { Prim.search rules };
}

impl MetricEnum for Scope {
    ghost law = { Prim.search rules };
}

impl MetricEnum for ExploitCodeMaturity {
    ghost law = { Prim.search rules };
}

impl MetricEnum for RemediationLevel {
    ghost law = { Prim.search rules };
}

impl MetricEnum for ReportConfidence {
    ghost law = { Prim.search rules };
}

impl MetricEnum for ModifiedScope {
    ghost law = { Prim.search rules };
}

impl MetricEnum for ConfidentialityRequirement {
    ghost law = { Prim.search rules };
}

impl MetricEnum for IntegrityRequirement {
    ghost law = { Prim.search rules };
}

impl MetricEnum for AvailabilityRequirement {
    ghost law = { Prim.search rules };
}
