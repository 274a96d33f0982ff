//! What matters to the user (guide, section 2.3.3).

ghost use Rattle.std.specs.Prelude.{Some};
ghost use Rattle.cvss_base.specs.declared.v2.MetricType.TheVariants.{CR, IR, AR};
ghost use Rattle.cvss_metric.specs.v2.Table.{metric_component};

use crate::v2::metric::{MetricType, MetricValue};
use std::fmt;

/// How much confidentiality matters to the user (guide, section 2.3.3).
#[derive(Clone, Copy, Debug, PartialEq, Eq, PartialOrd, Ord)]
pub enum ConfidentialityRequirement {
    Low,
    Medium,
    High,
    NotDefined,
}

impl MetricValue for ConfidentialityRequirement {
    const KIND: MetricType = MetricType::CR;

    ghost KIND = { CR };

    ghost value = { λ metric. metric };

    fn values() -> &'static [Self] {
        &[Self::Low, Self::Medium, Self::High, Self::NotDefined]
    }

    fn row(self) -> (&'static str, u64) {
        match self {
            Self::Low => ("L", 500),
            Self::Medium => ("M", 1000),
            Self::High => ("H", 1510),
            Self::NotDefined => ("ND", 1000),
        }
    }
}

impl fmt::Display for ConfidentialityRequirement {
    ghost output = { λ metric. Some (metric_component CR metric) };

    ghost styled_output = { λ metric _. Some (metric_component CR metric) };

    fn fmt<W: fmt::Write>(&self, f: &mut fmt::Formatter<W>) -> fmt::Result {
        self.write(f)
    }
}

/// How much integrity matters to the user (guide, section 2.3.3).
#[derive(Clone, Copy, Debug, PartialEq, Eq, PartialOrd, Ord)]
pub enum IntegrityRequirement {
    Low,
    Medium,
    High,
    NotDefined,
}

impl MetricValue for IntegrityRequirement {
    const KIND: MetricType = MetricType::IR;

    ghost KIND = { IR };

    ghost value = { λ metric. metric };

    fn values() -> &'static [Self] {
        &[Self::Low, Self::Medium, Self::High, Self::NotDefined]
    }

    fn row(self) -> (&'static str, u64) {
        match self {
            Self::Low => ("L", 500),
            Self::Medium => ("M", 1000),
            Self::High => ("H", 1510),
            Self::NotDefined => ("ND", 1000),
        }
    }
}

impl fmt::Display for IntegrityRequirement {
    ghost output = { λ metric. Some (metric_component IR metric) };

    ghost styled_output = { λ metric _. Some (metric_component IR metric) };

    fn fmt<W: fmt::Write>(&self, f: &mut fmt::Formatter<W>) -> fmt::Result {
        self.write(f)
    }
}

/// How much availability matters to the user (guide, section 2.3.3).
#[derive(Clone, Copy, Debug, PartialEq, Eq, PartialOrd, Ord)]
pub enum AvailabilityRequirement {
    Low,
    Medium,
    High,
    NotDefined,
}

impl MetricValue for AvailabilityRequirement {
    const KIND: MetricType = MetricType::AR;

    ghost KIND = { AR };

    ghost value = { λ metric. metric };

    fn values() -> &'static [Self] {
        &[Self::Low, Self::Medium, Self::High, Self::NotDefined]
    }

    fn row(self) -> (&'static str, u64) {
        match self {
            Self::Low => ("L", 500),
            Self::Medium => ("M", 1000),
            Self::High => ("H", 1510),
            Self::NotDefined => ("ND", 1000),
        }
    }
}

impl fmt::Display for AvailabilityRequirement {
    ghost output = { λ metric. Some (metric_component AR metric) };

    ghost styled_output = { λ metric _. Some (metric_component AR metric) };

    fn fmt<W: fmt::Write>(&self, f: &mut fmt::Formatter<W>) -> fmt::Result {
        self.write(f)
    }
}
