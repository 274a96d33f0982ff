//! How much may be lost, and how often (guide, sections 2.3.1 and 2.3.2).

ghost use Rattle.std.specs.Prelude.{Some};
ghost use Rattle.cvss_base.specs.declared.v2.MetricType.TheVariants.{CDP, TD};
ghost use Rattle.cvss_metric.specs.v2.Table.{metric_component};

use crate::v2::metric::{MetricType, MetricValue};
use std::fmt;

/// What loss beside the system may come of it (guide, section 2.3.1).
#[derive(Clone, Copy, Debug, PartialEq, Eq, PartialOrd, Ord)]
pub enum CollateralDamagePotential {
    None,
    Low,
    LowMedium,
    MediumHigh,
    High,
    NotDefined,
}

impl MetricValue for CollateralDamagePotential {
    const KIND: MetricType = MetricType::CDP;

    ghost KIND = { CDP };

    ghost value = { λ metric. metric };

    fn values() -> &'static [Self] {
        use CollateralDamagePotential::*;
        &[None, Low, LowMedium, MediumHigh, High, NotDefined]
    }

    fn row(self) -> (&'static str, u64) {
        match self {
            Self::None => ("N", 0),
            Self::Low => ("L", 100),
            Self::LowMedium => ("LM", 300),
            Self::MediumHigh => ("MH", 400),
            Self::High => ("H", 500),
            Self::NotDefined => ("ND", 0),
        }
    }
}

impl fmt::Display for CollateralDamagePotential {
    ghost output = { λ metric. Some (metric_component CDP metric) };

    ghost styled_output = { λ metric _. Some (metric_component CDP metric) };

    fn fmt<W: fmt::Write>(&self, f: &mut fmt::Formatter<W>) -> fmt::Result {
        self.write(f)
    }
}

/// How many of the systems are vulnerable (guide, section 2.3.2).
#[derive(Clone, Copy, Debug, PartialEq, Eq, PartialOrd, Ord)]
pub enum TargetDistribution {
    None,
    Low,
    Medium,
    High,
    NotDefined,
}

impl MetricValue for TargetDistribution {
    const KIND: MetricType = MetricType::TD;

    ghost KIND = { TD };

    ghost value = { λ metric. metric };

    fn values() -> &'static [Self] {
        use TargetDistribution::*;
        &[None, Low, Medium, High, NotDefined]
    }

    fn row(self) -> (&'static str, u64) {
        match self {
            Self::None => ("N", 0),
            Self::Low => ("L", 250),
            Self::Medium => ("M", 750),
            Self::High => ("H", 1000),
            Self::NotDefined => ("ND", 1000),
        }
    }
}

impl fmt::Display for TargetDistribution {
    ghost output = { λ metric. Some (metric_component TD metric) };

    ghost styled_output = { λ metric _. Some (metric_component TD metric) };

    fn fmt<W: fmt::Write>(&self, f: &mut fmt::Formatter<W>) -> fmt::Result {
        self.write(f)
    }
}
