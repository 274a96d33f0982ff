//! How an attacker gets at the component (guide, sections 2.1.1 to 2.1.3).

ghost use Rattle.std.specs.Prelude.{Some};
ghost use Rattle.cvss_base.specs.declared.v2.MetricType.TheVariants.{AV, AC, Au};
ghost use Rattle.cvss_metric.specs.v2.Table.{metric_component};

use crate::v2::metric::{MetricType, MetricValue};
use std::fmt;

/// How near to the component the attacker has to be (guide, section 2.1.1).
#[derive(Clone, Copy, Debug, PartialEq, Eq, PartialOrd, Ord)]
pub enum AccessVector {
    Local,
    AdjacentNetwork,
    Network,
}

impl MetricValue for AccessVector {
    const KIND: MetricType = MetricType::AV;

    ghost KIND = { AV };

    ghost value = { λ metric. metric };

    fn values() -> &'static [Self] {
        &[Self::Local, Self::AdjacentNetwork, Self::Network]
    }

    fn row(self) -> (&'static str, u64) {
        match self {
            Self::Local => ("L", 395),
            Self::AdjacentNetwork => ("A", 646),
            Self::Network => ("N", 1000),
        }
    }
}

impl fmt::Display for AccessVector {
    ghost output = { λ metric. Some (metric_component AV metric) };

    ghost styled_output = { λ metric _. Some (metric_component AV metric) };

    fn fmt<W: fmt::Write>(&self, f: &mut fmt::Formatter<W>) -> fmt::Result {
        self.write(f)
    }
}

/// How hard the attack is once the attacker has access (guide, section 2.1.2).
#[derive(Clone, Copy, Debug, PartialEq, Eq, PartialOrd, Ord)]
pub enum AccessComplexity {
    High,
    Medium,
    Low,
}

impl MetricValue for AccessComplexity {
    const KIND: MetricType = MetricType::AC;

    ghost KIND = { AC };

    ghost value = { λ metric. metric };

    fn values() -> &'static [Self] {
        &[Self::High, Self::Medium, Self::Low]
    }

    fn row(self) -> (&'static str, u64) {
        match self {
            Self::High => ("H", 350),
            Self::Medium => ("M", 610),
            Self::Low => ("L", 710),
        }
    }
}

impl fmt::Display for AccessComplexity {
    ghost output = { λ metric. Some (metric_component AC metric) };

    ghost styled_output = { λ metric _. Some (metric_component AC metric) };

    fn fmt<W: fmt::Write>(&self, f: &mut fmt::Formatter<W>) -> fmt::Result {
        self.write(f)
    }
}

/// How often the attacker has to authenticate (guide, section 2.1.3).
#[derive(Clone, Copy, Debug, PartialEq, Eq, PartialOrd, Ord)]
pub enum Authentication {
    Multiple,
    Single,
    None,
}

impl MetricValue for Authentication {
    const KIND: MetricType = MetricType::Au;

    ghost KIND = { Au };

    ghost value = { λ metric. metric };

    fn values() -> &'static [Self] {
        &[Self::Multiple, Self::Single, Self::None]
    }

    fn row(self) -> (&'static str, u64) {
        match self {
            Self::Multiple => ("M", 450),
            Self::Single => ("S", 560),
            Self::None => ("N", 704),
        }
    }
}

impl fmt::Display for Authentication {
    ghost output = { λ metric. Some (metric_component Au metric) };

    ghost styled_output = { λ metric _. Some (metric_component Au metric) };

    fn fmt<W: fmt::Write>(&self, f: &mut fmt::Formatter<W>) -> fmt::Result {
        self.write(f)
    }
}
