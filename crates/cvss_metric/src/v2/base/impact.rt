//! What an attack does to the component (guide, sections 2.1.4 to 2.1.6).

ghost use Rattle.std.specs.Prelude.{Some};
ghost use Rattle.cvss_base.specs.declared.v2.MetricType.TheVariants.{C, I, A};
ghost use Rattle.cvss_metric.specs.v2.Table.{metric_component};

use crate::v2::metric::{MetricType, MetricValue};
use std::fmt;

/// What an attack discloses (guide, section 2.1.4).
#[derive(Clone, Copy, Debug, PartialEq, Eq, PartialOrd, Ord)]
pub enum ConfidentialityImpact {
    None,
    Partial,
    Complete,
}

impl MetricValue for ConfidentialityImpact {
    const KIND: MetricType = MetricType::C;

    ghost KIND = { C };

    ghost value = { λ metric. metric };

    fn values() -> &'static [Self] {
        &[Self::None, Self::Partial, Self::Complete]
    }

    fn row(self) -> (&'static str, u64) {
        match self {
            Self::None => ("N", 0),
            Self::Partial => ("P", 275),
            Self::Complete => ("C", 660),
        }
    }
}

impl fmt::Display for ConfidentialityImpact {
    ghost output = { λ metric. Some (metric_component C metric) };

    ghost styled_output = { λ metric _. Some (metric_component C metric) };

    fn fmt<W: fmt::Write>(&self, f: &mut fmt::Formatter<W>) -> fmt::Result {
        self.write(f)
    }
}

/// What an attack changes (guide, section 2.1.5).
#[derive(Clone, Copy, Debug, PartialEq, Eq, PartialOrd, Ord)]
pub enum IntegrityImpact {
    None,
    Partial,
    Complete,
}

impl MetricValue for IntegrityImpact {
    const KIND: MetricType = MetricType::I;

    ghost KIND = { I };

    ghost value = { λ metric. metric };

    fn values() -> &'static [Self] {
        &[Self::None, Self::Partial, Self::Complete]
    }

    fn row(self) -> (&'static str, u64) {
        match self {
            Self::None => ("N", 0),
            Self::Partial => ("P", 275),
            Self::Complete => ("C", 660),
        }
    }
}

impl fmt::Display for IntegrityImpact {
    ghost output = { λ metric. Some (metric_component I metric) };

    ghost styled_output = { λ metric _. Some (metric_component I metric) };

    fn fmt<W: fmt::Write>(&self, f: &mut fmt::Formatter<W>) -> fmt::Result {
        self.write(f)
    }
}

/// What an attack makes unavailable (guide, section 2.1.6).
#[derive(Clone, Copy, Debug, PartialEq, Eq, PartialOrd, Ord)]
pub enum AvailabilityImpact {
    None,
    Partial,
    Complete,
}

impl MetricValue for AvailabilityImpact {
    const KIND: MetricType = MetricType::A;

    ghost KIND = { A };

    ghost value = { λ metric. metric };

    fn values() -> &'static [Self] {
        &[Self::None, Self::Partial, Self::Complete]
    }

    fn row(self) -> (&'static str, u64) {
        match self {
            Self::None => ("N", 0),
            Self::Partial => ("P", 275),
            Self::Complete => ("C", 660),
        }
    }
}

impl fmt::Display for AvailabilityImpact {
    ghost output = { λ metric. Some (metric_component A metric) };

    ghost styled_output = { λ metric _. Some (metric_component A metric) };

    fn fmt<W: fmt::Write>(&self, f: &mut fmt::Formatter<W>) -> fmt::Result {
        self.write(f)
    }
}
