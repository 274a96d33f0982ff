//! What systems after the vulnerable one lose (v4.0 specification, section 2.2).

ghost use Rattle.std.specs.Prelude.{Some};
ghost use Rattle.std.proofs.Common.{rules};
ghost use Rattle.cvss_base.specs.declared.v4.MetricType.TheVariants as metric;
ghost use Rattle.cvss.specs.SpellingsV4.{rank_of, value_component};

use crate::v4::metric::MetricEnum;
use cvss_metric::v4::{MetricType, MetricValue};
use std::fmt;

/// How much confidentiality systems after the vulnerable one lose (v4.0 specification, section
/// 2.2.1).
#[derive(Clone, Copy, Debug, Default, PartialEq, Eq, PartialOrd, Ord)]
pub enum ConfidentialityImpactToTheSubsequentSystem {
    None,
    Low,
    #[default]
    High,
}

impl MetricValue for ConfidentialityImpactToTheSubsequentSystem {
    const KIND: MetricType = MetricType::SC;

    ghost KIND = { metric.SC };

    ghost rank = { rank_of metric.SC };

    ghost within = { Prim.search rules };

    fn place(self) -> usize {
        self as usize
    }

    fn at(place: usize) -> Option<Self> {
        match place {
            0 => Some(Self::None),
            1 => Some(Self::Low),
            2 => Some(Self::High),
            _ => None,
        }
    }
}

impl fmt::Display for ConfidentialityImpactToTheSubsequentSystem {
    ghost output = { λ value. Some (value_component metric.SC value) };

    ghost styled_output = { λ value _. Some (value_component metric.SC value) };

    fn fmt<W: fmt::Write>(&self, f: &mut fmt::Formatter<W>) -> fmt::Result {
        self.write(f)
    }
}

impl MetricEnum for ConfidentialityImpactToTheSubsequentSystem {
    ghost law = { Prim.search rules };
}

/// How much integrity systems after the vulnerable one lose (v4.0 specification, section 2.2.2).
#[derive(Clone, Copy, Debug, Default, PartialEq, Eq, PartialOrd, Ord)]
pub enum IntegrityImpactToTheSubsequentSystem {
    None,
    Low,
    #[default]
    High,
}

impl MetricValue for IntegrityImpactToTheSubsequentSystem {
    const KIND: MetricType = MetricType::SI;

    ghost KIND = { metric.SI };

    ghost rank = { rank_of metric.SI };

    ghost within = { Prim.search rules };

    fn place(self) -> usize {
        self as usize
    }

    fn at(place: usize) -> Option<Self> {
        match place {
            0 => Some(Self::None),
            1 => Some(Self::Low),
            2 => Some(Self::High),
            _ => None,
        }
    }
}

impl fmt::Display for IntegrityImpactToTheSubsequentSystem {
    ghost output = { λ value. Some (value_component metric.SI value) };

    ghost styled_output = { λ value _. Some (value_component metric.SI value) };

    fn fmt<W: fmt::Write>(&self, f: &mut fmt::Formatter<W>) -> fmt::Result {
        self.write(f)
    }
}

impl MetricEnum for IntegrityImpactToTheSubsequentSystem {
    ghost law = { Prim.search rules };
}

/// How much availability systems after the vulnerable one lose (v4.0 specification, section
/// 2.2.3).
#[derive(Clone, Copy, Debug, Default, PartialEq, Eq, PartialOrd, Ord)]
pub enum AvailabilityImpactToTheSubsequentSystem {
    None,
    Low,
    #[default]
    High,
}

impl MetricValue for AvailabilityImpactToTheSubsequentSystem {
    const KIND: MetricType = MetricType::SA;

    ghost KIND = { metric.SA };

    ghost rank = { rank_of metric.SA };

    ghost within = { Prim.search rules };

    fn place(self) -> usize {
        self as usize
    }

    fn at(place: usize) -> Option<Self> {
        match place {
            0 => Some(Self::None),
            1 => Some(Self::Low),
            2 => Some(Self::High),
            _ => None,
        }
    }
}

impl fmt::Display for AvailabilityImpactToTheSubsequentSystem {
    ghost output = { λ value. Some (value_component metric.SA value) };

    ghost styled_output = { λ value _. Some (value_component metric.SA value) };

    fn fmt<W: fmt::Write>(&self, f: &mut fmt::Formatter<W>) -> fmt::Result {
        self.write(f)
    }
}

impl MetricEnum for AvailabilityImpactToTheSubsequentSystem {
    ghost law = { Prim.search rules };
}
