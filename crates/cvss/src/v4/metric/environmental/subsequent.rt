//! What systems after the vulnerable one lose, in the user's own environment (v4.0 specification,
//! section 4.2).

ghost use Rattle.std.specs.Prelude.{Some};
ghost use Rattle.std.proofs.Common.{rules};
ghost use Rattle.cvss_base.specs.declared.v4.MetricType.TheVariants as metric;
ghost use Rattle.cvss.specs.SpellingsV4.{rank_of, value_component};

use crate::v4::metric::MetricEnum;
use cvss_metric::v4::{MetricType, MetricValue};
use std::fmt;

/// What Confidentiality Impact to the Subsequent System is in the user's own environment (v4.0
/// specification, section 4.2).
#[derive(Clone, Copy, Debug, Default, PartialEq, Eq, PartialOrd, Ord)]
pub enum ModifiedConfidentialityImpactToTheSubsequentSystem {
    #[default]
    NotDefined,
    Negligible,
    Low,
    High,
}

impl MetricValue for ModifiedConfidentialityImpactToTheSubsequentSystem {
    const KIND: MetricType = MetricType::MSC;

    ghost KIND = { metric.MSC };

    ghost rank = { rank_of metric.MSC };

    ghost within = { Prim.search rules };

    fn place(self) -> usize {
        self as usize
    }

    fn at(place: usize) -> Option<Self> {
        match place {
            0 => Some(Self::NotDefined),
            1 => Some(Self::Negligible),
            2 => Some(Self::Low),
            3 => Some(Self::High),
            _ => None,
        }
    }
}

impl fmt::Display for ModifiedConfidentialityImpactToTheSubsequentSystem {
    ghost output = { λ value. Some (value_component metric.MSC value) };

    ghost styled_output = { λ value _. Some (value_component metric.MSC value) };

    fn fmt<W: fmt::Write>(&self, f: &mut fmt::Formatter<W>) -> fmt::Result {
        self.write(f)
    }
}

impl MetricEnum for ModifiedConfidentialityImpactToTheSubsequentSystem {
    ghost law = { Prim.search rules };
}

/// What Integrity Impact to the Subsequent System is in the user's own environment (v4.0
/// specification, section 4.2).
#[derive(Clone, Copy, Debug, Default, PartialEq, Eq, PartialOrd, Ord)]
pub enum ModifiedIntegrityImpactToTheSubsequentSystem {
    #[default]
    NotDefined,
    Negligible,
    Low,
    High,
    Safety,
}

impl MetricValue for ModifiedIntegrityImpactToTheSubsequentSystem {
    const KIND: MetricType = MetricType::MSI;

    ghost KIND = { metric.MSI };

    ghost rank = { rank_of metric.MSI };

    ghost within = { Prim.search rules };

    fn place(self) -> usize {
        self as usize
    }

    fn at(place: usize) -> Option<Self> {
        match place {
            0 => Some(Self::NotDefined),
            1 => Some(Self::Negligible),
            2 => Some(Self::Low),
            3 => Some(Self::High),
            4 => Some(Self::Safety),
            _ => None,
        }
    }
}

impl fmt::Display for ModifiedIntegrityImpactToTheSubsequentSystem {
    ghost output = { λ value. Some (value_component metric.MSI value) };

    ghost styled_output = { λ value _. Some (value_component metric.MSI value) };

    fn fmt<W: fmt::Write>(&self, f: &mut fmt::Formatter<W>) -> fmt::Result {
        self.write(f)
    }
}

impl MetricEnum for ModifiedIntegrityImpactToTheSubsequentSystem {
    ghost law = { Prim.search rules };
}

/// What Availability Impact to the Subsequent System is in the user's own environment (v4.0
/// specification, section 4.2).
#[derive(Clone, Copy, Debug, Default, PartialEq, Eq, PartialOrd, Ord)]
pub enum ModifiedAvailabilityImpactToTheSubsequentSystem {
    #[default]
    NotDefined,
    Negligible,
    Low,
    High,
    Safety,
}

impl MetricValue for ModifiedAvailabilityImpactToTheSubsequentSystem {
    const KIND: MetricType = MetricType::MSA;

    ghost KIND = { metric.MSA };

    ghost rank = { rank_of metric.MSA };

    ghost within = { Prim.search rules };

    fn place(self) -> usize {
        self as usize
    }

    fn at(place: usize) -> Option<Self> {
        match place {
            0 => Some(Self::NotDefined),
            1 => Some(Self::Negligible),
            2 => Some(Self::Low),
            3 => Some(Self::High),
            4 => Some(Self::Safety),
            _ => None,
        }
    }
}

impl fmt::Display for ModifiedAvailabilityImpactToTheSubsequentSystem {
    ghost output = { λ value. Some (value_component metric.MSA value) };

    ghost styled_output = { λ value _. Some (value_component metric.MSA value) };

    fn fmt<W: fmt::Write>(&self, f: &mut fmt::Formatter<W>) -> fmt::Result {
        self.write(f)
    }
}

impl MetricEnum for ModifiedAvailabilityImpactToTheSubsequentSystem {
    ghost law = { Prim.search rules };
}
