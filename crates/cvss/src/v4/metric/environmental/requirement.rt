//! How much the user's organisation depends on each kind of security (v4.0 specification, section
//! 4.1).

ghost use Rattle.std.specs.Prelude.{Some};
ghost use Rattle.std.proofs.Common.{rules};
ghost use Rattle.cvss_base.specs.declared.v4.MetricType.TheVariants as metric;
ghost use Rattle.cvss.specs.SpellingsV4.{rank_of, value_component};

use crate::v4::metric::MetricEnum;
use cvss_metric::v4::{MetricType, MetricValue};
use std::fmt;

/// How much confidentiality matters to the user's organisation (v4.0 specification, section 4.1).
#[derive(Clone, Copy, Debug, Default, PartialEq, Eq, PartialOrd, Ord)]
pub enum ConfidentialityRequirements {
    #[default]
    NotDefined,
    Low,
    Medium,
    High,
}

impl MetricValue for ConfidentialityRequirements {
    const KIND: MetricType = MetricType::CR;

    ghost KIND = { metric.CR };

    ghost rank = { rank_of metric.CR };

    ghost within = { Prim.search rules };

    fn place(self) -> usize {
        self as usize
    }

    fn at(place: usize) -> Option<Self> {
        match place {
            0 => Some(Self::NotDefined),
            1 => Some(Self::Low),
            2 => Some(Self::Medium),
            3 => Some(Self::High),
            _ => None,
        }
    }
}

impl fmt::Display for ConfidentialityRequirements {
    ghost output = { λ value. Some (value_component metric.CR value) };

    ghost styled_output = { λ value _. Some (value_component metric.CR value) };

    fn fmt<W: fmt::Write>(&self, f: &mut fmt::Formatter<W>) -> fmt::Result {
        self.write(f)
    }
}

impl MetricEnum for ConfidentialityRequirements {
    ghost law = { Prim.search rules };
}

/// How much integrity matters to the user's organisation (v4.0 specification, section 4.1).
#[derive(Clone, Copy, Debug, Default, PartialEq, Eq, PartialOrd, Ord)]
pub enum IntegrityRequirements {
    #[default]
    NotDefined,
    Low,
    Medium,
    High,
}

impl MetricValue for IntegrityRequirements {
    const KIND: MetricType = MetricType::IR;

    ghost KIND = { metric.IR };

    ghost rank = { rank_of metric.IR };

    ghost within = { Prim.search rules };

    fn place(self) -> usize {
        self as usize
    }

    fn at(place: usize) -> Option<Self> {
        match place {
            0 => Some(Self::NotDefined),
            1 => Some(Self::Low),
            2 => Some(Self::Medium),
            3 => Some(Self::High),
            _ => None,
        }
    }
}

impl fmt::Display for IntegrityRequirements {
    ghost output = { λ value. Some (value_component metric.IR value) };

    ghost styled_output = { λ value _. Some (value_component metric.IR value) };

    fn fmt<W: fmt::Write>(&self, f: &mut fmt::Formatter<W>) -> fmt::Result {
        self.write(f)
    }
}

impl MetricEnum for IntegrityRequirements {
    ghost law = { Prim.search rules };
}

/// How much availability matters to the user's organisation (v4.0 specification, section 4.1).
#[derive(Clone, Copy, Debug, Default, PartialEq, Eq, PartialOrd, Ord)]
pub enum AvailabilityRequirements {
    #[default]
    NotDefined,
    Low,
    Medium,
    High,
}

impl MetricValue for AvailabilityRequirements {
    const KIND: MetricType = MetricType::AR;

    ghost KIND = { metric.AR };

    ghost rank = { rank_of metric.AR };

    ghost within = { Prim.search rules };

    fn place(self) -> usize {
        self as usize
    }

    fn at(place: usize) -> Option<Self> {
        match place {
            0 => Some(Self::NotDefined),
            1 => Some(Self::Low),
            2 => Some(Self::Medium),
            3 => Some(Self::High),
            _ => None,
        }
    }
}

impl fmt::Display for AvailabilityRequirements {
    ghost output = { λ value. Some (value_component metric.AR value) };

    ghost styled_output = { λ value _. Some (value_component metric.AR value) };

    fn fmt<W: fmt::Write>(&self, f: &mut fmt::Formatter<W>) -> fmt::Result {
        self.write(f)
    }
}

impl MetricEnum for AvailabilityRequirements {
    ghost law = { Prim.search rules };
}
