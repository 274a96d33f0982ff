//! What the vulnerable system loses (v4.0 specification, section 2.2).

ghost use Rattle.std.specs.Prelude.{Some};
ghost use Rattle.std.proofs.Common.{rules};
ghost use Rattle.cvss_base.specs.declared.v4.MetricType.TheVariants as metric;
ghost use Rattle.cvss.specs.SpellingsV4.{rank_of, value_component};

use crate::v4::metric::MetricEnum;
use cvss_metric::v4::{MetricType, MetricValue};
use std::fmt;

/// How much confidentiality the vulnerable system loses (v4.0 specification, section 2.2.1).
#[derive(Clone, Copy, Debug, Default, PartialEq, Eq, PartialOrd, Ord)]
pub enum ConfidentialityImpactToTheVulnerableSystem {
    None,
    Low,
    #[default]
    High,
}

impl MetricValue for ConfidentialityImpactToTheVulnerableSystem {
    const KIND: MetricType = MetricType::VC;

    ghost KIND = { metric.VC };

    ghost rank = { rank_of metric.VC };

    ghost within = { Prim.search rules };

    fn place(self) -> usize {
        self as usize
    }

    fn at(place: usize) -> Option<Self> {
        match place {
            0 => Some(Self::None),
            1 => Some(Self::Low),
            2 => Some(Self::High),
            _ => None,
        }
    }
}

impl fmt::Display for ConfidentialityImpactToTheVulnerableSystem {
    ghost output = { λ value. Some (value_component metric.VC value) };

    ghost styled_output = { λ value _. Some (value_component metric.VC value) };

    fn fmt<W: fmt::Write>(&self, f: &mut fmt::Formatter<W>) -> fmt::Result {
        self.write(f)
    }
}

impl MetricEnum for ConfidentialityImpactToTheVulnerableSystem {
    ghost law = { Prim.search rules };
}

/// How much integrity the vulnerable system loses (v4.0 specification, section 2.2.2).
#[derive(Clone, Copy, Debug, Default, PartialEq, Eq, PartialOrd, Ord)]
pub enum IntegrityImpactToTheVulnerableSystem {
    None,
    Low,
    #[default]
    High,
}

impl MetricValue for IntegrityImpactToTheVulnerableSystem {
    const KIND: MetricType = MetricType::VI;

    ghost KIND = { metric.VI };

    ghost rank = { rank_of metric.VI };

    ghost within = { Prim.search rules };

    fn place(self) -> usize {
        self as usize
    }

    fn at(place: usize) -> Option<Self> {
        match place {
            0 => Some(Self::None),
            1 => Some(Self::Low),
            2 => Some(Self::High),
            _ => None,
        }
    }
}

impl fmt::Display for IntegrityImpactToTheVulnerableSystem {
    ghost output = { λ value. Some (value_component metric.VI value) };

    ghost styled_output = { λ value _. Some (value_component metric.VI value) };

    fn fmt<W: fmt::Write>(&self, f: &mut fmt::Formatter<W>) -> fmt::Result {
        self.write(f)
    }
}

impl MetricEnum for IntegrityImpactToTheVulnerableSystem {
    ghost law = { Prim.search rules };
}

/// How much availability the vulnerable system loses (v4.0 specification, section 2.2.3).
#[derive(Clone, Copy, Debug, Default, PartialEq, Eq, PartialOrd, Ord)]
pub enum AvailabilityImpactToTheVulnerableSystem {
    None,
    Low,
    #[default]
    High,
}

impl MetricValue for AvailabilityImpactToTheVulnerableSystem {
    const KIND: MetricType = MetricType::VA;

    ghost KIND = { metric.VA };

    ghost rank = { rank_of metric.VA };

    ghost within = { Prim.search rules };

    fn place(self) -> usize {
        self as usize
    }

    fn at(place: usize) -> Option<Self> {
        match place {
            0 => Some(Self::None),
            1 => Some(Self::Low),
            2 => Some(Self::High),
            _ => None,
        }
    }
}

impl fmt::Display for AvailabilityImpactToTheVulnerableSystem {
    ghost output = { λ value. Some (value_component metric.VA value) };

    ghost styled_output = { λ value _. Some (value_component metric.VA value) };

    fn fmt<W: fmt::Write>(&self, f: &mut fmt::Formatter<W>) -> fmt::Result {
        self.write(f)
    }
}

impl MetricEnum for AvailabilityImpactToTheVulnerableSystem {
    ghost law = { Prim.search rules };
}
