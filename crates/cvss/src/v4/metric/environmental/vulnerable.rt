//! What the vulnerable system loses, in the user's own environment (v4.0 specification, section
//! 4.2).

ghost use Rattle.std.specs.Prelude.{Some};
ghost use Rattle.std.proofs.Common.{rules};
ghost use Rattle.cvss_base.specs.declared.v4.MetricType.TheVariants as metric;
ghost use Rattle.cvss.specs.SpellingsV4.{rank_of, value_component};

use crate::v4::metric::MetricEnum;
use cvss_metric::v4::{MetricType, MetricValue};
use std::fmt;

/// What Confidentiality Impact to the Vulnerable System is in the user's own environment (v4.0
/// specification, section 4.2).
#[derive(Clone, Copy, Debug, Default, PartialEq, Eq, PartialOrd, Ord)]
pub enum ModifiedConfidentialityImpactToTheVulnerableSystem {
    #[default]
    NotDefined,
    None,
    Low,
    High,
}

impl MetricValue for ModifiedConfidentialityImpactToTheVulnerableSystem {
    const KIND: MetricType = MetricType::MVC;

    ghost KIND = { metric.MVC };

    ghost rank = { rank_of metric.MVC };

    ghost within = { Prim.search rules };

    fn place(self) -> usize {
        self as usize
    }

    fn at(place: usize) -> Option<Self> {
        match place {
            0 => Some(Self::NotDefined),
            1 => Some(Self::None),
            2 => Some(Self::Low),
            3 => Some(Self::High),
            _ => None,
        }
    }
}

impl fmt::Display for ModifiedConfidentialityImpactToTheVulnerableSystem {
    ghost output = { λ value. Some (value_component metric.MVC value) };

    ghost styled_output = { λ value _. Some (value_component metric.MVC value) };

    fn fmt<W: fmt::Write>(&self, f: &mut fmt::Formatter<W>) -> fmt::Result {
        self.write(f)
    }
}

impl MetricEnum for ModifiedConfidentialityImpactToTheVulnerableSystem {
    ghost law = { Prim.search rules };
}

/// What Integrity Impact to the Vulnerable System is in the user's own environment (v4.0
/// specification, section 4.2).
#[derive(Clone, Copy, Debug, Default, PartialEq, Eq, PartialOrd, Ord)]
pub enum ModifiedIntegrityImpactToTheVulnerableSystem {
    #[default]
    NotDefined,
    None,
    Low,
    High,
}

impl MetricValue for ModifiedIntegrityImpactToTheVulnerableSystem {
    const KIND: MetricType = MetricType::MVI;

    ghost KIND = { metric.MVI };

    ghost rank = { rank_of metric.MVI };

    ghost within = { Prim.search rules };

    fn place(self) -> usize {
        self as usize
    }

    fn at(place: usize) -> Option<Self> {
        match place {
            0 => Some(Self::NotDefined),
            1 => Some(Self::None),
            2 => Some(Self::Low),
            3 => Some(Self::High),
            _ => None,
        }
    }
}

impl fmt::Display for ModifiedIntegrityImpactToTheVulnerableSystem {
    ghost output = { λ value. Some (value_component metric.MVI value) };

    ghost styled_output = { λ value _. Some (value_component metric.MVI value) };

    fn fmt<W: fmt::Write>(&self, f: &mut fmt::Formatter<W>) -> fmt::Result {
        self.write(f)
    }
}

impl MetricEnum for ModifiedIntegrityImpactToTheVulnerableSystem {
    ghost law = { Prim.search rules };
}

/// What Availability Impact to the Vulnerable System is in the user's own environment (v4.0
/// specification, section 4.2).
#[derive(Clone, Copy, Debug, Default, PartialEq, Eq, PartialOrd, Ord)]
pub enum ModifiedAvailabilityImpactToTheVulnerableSystem {
    #[default]
    NotDefined,
    None,
    Low,
    High,
}

impl MetricValue for ModifiedAvailabilityImpactToTheVulnerableSystem {
    const KIND: MetricType = MetricType::MVA;

    ghost KIND = { metric.MVA };

    ghost rank = { rank_of metric.MVA };

    ghost within = { Prim.search rules };

    fn place(self) -> usize {
        self as usize
    }

    fn at(place: usize) -> Option<Self> {
        match place {
            0 => Some(Self::NotDefined),
            1 => Some(Self::None),
            2 => Some(Self::Low),
            3 => Some(Self::High),
            _ => None,
        }
    }
}

impl fmt::Display for ModifiedAvailabilityImpactToTheVulnerableSystem {
    ghost output = { λ value. Some (value_component metric.MVA value) };

    ghost styled_output = { λ value _. Some (value_component metric.MVA value) };

    fn fmt<W: fmt::Write>(&self, f: &mut fmt::Formatter<W>) -> fmt::Result {
        self.write(f)
    }
}

impl MetricEnum for ModifiedAvailabilityImpactToTheVulnerableSystem {
    ghost law = { Prim.search rules };
}
