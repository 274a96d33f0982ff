//! Where the attack comes from, what it depends on and what it needs of others (v4.0 specification,
//! section 2.1).

ghost use Rattle.std.specs.Prelude.{Some};
ghost use Rattle.std.proofs.Common.{rules};
ghost use Rattle.cvss_base.specs.declared.v4.MetricType.TheVariants as metric;
ghost use Rattle.cvss.specs.SpellingsV4.{rank_of, value_component};

use crate::v4::metric::MetricEnum;
use cvss_metric::v4::{MetricType, MetricValue};
use std::fmt;

/// How near to the vulnerable system the attacker has to be (v4.0 specification, section 2.1.1).
#[derive(Clone, Copy, Debug, Default, PartialEq, Eq, PartialOrd, Ord)]
pub enum AttackVector {
    Physical,
    Local,
    Adjacent,
    #[default]
    Network,
}

impl MetricValue for AttackVector {
    const KIND: MetricType = MetricType::AV;

    ghost KIND = { metric.AV };

    ghost rank = { rank_of metric.AV };

    ghost within = { Prim.search rules };

    fn place(self) -> usize {
        self as usize
    }

    fn at(place: usize) -> Option<Self> {
        match place {
            0 => Some(Self::Physical),
            1 => Some(Self::Local),
            2 => Some(Self::Adjacent),
            3 => Some(Self::Network),
            _ => None,
        }
    }
}

impl fmt::Display for AttackVector {
    ghost output = { λ value. Some (value_component metric.AV value) };

    ghost styled_output = { λ value _. Some (value_component metric.AV value) };

    fn fmt<W: fmt::Write>(&self, f: &mut fmt::Formatter<W>) -> fmt::Result {
        self.write(f)
    }
}

impl MetricEnum for AttackVector {
    ghost law = { Prim.search rules };
}

/// Whether the attacker has to overcome defences that are built in (v4.0 specification, section
/// 2.1.2).
#[derive(Clone, Copy, Debug, Default, PartialEq, Eq, PartialOrd, Ord)]
pub enum AttackComplexity {
    High,
    #[default]
    Low,
}

impl MetricValue for AttackComplexity {
    const KIND: MetricType = MetricType::AC;

    ghost KIND = { metric.AC };

    ghost rank = { rank_of metric.AC };

    ghost within = { Prim.search rules };

    fn place(self) -> usize {
        self as usize
    }

    fn at(place: usize) -> Option<Self> {
        match place {
            0 => Some(Self::High),
            1 => Some(Self::Low),
            _ => None,
        }
    }
}

impl fmt::Display for AttackComplexity {
    ghost output = { λ value. Some (value_component metric.AC value) };

    ghost styled_output = { λ value _. Some (value_component metric.AC value) };

    fn fmt<W: fmt::Write>(&self, f: &mut fmt::Formatter<W>) -> fmt::Result {
        self.write(f)
    }
}

impl MetricEnum for AttackComplexity {
    ghost law = { Prim.search rules };
}

/// Whether the attack needs conditions of the vulnerable system that not each deployment meets
/// (v4.0 specification, section 2.1.3).
#[derive(Clone, Copy, Debug, Default, PartialEq, Eq, PartialOrd, Ord)]
pub enum AttackRequirements {
    Present,
    #[default]
    None,
}

impl MetricValue for AttackRequirements {
    const KIND: MetricType = MetricType::AT;

    ghost KIND = { metric.AT };

    ghost rank = { rank_of metric.AT };

    ghost within = { Prim.search rules };

    fn place(self) -> usize {
        self as usize
    }

    fn at(place: usize) -> Option<Self> {
        match place {
            0 => Some(Self::Present),
            1 => Some(Self::None),
            _ => None,
        }
    }
}

impl fmt::Display for AttackRequirements {
    ghost output = { λ value. Some (value_component metric.AT value) };

    ghost styled_output = { λ value _. Some (value_component metric.AT value) };

    fn fmt<W: fmt::Write>(&self, f: &mut fmt::Formatter<W>) -> fmt::Result {
        self.write(f)
    }
}

impl MetricEnum for AttackRequirements {
    ghost law = { Prim.search rules };
}

/// Which privileges the attacker needs before the attack (v4.0 specification, section 2.1.4).
#[derive(Clone, Copy, Debug, Default, PartialEq, Eq, PartialOrd, Ord)]
pub enum PrivilegesRequired {
    High,
    Low,
    #[default]
    None,
}

impl MetricValue for PrivilegesRequired {
    const KIND: MetricType = MetricType::PR;

    ghost KIND = { metric.PR };

    ghost rank = { rank_of metric.PR };

    ghost within = { Prim.search rules };

    fn place(self) -> usize {
        self as usize
    }

    fn at(place: usize) -> Option<Self> {
        match place {
            0 => Some(Self::High),
            1 => Some(Self::Low),
            2 => Some(Self::None),
            _ => None,
        }
    }
}

impl fmt::Display for PrivilegesRequired {
    ghost output = { λ value. Some (value_component metric.PR value) };

    ghost styled_output = { λ value _. Some (value_component metric.PR value) };

    fn fmt<W: fmt::Write>(&self, f: &mut fmt::Formatter<W>) -> fmt::Result {
        self.write(f)
    }
}

impl MetricEnum for PrivilegesRequired {
    ghost law = { Prim.search rules };
}

/// Whether somebody other than the attacker has to take part (v4.0 specification, section 2.1.5).
#[derive(Clone, Copy, Debug, Default, PartialEq, Eq, PartialOrd, Ord)]
pub enum UserInteraction {
    Active,
    Passive,
    #[default]
    None,
}

impl MetricValue for UserInteraction {
    const KIND: MetricType = MetricType::UI;

    ghost KIND = { metric.UI };

    ghost rank = { rank_of metric.UI };

    ghost within = { Prim.search rules };

    fn place(self) -> usize {
        self as usize
    }

    fn at(place: usize) -> Option<Self> {
        match place {
            0 => Some(Self::Active),
            1 => Some(Self::Passive),
            2 => Some(Self::None),
            _ => None,
        }
    }
}

impl fmt::Display for UserInteraction {
    ghost output = { λ value. Some (value_component metric.UI value) };

    ghost styled_output = { λ value _. Some (value_component metric.UI value) };

    fn fmt<W: fmt::Write>(&self, f: &mut fmt::Formatter<W>) -> fmt::Result {
        self.write(f)
    }
}

impl MetricEnum for UserInteraction {
    ghost law = { Prim.search rules };
}
