//! Where the attack comes from, what it depends on and what it needs of others, in the user's own
//! environment (v4.0 specification, section 4.2).

ghost use Rattle.std.specs.Prelude.{Some};
ghost use Rattle.std.proofs.Common.{rules};
ghost use Rattle.cvss_base.specs.declared.v4.MetricType.TheVariants as metric;
ghost use Rattle.cvss.specs.SpellingsV4.{rank_of, value_component};

use crate::v4::metric::MetricEnum;
use cvss_metric::v4::{MetricType, MetricValue};
use std::fmt;

/// What Attack Vector is in the user's own environment (v4.0 specification, section 4.2).
#[derive(Clone, Copy, Debug, Default, PartialEq, Eq, PartialOrd, Ord)]
pub enum ModifiedAttackVector {
    Physical,
    Local,
    Adjacent,
    Network,
    #[default]
    NotDefined,
}

impl MetricValue for ModifiedAttackVector {
    const KIND: MetricType = MetricType::MAV;

    ghost KIND = { metric.MAV };

    ghost rank = { rank_of metric.MAV };

    ghost within = { Prim.search rules };

    fn place(self) -> usize {
        self as usize
    }

    fn at(place: usize) -> Option<Self> {
        match place {
            0 => Some(Self::Physical),
            1 => Some(Self::Local),
            2 => Some(Self::Adjacent),
            3 => Some(Self::Network),
            4 => Some(Self::NotDefined),
            _ => None,
        }
    }
}

impl fmt::Display for ModifiedAttackVector {
    ghost output = { λ value. Some (value_component metric.MAV value) };

    ghost styled_output = { λ value _. Some (value_component metric.MAV value) };

    fn fmt<W: fmt::Write>(&self, f: &mut fmt::Formatter<W>) -> fmt::Result {
        self.write(f)
    }
}

impl MetricEnum for ModifiedAttackVector {
    ghost law = { Prim.search rules };
}

/// What Attack Complexity is in the user's own environment (v4.0 specification, section 4.2).
#[derive(Clone, Copy, Debug, Default, PartialEq, Eq, PartialOrd, Ord)]
pub enum ModifiedAttackComplexity {
    #[default]
    NotDefined,
    High,
    Low,
}

impl MetricValue for ModifiedAttackComplexity {
    const KIND: MetricType = MetricType::MAC;

    ghost KIND = { metric.MAC };

    ghost rank = { rank_of metric.MAC };

    ghost within = { Prim.search rules };

    fn place(self) -> usize {
        self as usize
    }

    fn at(place: usize) -> Option<Self> {
        match place {
            0 => Some(Self::NotDefined),
            1 => Some(Self::High),
            2 => Some(Self::Low),
            _ => None,
        }
    }
}

impl fmt::Display for ModifiedAttackComplexity {
    ghost output = { λ value. Some (value_component metric.MAC value) };

    ghost styled_output = { λ value _. Some (value_component metric.MAC value) };

    fn fmt<W: fmt::Write>(&self, f: &mut fmt::Formatter<W>) -> fmt::Result {
        self.write(f)
    }
}

impl MetricEnum for ModifiedAttackComplexity {
    ghost law = { Prim.search rules };
}

/// What Attack Requirements is in the user's own environment (v4.0 specification, section 4.2).
#[derive(Clone, Copy, Debug, Default, PartialEq, Eq, PartialOrd, Ord)]
pub enum ModifiedAttackRequirements {
    #[default]
    NotDefined,
    Present,
    None,
}

impl MetricValue for ModifiedAttackRequirements {
    const KIND: MetricType = MetricType::MAT;

    ghost KIND = { metric.MAT };

    ghost rank = { rank_of metric.MAT };

    ghost within = { Prim.search rules };

    fn place(self) -> usize {
        self as usize
    }

    fn at(place: usize) -> Option<Self> {
        match place {
            0 => Some(Self::NotDefined),
            1 => Some(Self::Present),
            2 => Some(Self::None),
            _ => None,
        }
    }
}

impl fmt::Display for ModifiedAttackRequirements {
    ghost output = { λ value. Some (value_component metric.MAT value) };

    ghost styled_output = { λ value _. Some (value_component metric.MAT value) };

    fn fmt<W: fmt::Write>(&self, f: &mut fmt::Formatter<W>) -> fmt::Result {
        self.write(f)
    }
}

impl MetricEnum for ModifiedAttackRequirements {
    ghost law = { Prim.search rules };
}

/// What Privileges Required is in the user's own environment (v4.0 specification, section 4.2).
#[derive(Clone, Copy, Debug, Default, PartialEq, Eq, PartialOrd, Ord)]
pub enum ModifiedPrivilegesRequired {
    #[default]
    NotDefined,
    High,
    Low,
    None,
}

impl MetricValue for ModifiedPrivilegesRequired {
    const KIND: MetricType = MetricType::MPR;

    ghost KIND = { metric.MPR };

    ghost rank = { rank_of metric.MPR };

    ghost within = { Prim.search rules };

    fn place(self) -> usize {
        self as usize
    }

    fn at(place: usize) -> Option<Self> {
        match place {
            0 => Some(Self::NotDefined),
            1 => Some(Self::High),
            2 => Some(Self::Low),
            3 => Some(Self::None),
            _ => None,
        }
    }
}

impl fmt::Display for ModifiedPrivilegesRequired {
    ghost output = { λ value. Some (value_component metric.MPR value) };

    ghost styled_output = { λ value _. Some (value_component metric.MPR value) };

    fn fmt<W: fmt::Write>(&self, f: &mut fmt::Formatter<W>) -> fmt::Result {
        self.write(f)
    }
}

impl MetricEnum for ModifiedPrivilegesRequired {
    ghost law = { Prim.search rules };
}

/// What User Interaction is in the user's own environment (v4.0 specification, section 4.2).
#[derive(Clone, Copy, Debug, Default, PartialEq, Eq, PartialOrd, Ord)]
pub enum ModifiedUserInteraction {
    #[default]
    NotDefined,
    Active,
    Passive,
    None,
}

impl MetricValue for ModifiedUserInteraction {
    const KIND: MetricType = MetricType::MUI;

    ghost KIND = { metric.MUI };

    ghost rank = { rank_of metric.MUI };

    ghost within = { Prim.search rules };

    fn place(self) -> usize {
        self as usize
    }

    fn at(place: usize) -> Option<Self> {
        match place {
            0 => Some(Self::NotDefined),
            1 => Some(Self::Active),
            2 => Some(Self::Passive),
            3 => Some(Self::None),
            _ => None,
        }
    }
}

impl fmt::Display for ModifiedUserInteraction {
    ghost output = { λ value. Some (value_component metric.MUI value) };

    ghost styled_output = { λ value _. Some (value_component metric.MUI value) };

    fn fmt<W: fmt::Write>(&self, f: &mut fmt::Formatter<W>) -> fmt::Result {
        self.write(f)
    }
}

impl MetricEnum for ModifiedUserInteraction {
    ghost law = { Prim.search rules };
}
