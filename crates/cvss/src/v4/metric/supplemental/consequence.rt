//! What an attacker can reach, and what comes of an attack (v4.0 specification, sections 5.1, 5.2,
//! 5.4 and 5.5).

ghost use Rattle.std.specs.Prelude.{Some};
ghost use Rattle.std.proofs.Common.{rules};
ghost use Rattle.cvss_base.specs.declared.v4.MetricType.TheVariants as metric;
ghost use Rattle.cvss.specs.SpellingsV4.{rank_of, value_component};

use crate::v4::metric::MetricEnum;
use cvss_metric::v4::{MetricType, MetricValue};
use std::fmt;

/// Whether persons may come to harm (v4.0 specification, section 5.1).
#[derive(Clone, Copy, Debug, Default, PartialEq, Eq, PartialOrd, Ord)]
pub enum Safety {
    #[default]
    NotDefined,
    Present,
    Negligible,
}

impl MetricValue for Safety {
    const KIND: MetricType = MetricType::S;

    ghost KIND = { metric.S };

    ghost rank = { rank_of metric.S };

    ghost within = { Prim.search rules };

    fn place(self) -> usize {
        self as usize
    }

    fn at(place: usize) -> Option<Self> {
        match place {
            0 => Some(Self::NotDefined),
            1 => Some(Self::Present),
            2 => Some(Self::Negligible),
            _ => None,
        }
    }
}

impl fmt::Display for Safety {
    ghost output = { λ value. Some (value_component metric.S value) };

    ghost styled_output = { λ value _. Some (value_component metric.S value) };

    fn fmt<W: fmt::Write>(&self, f: &mut fmt::Formatter<W>) -> fmt::Result {
        self.write(f)
    }
}

impl MetricEnum for Safety {
    ghost law = { Prim.search rules };
}

/// Whether the system recovers after an attack (v4.0 specification, section 5.4).
#[derive(Clone, Copy, Debug, Default, PartialEq, Eq, PartialOrd, Ord)]
pub enum Recovery {
    #[default]
    NotDefined,
    Automatic,
    User,
    Irrecoverable,
}

impl MetricValue for Recovery {
    const KIND: MetricType = MetricType::R;

    ghost KIND = { metric.R };

    ghost rank = { rank_of metric.R };

    ghost within = { Prim.search rules };

    fn place(self) -> usize {
        self as usize
    }

    fn at(place: usize) -> Option<Self> {
        match place {
            0 => Some(Self::NotDefined),
            1 => Some(Self::Automatic),
            2 => Some(Self::User),
            3 => Some(Self::Irrecoverable),
            _ => None,
        }
    }
}

impl fmt::Display for Recovery {
    ghost output = { λ value. Some (value_component metric.R value) };

    ghost styled_output = { λ value _. Some (value_component metric.R value) };

    fn fmt<W: fmt::Write>(&self, f: &mut fmt::Formatter<W>) -> fmt::Result {
        self.write(f)
    }
}

impl MetricEnum for Recovery {
    ghost law = { Prim.search rules };
}

/// Whether attacks on many targets can be automated (v4.0 specification, section 5.2).
#[derive(Clone, Copy, Debug, Default, PartialEq, Eq, PartialOrd, Ord)]
pub enum Automatable {
    #[default]
    NotDefined,
    Yes,
    No,
}

impl MetricValue for Automatable {
    const KIND: MetricType = MetricType::AU;

    ghost KIND = { metric.AU };

    ghost rank = { rank_of metric.AU };

    ghost within = { Prim.search rules };

    fn place(self) -> usize {
        self as usize
    }

    fn at(place: usize) -> Option<Self> {
        match place {
            0 => Some(Self::NotDefined),
            1 => Some(Self::Yes),
            2 => Some(Self::No),
            _ => None,
        }
    }
}

impl fmt::Display for Automatable {
    ghost output = { λ value. Some (value_component metric.AU value) };

    ghost styled_output = { λ value _. Some (value_component metric.AU value) };

    fn fmt<W: fmt::Write>(&self, f: &mut fmt::Formatter<W>) -> fmt::Result {
        self.write(f)
    }
}

impl MetricEnum for Automatable {
    ghost law = { Prim.search rules };
}

/// How many resources the attacker gains by one attack (v4.0 specification, section 5.5).
#[derive(Clone, Copy, Debug, Default, PartialEq, Eq, PartialOrd, Ord)]
pub enum ValueDensity {
    #[default]
    NotDefined,
    Diffuse,
    Concentrated,
}

impl MetricValue for ValueDensity {
    const KIND: MetricType = MetricType::V;

    ghost KIND = { metric.V };

    ghost rank = { rank_of metric.V };

    ghost within = { Prim.search rules };

    fn place(self) -> usize {
        self as usize
    }

    fn at(place: usize) -> Option<Self> {
        match place {
            0 => Some(Self::NotDefined),
            1 => Some(Self::Diffuse),
            2 => Some(Self::Concentrated),
            _ => None,
        }
    }
}

impl fmt::Display for ValueDensity {
    ghost output = { λ value. Some (value_component metric.V value) };

    ghost styled_output = { λ value _. Some (value_component metric.V value) };

    fn fmt<W: fmt::Write>(&self, f: &mut fmt::Formatter<W>) -> fmt::Result {
        self.write(f)
    }
}

impl MetricEnum for ValueDensity {
    ghost law = { Prim.search rules };
}
