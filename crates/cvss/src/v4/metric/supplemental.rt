//! The supplemental metrics, which change no score (v4.0 specification, section 5). What an attacker can
//! reach, and what comes of an attack, are in a file of their own.

ghost use Rattle.std.specs.Prelude.{Some};
ghost use Rattle.std.proofs.Common.{rules};
ghost use Rattle.cvss_base.specs.declared.v4.MetricType.TheVariants as metric;
ghost use Rattle.cvss.specs.SpellingsV4.{rank_of, value_component};

mod consequence;

use crate::v4::metric::MetricEnum;
pub use consequence::{Automatable, Recovery, Safety, ValueDensity};
use cvss_metric::v4::{MetricType, MetricValue};
use std::fmt;

/// How hard it is to respond to the vulnerability (v4.0 specification, section 5.6).
#[derive(Clone, Copy, Debug, Default, PartialEq, Eq, PartialOrd, Ord)]
pub enum VulnerabilityResponseEffort {
    #[default]
    NotDefined,
    Low,
    Moderate,
    High,
}

impl MetricValue for VulnerabilityResponseEffort {
    const KIND: MetricType = MetricType::RE;

    ghost KIND = { metric.RE };

    ghost rank = { rank_of metric.RE };

    ghost within = { Prim.search rules };

    fn place(self) -> usize {
        self as usize
    }

    fn at(place: usize) -> Option<Self> {
        match place {
            0 => Some(Self::NotDefined),
            1 => Some(Self::Low),
            2 => Some(Self::Moderate),
            3 => Some(Self::High),
            _ => None,
        }
    }
}

impl fmt::Display for VulnerabilityResponseEffort {
    ghost output = { λ value. Some (value_component metric.RE value) };

    ghost styled_output = { λ value _. Some (value_component metric.RE value) };

    fn fmt<W: fmt::Write>(&self, f: &mut fmt::Formatter<W>) -> fmt::Result {
        self.write(f)
    }
}

impl MetricEnum for VulnerabilityResponseEffort {
    ghost law = { Prim.search rules };
}

/// How urgent the provider of the product takes the vulnerability to be (v4.0 specification,
/// section 5.3).
#[derive(Clone, Copy, Debug, Default, PartialEq, Eq, PartialOrd, Ord)]
pub enum ProviderUrgency {
    #[default]
    NotDefined,
    Red,
    Amber,
    Green,
    Clear,
}

impl MetricValue for ProviderUrgency {
    const KIND: MetricType = MetricType::U;

    ghost KIND = { metric.U };

    ghost rank = { rank_of metric.U };

    ghost within = { Prim.search rules };

    fn place(self) -> usize {
        self as usize
    }

    fn at(place: usize) -> Option<Self> {
        match place {
            0 => Some(Self::NotDefined),
            1 => Some(Self::Red),
            2 => Some(Self::Amber),
            3 => Some(Self::Green),
            4 => Some(Self::Clear),
            _ => None,
        }
    }
}

impl fmt::Display for ProviderUrgency {
    ghost output = { λ value. Some (value_component metric.U value) };

    ghost styled_output = { λ value _. Some (value_component metric.U value) };

    fn fmt<W: fmt::Write>(&self, f: &mut fmt::Formatter<W>) -> fmt::Result {
        self.write(f)
    }
}

impl MetricEnum for ProviderUrgency {
    ghost law = { Prim.search rules };
}
