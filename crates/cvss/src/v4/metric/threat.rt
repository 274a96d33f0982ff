//! The threat metric (v4.0 specification, section 3).

ghost use Rattle.std.specs.Prelude.{Some};
ghost use Rattle.std.proofs.Common.{rules};
ghost use Rattle.cvss_base.specs.declared.v4.MetricType.TheVariants as metric;
ghost use Rattle.cvss.specs.SpellingsV4.{rank_of, value_component};

use crate::v4::metric::MetricEnum;
use cvss_metric::v4::{MetricType, MetricValue};
use std::fmt;

/// How far attacks or code to exploit are known (v4.0 specification, section 3.1).
#[derive(Clone, Copy, Debug, Default, PartialEq, Eq, PartialOrd, Ord)]
pub enum ExploitMaturity {
    #[default]
    NotDefined,
    Unreported,
    ProofOfConcept,
    Attacked,
}

impl MetricValue for ExploitMaturity {
    const KIND: MetricType = MetricType::E;

    ghost KIND = { metric.E };

    ghost rank = { rank_of metric.E };

    ghost within = { Prim.search rules };

    fn place(self) -> usize {
        self as usize
    }

    fn at(place: usize) -> Option<Self> {
        match place {
            0 => Some(Self::NotDefined),
            1 => Some(Self::Unreported),
            2 => Some(Self::ProofOfConcept),
            3 => Some(Self::Attacked),
            _ => None,
        }
    }
}

impl fmt::Display for ExploitMaturity {
    ghost output = { λ value. Some (value_component metric.E value) };

    ghost styled_output = { λ value _. Some (value_component metric.E value) };

    fn fmt<W: fmt::Write>(&self, f: &mut fmt::Formatter<W>) -> fmt::Result {
        self.write(f)
    }
}

impl MetricEnum for ExploitMaturity {
    ghost law = { Prim.search rules };
}
