//! Where the attack comes from and what it depends on (v3.1 specification, sections 2.1.1 and 2.1.2).

ghost use Rattle.std.specs.Prelude.{◌≡◌, Some};
ghost use Rattle.std.proofs.Common.{rules};
ghost use Rattle.cvss_base.specs.declared.v3.MetricType.TheVariants.{AV, AC, MAV, MAC};
ghost use Rattle.cvss_metric.specs.v3.Table.{metric_component, default_complexity};

use crate::v3::environmental::BaseValue;
use crate::v3::metric::{MetricType, MetricValue};
use std::fmt;

/// How near to the vulnerable component the attacker has to be (v3.1 specification, section 2.1.1).
#[derive(Clone, Copy, Debug, PartialEq, Eq, PartialOrd, Ord)]
pub enum AttackVector {
    Physical,
    Local,
    Adjacent,
    Network,
}

impl MetricValue for AttackVector {
    const KIND: MetricType = MetricType::AV;

    ghost KIND = { AV };

    ghost value = { λ metric. metric };

    fn row(self) -> (&'static str, Option<u64>) {
        match self {
            Self::Physical => ("P", Some(20)),
            Self::Local => ("L", Some(55)),
            Self::Adjacent => ("A", Some(62)),
            Self::Network => ("N", Some(85)),
        }
    }

    #[inline(always)]
    fn read_letter(letter: u8) -> Option<Self> {
        match letter {
            b'P' => Some(Self::Physical),
            b'L' => Some(Self::Local),
            b'A' => Some(Self::Adjacent),
            b'N' => Some(Self::Network),
            _ => None,
        }
    }
}

impl fmt::Display for AttackVector {
    ghost output = { λ metric. Some (metric_component AV metric) };

    ghost styled_output = { λ metric _. Some (metric_component AV metric) };

    fn fmt<W: fmt::Write>(&self, f: &mut fmt::Formatter<W>) -> fmt::Result {
        self.write(f)
    }
}

impl BaseValue for AttackVector {
    const MODIFIED_KIND: MetricType = MetricType::MAV;

    ghost MODIFIED_KIND = { MAV };

    ghost own_value = { λ metric. Some (record { kind = MAV; value = metric }) };

    ghost base_law = { Prim.search rules };
}

/// Whether an attack needs conditions beyond the attacker's control (v3.1 specification, section
/// 2.1.2).
#[derive(Clone, Copy, Debug, PartialEq, Eq, PartialOrd, Ord)]
pub enum AttackComplexity {
    High,
    Low,
}

impl Default for AttackComplexity {
    ghost is_default = { λ metric. metric ≡ default_complexity };

    fn default() -> Self {
        Self::High
    }
}

impl MetricValue for AttackComplexity {
    const KIND: MetricType = MetricType::AC;

    ghost KIND = { AC };

    ghost value = { λ metric. metric };

    fn row(self) -> (&'static str, Option<u64>) {
        match self {
            Self::High => ("H", Some(44)),
            Self::Low => ("L", Some(77)),
        }
    }

    #[inline(always)]
    fn read_letter(letter: u8) -> Option<Self> {
        match letter {
            b'H' => Some(Self::High),
            b'L' => Some(Self::Low),
            _ => None,
        }
    }
}

impl fmt::Display for AttackComplexity {
    ghost output = { λ metric. Some (metric_component AC metric) };

    ghost styled_output = { λ metric _. Some (metric_component AC metric) };

    fn fmt<W: fmt::Write>(&self, f: &mut fmt::Formatter<W>) -> fmt::Result {
        self.write(f)
    }
}

impl BaseValue for AttackComplexity {
    const MODIFIED_KIND: MetricType = MetricType::MAC;

    ghost MODIFIED_KIND = { MAC };

    ghost own_value = { λ metric. Some (record { kind = MAC; value = metric }) };

    ghost base_law = { Prim.search rules };
}
