//! The impact on the component that suffers most (v3.1 specification, section 2.3).

ghost use Rattle.std.specs.Prelude.{Some};
ghost use Rattle.std.proofs.Common.{rules};
ghost use Rattle.cvss_base.specs.declared.v3.MetricType.TheVariants.{C, I, A, MC, MI, MA};
ghost use Rattle.cvss_metric.specs.v3.Table.{metric_component};

use crate::v3::environmental::BaseValue;
use crate::v3::metric::{MetricType, MetricValue};
use std::fmt;

/// What becomes known to those who may not know it (v3.1 specification, section 2.3.1).
#[derive(Clone, Copy, Debug, PartialEq, Eq, PartialOrd, Ord)]
pub enum Confidentiality {
    None,
    Low,
    High,
}

impl MetricValue for Confidentiality {
    const KIND: MetricType = MetricType::C;

    ghost KIND = { C };

    ghost value = { λ metric. metric };

    fn row(self) -> (&'static str, Option<u64>) {
        match self {
            Self::None => ("N", Some(0)),
            Self::Low => ("L", Some(22)),
            Self::High => ("H", Some(56)),
        }
    }

    #[inline(always)]
    fn read_letter(letter: u8) -> Option<Self> {
        match letter {
            b'N' => Some(Self::None),
            b'L' => Some(Self::Low),
            b'H' => Some(Self::High),
            _ => None,
        }
    }
}

impl fmt::Display for Confidentiality {
    ghost output = { λ metric. Some (metric_component C metric) };

    ghost styled_output = { λ metric _. Some (metric_component C metric) };

    fn fmt<W: fmt::Write>(&self, f: &mut fmt::Formatter<W>) -> fmt::Result {
        self.write(f)
    }
}

impl BaseValue for Confidentiality {
    const MODIFIED_KIND: MetricType = MetricType::MC;

    ghost MODIFIED_KIND = { MC };

    ghost own_value = { λ metric. Some (record { kind = MC; value = metric }) };

    ghost base_law = { Prim.search rules };
}

/// What can no longer be trusted to be genuine (v3.1 specification, section 2.3.2).
#[derive(Clone, Copy, Debug, PartialEq, Eq, PartialOrd, Ord)]
pub enum Integrity {
    None,
    Low,
    High,
}

impl MetricValue for Integrity {
    const KIND: MetricType = MetricType::I;

    ghost KIND = { I };

    ghost value = { λ metric. metric };

    fn row(self) -> (&'static str, Option<u64>) {
        match self {
            Self::None => ("N", Some(0)),
            Self::Low => ("L", Some(22)),
            Self::High => ("H", Some(56)),
        }
    }

    #[inline(always)]
    fn read_letter(letter: u8) -> Option<Self> {
        match letter {
            b'N' => Some(Self::None),
            b'L' => Some(Self::Low),
            b'H' => Some(Self::High),
            _ => None,
        }
    }
}

impl fmt::Display for Integrity {
    ghost output = { λ metric. Some (metric_component I metric) };

    ghost styled_output = { λ metric _. Some (metric_component I metric) };

    fn fmt<W: fmt::Write>(&self, f: &mut fmt::Formatter<W>) -> fmt::Result {
        self.write(f)
    }
}

impl BaseValue for Integrity {
    const MODIFIED_KIND: MetricType = MetricType::MI;

    ghost MODIFIED_KIND = { MI };

    ghost own_value = { λ metric. Some (record { kind = MI; value = metric }) };

    ghost base_law = { Prim.search rules };
}

/// What can no longer be used (v3.1 specification, section 2.3.3).
#[derive(Clone, Copy, Debug, PartialEq, Eq, PartialOrd, Ord)]
pub enum Availability {
    None,
    Low,
    High,
}

impl MetricValue for Availability {
    const KIND: MetricType = MetricType::A;

    ghost KIND = { A };

    ghost value = { λ metric. metric };

    fn row(self) -> (&'static str, Option<u64>) {
        match self {
            Self::None => ("N", Some(0)),
            Self::Low => ("L", Some(22)),
            Self::High => ("H", Some(56)),
        }
    }

    #[inline(always)]
    fn read_letter(letter: u8) -> Option<Self> {
        match letter {
            b'N' => Some(Self::None),
            b'L' => Some(Self::Low),
            b'H' => Some(Self::High),
            _ => None,
        }
    }
}

impl fmt::Display for Availability {
    ghost output = { λ metric. Some (metric_component A metric) };

    ghost styled_output = { λ metric _. Some (metric_component A metric) };

    fn fmt<W: fmt::Write>(&self, f: &mut fmt::Formatter<W>) -> fmt::Result {
        self.write(f)
    }
}

impl BaseValue for Availability {
    const MODIFIED_KIND: MetricType = MetricType::MA;

    ghost MODIFIED_KIND = { MA };

    ghost own_value = { λ metric. Some (record { kind = MA; value = metric }) };

    ghost base_law = { Prim.search rules };
}
