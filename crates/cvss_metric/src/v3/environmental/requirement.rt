//! The security requirements (v3.1 specification, section 4.1).

ghost use Rattle.std.specs.Prelude.{Some};
ghost use Rattle.cvss_base.specs.declared.v3.MetricType.TheVariants.{CR, IR, AR};
ghost use Rattle.cvss_metric.specs.v3.Table.{metric_component};

use crate::v3::metric::{MetricType, MetricValue};
use std::fmt;

/// How much confidentiality matters to the user of the component (v3.1 specification, section 4.1).
#[derive(Clone, Copy, Debug, PartialEq, Eq, PartialOrd, Ord)]
pub enum ConfidentialityRequirement {
    NotDefined,
    High,
    Medium,
    Low,
}

impl MetricValue for ConfidentialityRequirement {
    const KIND: MetricType = MetricType::CR;

    ghost KIND = { CR };

    ghost value = { λ metric. metric };

    fn row(self) -> (&'static str, Option<u64>) {
        match self {
            Self::NotDefined => ("X", Some(100)),
            Self::High => ("H", Some(150)),
            Self::Medium => ("M", Some(100)),
            Self::Low => ("L", Some(50)),
        }
    }

    #[inline(always)]
    fn read_letter(letter: u8) -> Option<Self> {
        match letter {
            b'X' => Some(Self::NotDefined),
            b'H' => Some(Self::High),
            b'M' => Some(Self::Medium),
            b'L' => Some(Self::Low),
            _ => None,
        }
    }
}

impl fmt::Display for ConfidentialityRequirement {
    ghost output = { λ metric. Some (metric_component CR metric) };

    ghost styled_output = { λ metric _. Some (metric_component CR metric) };

    fn fmt<W: fmt::Write>(&self, f: &mut fmt::Formatter<W>) -> fmt::Result {
        self.write(f)
    }
}

/// How much integrity matters to the user of the component (v3.1 specification, section 4.1).
#[derive(Clone, Copy, Debug, PartialEq, Eq, PartialOrd, Ord)]
pub enum IntegrityRequirement {
    NotDefined,
    High,
    Medium,
    Low,
}

impl MetricValue for IntegrityRequirement {
    const KIND: MetricType = MetricType::IR;

    ghost KIND = { IR };

    ghost value = { λ metric. metric };

    fn row(self) -> (&'static str, Option<u64>) {
        match self {
            Self::NotDefined => ("X", Some(100)),
            Self::High => ("H", Some(150)),
            Self::Medium => ("M", Some(100)),
            Self::Low => ("L", Some(50)),
        }
    }

    #[inline(always)]
    fn read_letter(letter: u8) -> Option<Self> {
        match letter {
            b'X' => Some(Self::NotDefined),
            b'H' => Some(Self::High),
            b'M' => Some(Self::Medium),
            b'L' => Some(Self::Low),
            _ => None,
        }
    }
}

impl fmt::Display for IntegrityRequirement {
    ghost output = { λ metric. Some (metric_component IR metric) };

    ghost styled_output = { λ metric _. Some (metric_component IR metric) };

    fn fmt<W: fmt::Write>(&self, f: &mut fmt::Formatter<W>) -> fmt::Result {
        self.write(f)
    }
}

/// How much availability matters to the user of the component (v3.1 specification, section 4.1).
#[derive(Clone, Copy, Debug, PartialEq, Eq, PartialOrd, Ord)]
pub enum AvailabilityRequirement {
    NotDefined,
    High,
    Medium,
    Low,
}

impl MetricValue for AvailabilityRequirement {
    const KIND: MetricType = MetricType::AR;

    ghost KIND = { AR };

    ghost value = { λ metric. metric };

    fn row(self) -> (&'static str, Option<u64>) {
        match self {
            Self::NotDefined => ("X", Some(100)),
            Self::High => ("H", Some(150)),
            Self::Medium => ("M", Some(100)),
            Self::Low => ("L", Some(50)),
        }
    }

    #[inline(always)]
    fn read_letter(letter: u8) -> Option<Self> {
        match letter {
            b'X' => Some(Self::NotDefined),
            b'H' => Some(Self::High),
            b'M' => Some(Self::Medium),
            b'L' => Some(Self::Low),
            _ => None,
        }
    }
}

impl fmt::Display for AvailabilityRequirement {
    ghost output = { λ metric. Some (metric_component AR metric) };

    ghost styled_output = { λ metric _. Some (metric_component AR metric) };

    fn fmt<W: fmt::Write>(&self, f: &mut fmt::Formatter<W>) -> fmt::Result {
        self.write(f)
    }
}
