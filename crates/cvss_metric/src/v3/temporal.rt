//! The temporal metrics (v3.1 specification, section 3).

ghost use Rattle.std.specs.Prelude.{Some};
ghost use Rattle.cvss_base.specs.declared.v3.MetricType.TheVariants.{E, RL, RC};
ghost use Rattle.cvss_metric.specs.v3.Table.{metric_component};

use crate::v3::metric::{MetricType, MetricValue};
use std::fmt;

/// How far techniques or code to exploit are developed (v3.1 specification, section 3.1).
#[derive(Clone, Copy, Debug, PartialEq, Eq, PartialOrd, Ord)]
pub enum ExploitCodeMaturity {
    NotDefined,
    High,
    Functional,
    ProofOfConcept,
    Unproven,
}

impl MetricValue for ExploitCodeMaturity {
    const KIND: MetricType = MetricType::E;

    ghost KIND = { E };

    ghost value = { λ metric. metric };

    fn row(self) -> (&'static str, Option<u64>) {
        match self {
            Self::NotDefined => ("X", Some(100)),
            Self::High => ("H", Some(100)),
            Self::Functional => ("F", Some(97)),
            Self::ProofOfConcept => ("P", Some(94)),
            Self::Unproven => ("U", Some(91)),
        }
    }

    #[inline(always)]
    fn read_letter(letter: u8) -> Option<Self> {
        match letter {
            b'X' => Some(Self::NotDefined),
            b'H' => Some(Self::High),
            b'F' => Some(Self::Functional),
            b'P' => Some(Self::ProofOfConcept),
            b'U' => Some(Self::Unproven),
            _ => None,
        }
    }
}

impl fmt::Display for ExploitCodeMaturity {
    ghost output = { λ metric. Some (metric_component E metric) };

    ghost styled_output = { λ metric _. Some (metric_component E metric) };

    fn fmt<W: fmt::Write>(&self, f: &mut fmt::Formatter<W>) -> fmt::Result {
        self.write(f)
    }
}

/// What is there to fix the vulnerability (v3.1 specification, section 3.2).
#[derive(Clone, Copy, Debug, PartialEq, Eq, PartialOrd, Ord)]
pub enum RemediationLevel {
    NotDefined,
    Unavailable,
    Workaround,
    TemporaryFix,
    OfficialFix,
}

impl MetricValue for RemediationLevel {
    const KIND: MetricType = MetricType::RL;

    ghost KIND = { RL };

    ghost value = { λ metric. metric };

    fn row(self) -> (&'static str, Option<u64>) {
        match self {
            Self::NotDefined => ("X", Some(100)),
            Self::Unavailable => ("U", Some(100)),
            Self::Workaround => ("W", Some(97)),
            Self::TemporaryFix => ("T", Some(96)),
            Self::OfficialFix => ("O", Some(95)),
        }
    }

    #[inline(always)]
    fn read_letter(letter: u8) -> Option<Self> {
        match letter {
            b'X' => Some(Self::NotDefined),
            b'U' => Some(Self::Unavailable),
            b'W' => Some(Self::Workaround),
            b'T' => Some(Self::TemporaryFix),
            b'O' => Some(Self::OfficialFix),
            _ => None,
        }
    }
}

impl fmt::Display for RemediationLevel {
    ghost output = { λ metric. Some (metric_component RL metric) };

    ghost styled_output = { λ metric _. Some (metric_component RL metric) };

    fn fmt<W: fmt::Write>(&self, f: &mut fmt::Formatter<W>) -> fmt::Result {
        self.write(f)
    }
}

/// How sure it is that the vulnerability exists, and its details (v3.1 specification, section 3.3).
#[derive(Clone, Copy, Debug, PartialEq, Eq, PartialOrd, Ord)]
pub enum ReportConfidence {
    NotDefined,
    Confirmed,
    Reasonable,
    Unknown,
}

impl MetricValue for ReportConfidence {
    const KIND: MetricType = MetricType::RC;

    ghost KIND = { RC };

    ghost value = { λ metric. metric };

    fn row(self) -> (&'static str, Option<u64>) {
        match self {
            Self::NotDefined => ("X", Some(100)),
            Self::Confirmed => ("C", Some(100)),
            Self::Reasonable => ("R", Some(96)),
            Self::Unknown => ("U", Some(92)),
        }
    }

    #[inline(always)]
    fn read_letter(letter: u8) -> Option<Self> {
        match letter {
            b'X' => Some(Self::NotDefined),
            b'C' => Some(Self::Confirmed),
            b'R' => Some(Self::Reasonable),
            b'U' => Some(Self::Unknown),
            _ => None,
        }
    }
}

impl fmt::Display for ReportConfidence {
    ghost output = { λ metric. Some (metric_component RC metric) };

    ghost styled_output = { λ metric _. Some (metric_component RC metric) };

    fn fmt<W: fmt::Write>(&self, f: &mut fmt::Formatter<W>) -> fmt::Result {
        self.write(f)
    }
}
