//! The temporal metrics (guide, section 2.2).

ghost use Rattle.std.specs.Prelude.{Some};
ghost use Rattle.cvss_base.specs.declared.v2.MetricType.TheVariants.{E, RL, RC};
ghost use Rattle.cvss_metric.specs.v2.Table.{metric_component};

use crate::v2::metric::{MetricType, MetricValue};
use std::fmt;

/// How far techniques or code to exploit are developed (guide, section 2.2.1).
#[derive(Clone, Copy, Debug, PartialEq, Eq, PartialOrd, Ord)]
pub enum Exploitability {
    Unproven,
    ProofOfConcept,
    Functional,
    High,
    NotDefined,
}

impl MetricValue for Exploitability {
    const KIND: MetricType = MetricType::E;

    ghost KIND = { E };

    ghost value = { λ metric. metric };

    fn values() -> &'static [Self] {
        use Exploitability::*;
        &[Unproven, ProofOfConcept, Functional, High, NotDefined]
    }

    fn row(self) -> (&'static str, u64) {
        match self {
            Self::Unproven => ("U", 850),
            Self::ProofOfConcept => ("POC", 900),
            Self::Functional => ("F", 950),
            Self::High => ("H", 1000),
            Self::NotDefined => ("ND", 1000),
        }
    }
}

impl fmt::Display for Exploitability {
    ghost output = { λ metric. Some (metric_component E metric) };

    ghost styled_output = { λ metric _. Some (metric_component E metric) };

    fn fmt<W: fmt::Write>(&self, f: &mut fmt::Formatter<W>) -> fmt::Result {
        self.write(f)
    }
}

/// How far the remedy is (guide, section 2.2.2).
#[derive(Clone, Copy, Debug, PartialEq, Eq, PartialOrd, Ord)]
pub enum RemediationLevel {
    OfficialFix,
    TemporaryFix,
    Workaround,
    Unavailable,
    NotDefined,
}

impl MetricValue for RemediationLevel {
    const KIND: MetricType = MetricType::RL;

    ghost KIND = { RL };

    ghost value = { λ metric. metric };

    fn values() -> &'static [Self] {
        use RemediationLevel::*;
        &[
            OfficialFix,
            TemporaryFix,
            Workaround,
            Unavailable,
            NotDefined,
        ]
    }

    fn row(self) -> (&'static str, u64) {
        match self {
            Self::OfficialFix => ("OF", 870),
            Self::TemporaryFix => ("TF", 900),
            Self::Workaround => ("W", 950),
            Self::Unavailable => ("U", 1000),
            Self::NotDefined => ("ND", 1000),
        }
    }
}

impl fmt::Display for RemediationLevel {
    ghost output = { λ metric. Some (metric_component RL metric) };

    ghost styled_output = { λ metric _. Some (metric_component RL metric) };

    fn fmt<W: fmt::Write>(&self, f: &mut fmt::Formatter<W>) -> fmt::Result {
        self.write(f)
    }
}

/// How sure the report is (guide, section 2.2.3).
#[derive(Clone, Copy, Debug, PartialEq, Eq, PartialOrd, Ord)]
pub enum ReportConfidence {
    Unconfirmed,
    Uncorroborated,
    Confirmed,
    NotDefined,
}

impl MetricValue for ReportConfidence {
    const KIND: MetricType = MetricType::RC;

    ghost KIND = { RC };

    ghost value = { λ metric. metric };

    fn values() -> &'static [Self] {
        use ReportConfidence::*;
        &[Unconfirmed, Uncorroborated, Confirmed, NotDefined]
    }

    fn row(self) -> (&'static str, u64) {
        match self {
            Self::Unconfirmed => ("UC", 900),
            Self::Uncorroborated => ("UR", 950),
            Self::Confirmed => ("C", 1000),
            Self::NotDefined => ("ND", 1000),
        }
    }
}

impl fmt::Display for ReportConfidence {
    ghost output = { λ metric. Some (metric_component RC metric) };

    ghost styled_output = { λ metric _. Some (metric_component RC metric) };

    fn fmt<W: fmt::Write>(&self, f: &mut fmt::Formatter<W>) -> fmt::Result {
        self.write(f)
    }
}
