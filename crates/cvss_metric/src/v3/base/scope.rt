//! How far the impact goes (v3.1 specification, section 2.2).

ghost use Rattle.std.specs.Prelude.{◌≡◌, ◌↔◌, IsTrue, Some};
ghost use Rattle.cvss_base.specs.declared.v3.MetricType.TheVariants.{S};
ghost use Rattle.cvss_metric.specs.v3.Table.{metric_component};

use crate::v3::metric::{MetricType, MetricValue};
use std::fmt;

/// Whether the impact goes beyond the vulnerable component's security authority (v3.1 specification,
/// section 2.2).
#[derive(Clone, Copy, Debug, PartialEq, Eq, PartialOrd, Ord)]
pub enum Scope {
    Unchanged,
    Changed,
}

impl MetricValue for Scope {
    const KIND: MetricType = MetricType::S;

    ghost KIND = { S };

    ghost value = { λ metric. metric };

    fn row(self) -> (&'static str, Option<u64>) {
        match self {
            Self::Unchanged => ("U", None),
            Self::Changed => ("C", None),
        }
    }

    #[inline(always)]
    fn read_letter(letter: u8) -> Option<Self> {
        match letter {
            b'U' => Some(Self::Unchanged),
            b'C' => Some(Self::Changed),
            _ => None,
        }
    }
}

impl fmt::Display for Scope {
    ghost output = { λ metric. Some (metric_component S metric) };

    ghost styled_output = { λ metric _. Some (metric_component S metric) };

    fn fmt<W: fmt::Write>(&self, f: &mut fmt::Formatter<W>) -> fmt::Result {
        self.write(f)
    }
}

impl Scope {
    /// Whether the impact goes beyond the vulnerable component's security authority.
    pub fn is_changed(self) -> bool
        ensures { IsTrue result ↔ (self ≡ Scope.Changed) }
    {
        self == Self::Changed
    }
}
