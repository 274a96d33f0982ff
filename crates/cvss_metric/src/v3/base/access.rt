//! What the attack needs of others: privileges, and somebody who takes part (v3.1 specification,
//! sections 2.1.3 and 2.1.4).

ghost use Rattle.std.specs.Prelude.{◌≡◌, ◌*◌, ◌^◌, pos, Some};
ghost use Rattle.std.proofs.Common.{rules};
ghost use Rattle.cvss_base.specs.Exact.{IsWithinLimit};
ghost use Rattle.cvss_base.specs.declared.v3.MetricType.TheVariants.{PR, UI, MPR, MUI};
ghost use Rattle.cvss_metric.specs.v3.Table.{scoped_weight, metric_component};

use crate::v3::environmental::BaseValue;
use crate::v3::metric::{HUNDREDTH, MetricType, MetricValue};
use std::fmt;

/// The privileges that the attacker has to have before the attack (v3.1 specification, section
/// 2.1.3).
#[derive(Clone, Copy, Debug, PartialEq, Eq, PartialOrd, Ord)]
pub enum PrivilegesRequired {
    High,
    Low,
    None,
}

impl MetricValue for PrivilegesRequired {
    const KIND: MetricType = MetricType::PR;

    ghost KIND = { PR };

    ghost value = { λ metric. metric };

    fn row(self) -> (&'static str, Option<u64>) {
        match self {
            Self::High => ("H", Some(27)),
            Self::Low => ("L", Some(62)),
            Self::None => ("N", Some(85)),
        }
    }

    #[inline(always)]
    fn read_letter(letter: u8) -> Option<Self> {
        match letter {
            b'H' => Some(Self::High),
            b'L' => Some(Self::Low),
            b'N' => Some(Self::None),
            _ => None,
        }
    }
}

impl fmt::Display for PrivilegesRequired {
    ghost output = { λ metric. Some (metric_component PR metric) };

    ghost styled_output = { λ metric _. Some (metric_component PR metric) };

    fn fmt<W: fmt::Write>(&self, f: &mut fmt::Formatter<W>) -> fmt::Result {
        self.write(f)
    }
}

impl BaseValue for PrivilegesRequired {
    const MODIFIED_KIND: MetricType = MetricType::MPR;

    ghost MODIFIED_KIND = { MPR };

    ghost own_value = { λ metric. Some (record { kind = MPR; value = metric }) };

    ghost base_law = { Prim.search rules };
}

impl PrivilegesRequired {
    /// The value's weight in hundredths, which is higher where the scope changes (v3.1 specification,
    /// section 7.4).
    pub fn scoped_hundredths(self, scope_changed: bool) -> u64
        ensures { result ≡ scoped_weight scope_changed self }
    {
        match (self, scope_changed) {
            (Self::High, true) => 50,
            (Self::Low, true) => 68,
            _ => self.hundredths().unwrap(),
        }
    }

    /// The value's weight in counts of 10^-24, which is higher where the scope changes.
    pub fn scoped_score(self, scope_change: bool) -> i128
        ensures value { result ≡ pos (scoped_weight scope_change self * 10 ^ 22) }
        ensures limit { IsWithinLimit result }
    {
        i128::from(self.scoped_hundredths(scope_change)) * HUNDREDTH
    }
}

/// Whether a person other than the attacker has to take part (v3.1 specification, section 2.1.4).
#[derive(Clone, Copy, Debug, PartialEq, Eq, PartialOrd, Ord)]
pub enum UserInteraction {
    Required,
    None,
}

impl MetricValue for UserInteraction {
    const KIND: MetricType = MetricType::UI;

    ghost KIND = { UI };

    ghost value = { λ metric. metric };

    fn row(self) -> (&'static str, Option<u64>) {
        match self {
            Self::Required => ("R", Some(62)),
            Self::None => ("N", Some(85)),
        }
    }

    #[inline(always)]
    fn read_letter(letter: u8) -> Option<Self> {
        match letter {
            b'R' => Some(Self::Required),
            b'N' => Some(Self::None),
            _ => None,
        }
    }
}

impl fmt::Display for UserInteraction {
    ghost output = { λ metric. Some (metric_component UI metric) };

    ghost styled_output = { λ metric _. Some (metric_component UI metric) };

    fn fmt<W: fmt::Write>(&self, f: &mut fmt::Formatter<W>) -> fmt::Result {
        self.write(f)
    }
}

impl BaseValue for UserInteraction {
    const MODIFIED_KIND: MetricType = MetricType::MUI;

    ghost MODIFIED_KIND = { MUI };

    ghost own_value = { λ metric. Some (record { kind = MUI; value = metric }) };

    ghost base_law = { Prim.search rules };
}
