//! The modified base metrics (v3.1 specification, section 4.2).

ghost use Rattle.std.specs.Prelude.{◌≡◌, ◌*◌, ◌^◌, pos, Some};
ghost use Rattle.cvss_base.specs.Exact.{IsWithinLimit};
ghost use Rattle.cvss_base.specs.declared.v3.MetricType.{MetricType};
ghost use Rattle.cvss_base.specs.declared.v3.MetricType.TheVariants.{S, MS};
ghost use Rattle.cvss_metric.specs.v3.Table.{scoped_weight, weight_of, metric_component, replacing, modified_value};
ghost use Rattle.cvss_metric.specs.v3.BaseMetrics.{IsBaseValue};
ghost use Rattle.cvss_metric.specs.v3.Modified.{replaced, weight_or};

use crate::v3::base::{PrivilegesRequired, Scope};
use crate::v3::metric::{MetricType, MetricValue, weight_in_counts};
use std::fmt;

/// A value that replaces that of the base metric, if one is set. It has no weight of its own.
#[derive(Clone, Copy, Debug, PartialEq, Eq, PartialOrd, Ord)]
pub enum Modified<T> {
    NotDefined,
    Modified(T),
}

/// A base metric that a modified metric can replace: each of its values has a weight, and none is
/// spelled `X`.
pub trait BaseValue: MetricValue {
    ghost use Rattle.std.specs.Prelude.{Option, None};
    ghost use Rattle.cvss_metric.specs.declared.v3.environmental.modified.Modified.{Modified};
    ghost use Rattle.cvss_metric.specs.v3.Table.{AnyValue};

    /// The modified metric.
    const MODIFIED_KIND: MetricType;

    ghost MODIFIED_KIND: { MetricType };

    ghost own_value: { Modified Self → Option AnyValue } = { λ _. None };

    ghost base_law: { IsBaseValue Self.KIND MODIFIED_KIND Self.value own_value };
}

impl<T: BaseValue> MetricValue for Modified<T> {
    const KIND: MetricType = T::MODIFIED_KIND;

    ghost KIND = { replacing T.KIND };

    ghost value = { λ metric. modified_value T.KIND T.value T.own_value metric };

    fn row(self) -> (&'static str, Option<u64>) {
        match self {
            Modified::NotDefined => ("X", Some(0)),
            Modified::Modified(value) => (value.spelling(), Some(0)),
        }
    }

    #[inline(always)]
    fn read_letter(letter: u8) -> Option<Self> {
        match letter {
            b'X' => Some(Modified::NotDefined),
            _ => Some(Modified::Modified(T::read_letter(letter)?)),
        }
    }
}

impl<T: BaseValue> fmt::Display for Modified<T> {
    ghost output = { λ metric. Some (metric_component (replacing T.KIND)
        (modified_value T.KIND T.value T.own_value metric)) };

    ghost styled_output = { λ metric _. Some (metric_component (replacing T.KIND)
        (modified_value T.KIND T.value T.own_value metric)) };

    fn fmt<W: fmt::Write>(&self, f: &mut fmt::Formatter<W>) -> fmt::Result {
        self.write(f)
    }
}

impl<T: Copy> Modified<T> {
    /// The value that is set, and else that of the base metric.
    pub fn or(self, base: Option<T>) -> Option<T>
        ensures { result ≡ replaced self base }
    {
        match self {
            Modified::NotDefined => base,
            Modified::Modified(value) => Some(value),
        }
    }
}

impl<T: BaseValue> Modified<T> {
    /// The weight of the value that is set, and else of the base metric's, in counts of 10^-24.
    pub fn modified_score(self, base: Option<T>) -> i128
        ensures value { result ≡ pos (weight_or (λ value. weight_of T.KIND (T.value value))
            (replaced self base) 0 * 10 ^ 22) }
        ensures limit { IsWithinLimit result }
    {
        match self.or(base) {
            Some(value) => weight_in_counts(value),
            None => 0,
        }
    }
}

impl Modified<PrivilegesRequired> {
    /// The weight of the value that is set, and else of the base metric's, in counts of 10^-24. It is
    /// higher where the scope changes.
    pub fn scoped_score(self, scope_changed: bool, base: Option<PrivilegesRequired>) -> i128
        ensures value { result ≡ pos (weight_or
            (λ value. Some (scoped_weight scope_changed value)) (replaced self base) 0 * 10 ^ 22) }
        ensures limit { IsWithinLimit result }
    {
        match self.or(base) {
            Some(value) => value.scoped_score(scope_changed),
            None => 0,
        }
    }
}

/// A scope that replaces that of the base metrics, if one is set.
#[derive(Clone, Copy, Debug, PartialEq, Eq, PartialOrd, Ord)]
pub enum ModifiedScope {
    NotDefined,
    Modified(Scope),
}

impl MetricValue for ModifiedScope {
    const KIND: MetricType = MetricType::MS;

    ghost KIND = { MS };

    ghost value = { λ metric. metric };

    fn row(self) -> (&'static str, Option<u64>) {
        match self {
            Self::NotDefined => ("X", Some(0)),
            Self::Modified(scope) => (scope.spelling(), None),
        }
    }

    #[inline(always)]
    fn read_letter(letter: u8) -> Option<Self> {
        match letter {
            b'X' => Some(Self::NotDefined),
            _ => Some(Self::Modified(Scope::read_letter(letter)?)),
        }
    }
}

impl fmt::Display for ModifiedScope {
    ghost output = { λ metric. Some (metric_component MS metric) };

    ghost styled_output = { λ metric _. Some (metric_component MS metric) };

    fn fmt<W: fmt::Write>(&self, f: &mut fmt::Formatter<W>) -> fmt::Result {
        self.write(f)
    }
}
