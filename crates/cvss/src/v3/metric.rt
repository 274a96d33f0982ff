//! The metrics of CVSS v3.0 and v3.1, each an enum of its values (v3.1 specification, sections 2 to 4),
//! and how they are named, read and compared.

ghost use Rattle.std.specs.Prelude.{◌≡◌, ◌*◌, ◌^◌, ◌↔◌, pos, IsTrue, IsSome, IfSome, IfOk, IfErr, Some, unwrap_or, refl};
ghost use Rattle.cvss_base.specs.Rejection.{BadValue};
ghost use Rattle.cvss_base.specs.Reported.{Reports};
ghost use Rattle.cvss_base.specs.V3Types.{v3_reason, name_of};
ghost use Rattle.cvss_base.specs.Exact.{IsWithinLimit};
ghost use Rattle.cvss_base.specs.declared.v3.MetricType.{MetricType};
ghost use Rattle.cvss_base.specs.Text.{uppercased};
ghost use Rattle.cvss_metric.specs.v3.Table.{spelling_of, weight_of, reported_kind};
ghost use Rattle.cvss.specs.MetricsV3.{IsMetric};

mod enums;
pub mod environmental;
mod modified;

use cvss_base::Error;
use cvss_metric::v3::weight_in_counts;
pub use cvss_metric::v3::{MetricType, MetricValue, base, reported_kind, temporal};
use std::alloc::Global;
use std::fmt;

/// An enum of the values that the specification gives for a metric, which are compared.
// It and `Metric` are in this crate, so that a program which reads, prints and scores vectors is
// proved without what only callers of the library need.
pub trait MetricEnum: MetricValue + Eq + Ord + fmt::Debug + fmt::Display {
    ghost law: { IsMetric Self.KIND Self.value ⟦<Self as Ord>⟧.cmp ⟦<Self as PartialEq>⟧.eq
        ⟦<Self as Clone>⟧.is_clone ⟦<Self as Clone>⟧.is_infallible };
}

/// A metric, as it is named and read.
pub trait Metric: MetricEnum {
    /// Which metric this is.
    const TYPE: MetricType;

    ghost TYPE: { MetricType };

    /// The metric that a rejected value is reported under: of a modified metric its base metric.
    const FAULT_TYPE: MetricType;

    ghost FAULT_TYPE: { MetricType };

    /// The metric's abbreviation.
    fn name() -> &'static str
        ensures { result.now ≡ name_of TYPE }
    {
        Self::TYPE.name()
    }

    // The metric is that of the values.
    ghost typed: { TYPE ≡ Self.KIND };

    ghost reported: { FAULT_TYPE ≡ reported_kind Self.KIND };

    /// How the value is spelled in a vector.
    final fn as_str(self) -> &'static str
        ensures { result.now ≡ spelling_of Self.KIND (Self.value self) }
    {
        self.spelling()
    }

    /// The value with this spelling, in any ASCII case.
    final fn read_raised(text: &str) -> Option<Self>
        ensures spelled { IfSome result
            (λ metric. spelling_of Self.KIND (Self.value metric) ≡ uppercased text.now) }
        ensures read { (metric : Self) → spelling_of Self.KIND (Self.value metric) ≡ uppercased text.now
            → result ≡ Some metric }
    {
        Self::read_bytes(text.as_bytes())
    }

    /// The value with this spelling, exactly as it is written.
    #[tactic(auto, using(cvss_metric::specs::v3::private::TableLaws::uppercased_spelling))]
    final fn read(text: &str) -> Option<Self>
        ensures spelled { IfSome result (λ metric. spelling_of Self.KIND (Self.value metric) ≡ text.now) }
        ensures read { (metric : Self) → spelling_of Self.KIND (Self.value metric) ≡ text.now
            → result ≡ Some metric }
    {
        let metric = Self::read_raised(text)?;
        if metric.as_str() == text {
            Some(metric)
        } else {
            None
        }
    }

    /// The value with this spelling, exactly as it is written.
    ///
    /// # Errors
    ///
    /// `InvalidMetricV3` with the text where the metric has no such value.
    final fn from_str(alloc: Global, text: &str) -> Result<Self, Error>
        ensures spelled { IfOk result (λ metric. spelling_of Self.KIND (Self.value metric) ≡ text.now) }
        ensures read { (metric : Self) → spelling_of Self.KIND (Self.value metric) ≡ text.now
            → result ≡ Ok metric }
        ensures rejected { IfErr result (Reports v3_reason (BadValue FAULT_TYPE text.now)) }
    {
        match Self::read(text) {
            Some(metric) => Ok(metric),
            None => {
                let value = String::from_str(alloc, text)?;
                Err(Error::InvalidMetricV3 {
                    metric_type: Self::FAULT_TYPE,
                    value,
                })
            }
        }
    }

    /// Whether the value has a weight.
    final fn has_score(self) -> bool
        ensures { IsTrue result ↔ IsSome (weight_of Self.KIND (Self.value self)) }
    {
        self.hundredths().is_some()
    }

    /// The value's weight in counts of 10^-24 (v3.1 specification, section 7.4).
    final fn score(self) -> i128
        requires { IsSome (weight_of Self.KIND (Self.value self)) }
        ensures value { result ≡ pos (unwrap_or (weight_of Self.KIND (Self.value self)) 0 * 10 ^ 22) }
        ensures limit { IsWithinLimit result }
    {
        weight_in_counts(self)
    }
}

impl<M: MetricEnum> Metric for M {
    const TYPE: MetricType = M::KIND;

    ghost TYPE = { M.KIND };

    const FAULT_TYPE: MetricType = reported_kind(M::KIND);

    ghost FAULT_TYPE = { reported_kind M.KIND };

    ghost typed = { refl };

    ghost reported = { refl };
}
