//! The metrics of CVSS v2, each an enum of its values (guide, section 2), and how they are named, read
//! and compared.

ghost use Rattle.std.specs.Prelude.{◌≡◌, ◌*◌, ◌^◌, pos, IfSome, IfOk, IfErr, Some, refl};
ghost use Rattle.cvss_base.specs.Rejection.{BadValue};
ghost use Rattle.cvss_base.specs.Reported.{Reports};
ghost use Rattle.cvss_base.specs.V2Types.{v2_reason, name_of};
ghost use Rattle.cvss_base.specs.declared.v2.MetricType.{MetricType};
ghost use Rattle.cvss_base.specs.Exact.{IsWithinLimit};
ghost use Rattle.cvss_metric.specs.v2.Table.{spelling_of, weight_of};
ghost use Rattle.cvss.specs.MetricsV2.{IsMetric};

mod enums;

use cvss_base::Error;
pub use cvss_metric::v2::{MetricType, MetricValue, base, environmental, temporal};
use std::alloc::Global;
use std::fmt;

/// A thousandth, in counts of 10^-24.
const THOUSANDTH: i128 = 1_000_000_000_000_000_000_000;

/// An enum of the values that the guide gives for a metric, which are compared.
// It and `Metric` are in this crate, so that a program which reads, prints and scores vectors is
// proved without what only callers of the library need.
pub trait MetricEnum: MetricValue + Eq + Ord + fmt::Debug + fmt::Display {
    ghost law: { IsMetric Self.KIND Self.value ⟦<Self as Ord>⟧.cmp ⟦<Self as PartialEq>⟧.eq
        ⟦<Self as Clone>⟧.is_clone ⟦<Self as Clone>⟧.is_infallible };
}

/// A metric, as it is named and read.
pub trait Metric: MetricEnum {
    /// Which metric this is.
    const TYPE: MetricType;

    ghost TYPE: { MetricType };

    /// The metric's abbreviation.
    fn name() -> &'static str
        ensures { result.now ≡ name_of TYPE }
    {
        Self::TYPE.name()
    }

    // The metric is that of the values.
    ghost typed: { TYPE ≡ Self.KIND };

    /// How the value is spelled in a vector.
    final fn as_str(self) -> &'static str
        ensures { result.now ≡ spelling_of Self.KIND (Self.value self) }
    {
        self.spelling()
    }

    /// The value with this spelling.
    final fn read(text: &str) -> Option<Self>
        ensures spelled { IfSome result (λ metric. spelling_of Self.KIND (Self.value metric) ≡ text.now) }
        ensures read { (metric : Self) → spelling_of Self.KIND (Self.value metric) ≡ text.now
            → result ≡ Some metric }
    {
        Self::read_bytes(text.as_bytes())
    }

    /// The value with this spelling.
    ///
    /// # Errors
    ///
    /// `InvalidMetricV2` with the text where the metric has no such value.
    final fn from_str(alloc: Global, text: &str) -> Result<Self, Error>
        ensures spelled { IfOk result (λ metric. spelling_of Self.KIND (Self.value metric) ≡ text.now) }
        ensures read { (metric : Self) → spelling_of Self.KIND (Self.value metric) ≡ text.now
            → result ≡ Ok metric }
        ensures rejected { IfErr result (Reports v2_reason (BadValue TYPE text.now)) }
    {
        match Self::read(text) {
            Some(metric) => Ok(metric),
            None => {
                let value = String::from_str(alloc, text)?;
                Err(Error::InvalidMetricV2 {
                    metric_type: Self::TYPE,
                    value,
                })
            }
        }
    }

    /// The value's weight, in counts of 10^-24 (guide, section 3.2).
    final fn score(self) -> i128
        ensures value { result ≡ pos (weight_of Self.KIND (Self.value self) * 10 ^ 21) }
        ensures limit { IsWithinLimit result }
    {
        i128::from(self.thousandths()) * THOUSANDTH
    }
}

impl<M: MetricEnum> Metric for M {
    const TYPE: MetricType = M::KIND;

    ghost TYPE = { M.KIND };

    ghost typed = { refl };
}
