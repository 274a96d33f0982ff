//! The environmental metrics of CVSS v3 (v3.1 specification, section 4), and the base metrics that modified
//! ones replace.

ghost use Rattle.std.specs.Prelude.{◌≡◌, refl};
ghost use Rattle.cvss_base.specs.declared.v3.MetricType.{MetricType};

use super::{Metric, MetricEnum, MetricType};
pub use cvss_metric::v3::environmental::{
    AvailabilityRequirement, BaseValue, ConfidentialityRequirement, IntegrityRequirement, Modified,
    ModifiedScope,
};

/// A base metric that a modified metric can replace (v3.1 specification, section 4.2): each of its
/// values has a weight, and none is spelled `X`. Each `Metric` that is a `BaseValue` is one, and
/// `Modified` of it is a `Metric`.
pub trait BaseMetric: BaseValue + Metric {
    /// The modified metric.
    const MODIFIED_TYPE: MetricType;

    ghost MODIFIED_TYPE: { MetricType };

    // The modified metric is that of the values.
    ghost modified: { MODIFIED_TYPE ≡ ⟦<Self as BaseValue>⟧.MODIFIED_KIND };
}

impl<T: BaseValue + MetricEnum> BaseMetric for T {
    const MODIFIED_TYPE: MetricType = T::MODIFIED_KIND;

    ghost MODIFIED_TYPE = { T.MODIFIED_KIND };

    ghost modified = { refl };
}
