//! The metrics of CVSS v4.0, each an enum of its values (v4.0 specification, sections 2 to 5), and how
//! they are named, read and compared.

ghost use Rattle.std.specs.Prelude.{◌≡◌, ◌↔◌, IsTrue, IfSome, IfOk, IfErr, Some, refl};
ghost use Rattle.cvss_base.specs.Rejection.{BadValue};
ghost use Rattle.cvss_base.specs.Text.{uppercased};
ghost use Rattle.cvss_base.specs.Reported.{Reports};
ghost use Rattle.cvss_base.specs.V4Types.{v4_reason, name_of};
ghost use Rattle.cvss_base.specs.declared.v4.MetricType.{MetricType};
ghost use Rattle.cvss_metric.specs.v4.Table.{spelling_at};
ghost use Rattle.cvss.specs.MetricsV4.{IsMetric};
ghost use Rattle.cvss.specs.ReadingV4.{IsReading};

pub mod base;
pub mod environmental;
pub mod supplemental;
pub mod threat;

use cvss_base::Error;
use cvss_base::component::is_uppercased_as;
pub use cvss_metric::v4::{MetricType, MetricValue};
use std::alloc::Global;
use std::fmt;

/// An enum of the values that the specification gives for a metric, which are compared.
// It and `Metric` are in this crate, so that a program which reads, prints and scores vectors is
// proved without what only callers of the library need.
pub trait MetricEnum: MetricValue + Eq + Ord + Default + fmt::Debug + fmt::Display {
    ghost law: { IsMetric Self.KIND Self.rank ⟦<Self as Default>⟧.is_default ⟦<Self as Ord>⟧.cmp
        ⟦<Self as PartialEq>⟧.eq ⟦<Self as Clone>⟧.is_clone ⟦<Self as Clone>⟧.is_infallible };
}

/// A metric, as it is named and read.
pub trait Metric: MetricEnum {
    /// Which metric this is.
    const TYPE: MetricType;

    ghost TYPE: { MetricType };

    /// The metric's abbreviation.
    fn name() -> &'static str
        ensures { result.now ≡ name_of TYPE }
    {
        Self::TYPE.name()
    }

    // The metric is that of the values.
    ghost typed: { TYPE ≡ Self.KIND };

    /// How the value is spelled in a vector.
    final fn as_str(self) -> &'static str
        ensures { result.now ≡ spelling_at Self.KIND (Self.rank self) }
    {
        self.spelling()
    }

    /// The value that `read` gives for the text in upper case.
    #[tactic(auto, using(crate::proofs::ReadingLemmas::read_alike))]
    final fn read_raised(text: &str) -> Option<Self>
        ensures spelled { IfSome result
            (λ metric. IsReading (spelling_at Self.KIND (Self.rank metric)) (uppercased text.now)) }
        ensures read { (metric : Self)
            → IsReading (spelling_at Self.KIND (Self.rank metric)) (uppercased text.now)
            → result ≡ Some metric }
    {
        Self::read_bytes(text.as_bytes())
    }

    /// The value with this spelling, as it is printed or in upper case.
    final fn read(text: &str) -> Option<Self>
        ensures spelled { IfSome result
            (λ metric. IsReading (spelling_at Self.KIND (Self.rank metric)) text.now) }
        ensures read { (metric : Self) → IsReading (spelling_at Self.KIND (Self.rank metric)) text.now
            → result ≡ Some metric }
    {
        let metric = Self::read_bytes(text.as_bytes())?;
        if is_reading(metric.as_str(), text) {
            Some(metric)
        } else {
            None
        }
    }

    /// The value with this spelling, as it is printed or in upper case.
    ///
    /// # Errors
    ///
    /// `InvalidMetricV4` with the text where the metric has no such value.
    final fn from_str(alloc: Global, text: &str) -> Result<Self, Error>
        ensures spelled { IfOk result
            (λ metric. IsReading (spelling_at Self.KIND (Self.rank metric)) text.now) }
        ensures read { (metric : Self) → IsReading (spelling_at Self.KIND (Self.rank metric)) text.now
            → result ≡ Ok metric }
        ensures rejected { IfErr result (Reports v4_reason (BadValue TYPE text.now)) }
    {
        match Self::read(text) {
            Some(metric) => Ok(metric),
            None => {
                let value = String::from_str(alloc, text)?;
                Err(Error::InvalidMetricV4 {
                    metric_type: Self::TYPE,
                    value,
                })
            }
        }
    }
}

impl<M: MetricEnum> Metric for M {
    const TYPE: MetricType = M::KIND;

    ghost TYPE = { M.KIND };

    ghost typed = { refl };
}

/// Whether a text is a spelling as it is printed or in upper case, given that it is so in some case.
fn is_reading(spelling: &str, text: &str) -> bool
    requires { uppercased spelling.now ≡ uppercased text.now }
    ensures { IsTrue result ↔ IsReading spelling.now text.now }
{
    spelling == text || is_uppercased_as(text.as_bytes(), text.as_bytes())
}
