//! What all metrics of CVSS v2 have in common.

ghost use Rattle.std.specs.Prelude.{◌≡◌, IfSome, Some, bytes_eq, find, map};
ghost use Rattle.std.specs.Fmt.{WritesOnOk, WritesStyledOnOk};
ghost use Rattle.cvss_base.specs.declared.v2.MetricType.{MetricType};
ghost use Rattle.cvss_metric.specs.v2.Table.{Value, spelling_of, weight_of, metric_component, rows_of};

use cvss_base::component::write_component;
pub use cvss_base::v2::MetricType;
use std::fmt;

/// What is in vectors as a component: how values are spelled, read from their spelling, and
/// weighed.
pub trait MetricValue: Copy + 'static {
    /// Which metric this is, the same as `cvss::v2::Metric::TYPE`.
    const KIND: MetricType;

    ghost KIND: { MetricType };

    ghost value: { Self → Value KIND };

    /// The values, the least first, each of which is the first with its spelling.
    fn values() -> &'static [Self]
        ensures rows { map (λ metric. spelling_of KIND (value metric)) result.now
            ≡ map (λ row. row.0) (rows_of KIND) }
        ensures first { (metric : Self) → find (λ other. bytes_eq (spelling_of KIND (value other))
            (spelling_of KIND (value metric))) result.now ≡ Some metric };

    /// How the value is spelled in a vector, and its weight in thousandths (guide, section 3.2).
    fn row(self) -> (&'static str, u64)
        ensures spelling { result.0.now ≡ spelling_of KIND (value self) }
        ensures weight { result.1 ≡ weight_of KIND (value self) };

    /// How the value is spelled in a vector.
    final fn spelling(self) -> &'static str
        ensures { result.now ≡ spelling_of KIND (value self) }
    {
        self.row().0
    }

    /// Writes the component that stands for the value in a vector, and the same under any options.
    final fn write<W: fmt::Write>(self, f: &mut fmt::Formatter<W>) -> fmt::Result
        ensures plain { WritesOnOk W.write_str_gives f.old result
            (metric_component KIND (value self)) f.new }
        ensures styled { WritesStyledOnOk W.write_str_gives f.old result
            (metric_component KIND (value self)) f.new }
    {
        write_component(Self::KIND.name(), self.spelling(), f)
    }

    /// The value's weight in thousandths (guide, section 3.2).
    final fn thousandths(self) -> u64
        ensures { result ≡ weight_of KIND (value self) }
    {
        self.row().1
    }

    /// The value with this spelling.
    #[inline(always)]
    final fn read_bytes(text: &[u8]) -> Option<Self>
        ensures spelled { IfSome result (λ metric. spelling_of KIND (value metric) ≡ text.now) }
        ensures read { (metric : Self) → spelling_of KIND (value metric) ≡ text.now
            → result ≡ Some metric }
    {
        Self::values()
            .iter()
            .copied()
            .find(|value| are_alike(value.spelling().as_bytes(), text))
    }
}

/// Whether two texts are alike. Most are one letter.
#[inline(always)]
fn are_alike(text: &[u8], other: &[u8]) -> bool
    ensures { result ≡ bytes_eq text.now other.now }
{
    match (text, other) {
        ([letter], [same]) => letter == same,
        _ => text == other,
    }
}
