//! What all metrics of CVSS v4.0 have in common.

ghost use Rattle.std.specs.Prelude.{◌≡◌, ◌<◌, [], ◌∷◌, ℕ, IfSome, IsSome, Some, length};
ghost use Rattle.std.specs.Fmt.{WritesOnOk, WritesStyledOnOk};
ghost use Rattle.cvss_base.specs.Text.{uppercased};
ghost use Rattle.cvss_base.specs.declared.v4.MetricType.{MetricType};
ghost use Rattle.cvss_metric.specs.v4.Table.{spelling_at, spellings_of, metric_component};

use crate::v4::spelling::{place_of, place_of_letter, spelling_at};
use cvss_base::component::write_component;
pub use cvss_base::v4::MetricType;
use std::fmt;

/// What is in vectors as a component: how values are spelled, read from their spelling.
pub trait MetricValue: Copy + 'static {
    /// Which metric this is, the same as `cvss::v4::metric::Metric::TYPE`.
    const KIND: MetricType;

    ghost KIND: { MetricType };

    ghost rank: { Self → ℕ };

    /// The place of the value among those of its metric, as they are compared.
    fn place(self) -> usize
        ensures { result ≡ rank self };

    /// The value at a place.
    fn at(place: usize) -> Option<Self>
        ensures placed { IfSome result (λ metric. rank metric ≡ place) }
        ensures each { (metric : Self) → rank metric ≡ place → result ≡ Some metric }
        ensures covers { place < length (spellings_of KIND) → IsSome result };

    /// How the value is spelled in a vector.
    fn spelling(self) -> &'static str
        ensures { result.now ≡ spelling_at KIND (rank self) }
    {
        spelling_at(Self::KIND, self.place())
    }

    // Each value has a place among the spellings of its metric.
    ghost within: { (metric : Self) → rank metric < length (spellings_of KIND) };

    /// Writes the component that stands for the value in a vector, and the same under any options.
    final fn write<W: fmt::Write>(self, f: &mut fmt::Formatter<W>) -> fmt::Result
        ensures plain { WritesOnOk W.write_str_gives f.old result
            (metric_component KIND (rank self)) f.new }
        ensures styled { WritesStyledOnOk W.write_str_gives f.old result
            (metric_component KIND (rank self)) f.new }
    {
        write_component(Self::KIND.name(), self.spelling(), f)
    }

    /// The value that this letter spells, exactly as it is written.
    #[inline(always)]
    final fn read_letter(letter: u8) -> Option<Self>
        ensures spelled { IfSome result (λ metric. spelling_at KIND (rank metric) ≡ letter ∷ []) }
        ensures read { (metric : Self) → spelling_at KIND (rank metric) ≡ letter ∷ []
            → result ≡ Some metric }
    {
        Self::at(place_of_letter(Self::KIND, letter)?)
    }

    /// The value with this spelling, in any ASCII case.
    #[inline(always)]
    final fn read_bytes(text: &[u8]) -> Option<Self>
        ensures spelled { IfSome result
            (λ metric. uppercased (spelling_at KIND (rank metric)) ≡ uppercased text.now) }
        ensures read { (metric : Self) → uppercased (spelling_at KIND (rank metric)) ≡ uppercased text.now
            → result ≡ Some metric }
    {
        match place_of(Self::KIND, text) {
            Some(place) => Self::at(place),
            None => None,
        }
    }
}
