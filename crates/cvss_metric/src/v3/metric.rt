//! What all metrics of CVSS v3 have in common.

ghost use Rattle.std.specs.Prelude.{◌≡◌, [], ◌∷◌, ◌*◌, ◌^◌, pos, IfSome, Some, unwrap_or};
ghost use Rattle.std.specs.Fmt.{WritesOnOk, WritesStyledOnOk};
ghost use Rattle.cvss_base.specs.Exact.{IsWithinLimit};
ghost use Rattle.cvss_base.specs.declared.v3.MetricType.{MetricType};
ghost use Rattle.cvss_base.specs.Text.{uppercased};
ghost use Rattle.cvss_metric.specs.v3.Table.{Value, spelling_of, weight_of, metric_component, reported_kind};

use cvss_base::component::write_component;
pub use cvss_base::v3::MetricType;
use std::fmt;

/// A hundredth, in counts of 10^-24.
pub(crate) const HUNDREDTH: i128 = 10_000_000_000_000_000_000_000;

/// What is in vectors as a component: how values are spelled, read from their spelling, and
/// weighed.
pub trait MetricValue: Copy + 'static {
    /// Which metric this is, the same as `cvss::v3::Metric::TYPE`.
    const KIND: MetricType;

    ghost KIND: { MetricType };

    ghost value: { Self → Value KIND };

    /// How the value is spelled in a vector, and its weight in hundredths, if it has one (v3.1
    /// specification, section 7.4).
    fn row(self) -> (&'static str, Option<u64>)
        ensures spelling { result.0.now ≡ spelling_of KIND (value self) }
        ensures weight { result.1 ≡ weight_of KIND (value self) };

    /// The value that is spelled by this letter, exactly as it is written: each value is spelled by
    /// one letter.
    fn read_letter(letter: u8) -> Option<Self>
        ensures spelled { IfSome result (λ metric. spelling_of KIND (value metric) ≡ letter ∷ []) }
        ensures read { (metric : Self) → spelling_of KIND (value metric) ≡ letter ∷ []
            → result ≡ Some metric };

    /// How the value is spelled in a vector.
    final fn spelling(self) -> &'static str
        ensures { result.now ≡ spelling_of KIND (value self) }
    {
        self.row().0
    }

    /// Writes the component that stands for the value in a vector, and the same under any options.
    final fn write<W: fmt::Write>(self, f: &mut fmt::Formatter<W>) -> fmt::Result
        ensures plain { WritesOnOk W.write_str_gives f.old result
            (metric_component KIND (value self)) f.new }
        ensures styled { WritesStyledOnOk W.write_str_gives f.old result
            (metric_component KIND (value self)) f.new }
    {
        write_component(Self::KIND.name(), self.spelling(), f)
    }

    /// The value's weight in hundredths, if it has one (v3.1 specification, section 7.4).
    final fn hundredths(self) -> Option<u64>
        ensures { result ≡ weight_of KIND (value self) }
    {
        self.row().1
    }

    /// The value with this spelling, in any ASCII case.
    final fn read_bytes(text: &[u8]) -> Option<Self>
        ensures spelled { IfSome result
            (λ metric. spelling_of KIND (value metric) ≡ uppercased text.now) }
        ensures read { (metric : Self) → spelling_of KIND (value metric) ≡ uppercased text.now
            → result ≡ Some metric }
    {
        match text {
            [letter] => read_in_any_case(*letter),
            _ => None,
        }
    }
}

/// The value's weight in counts of 10^-24 (v3.1 specification, section 7.4), and 0 where it has none.
pub fn weight_in_counts<M: MetricValue>(value: M) -> i128
    ensures value { result ≡ pos (unwrap_or (weight_of M.KIND (M.value value)) 0 * 10 ^ 22) }
    ensures limit { IsWithinLimit result }
{
    i128::from(value.hundredths().unwrap_or(0)) * HUNDREDTH
}

/// The value that is spelled by this letter in any ASCII case. As each spelling is a letter in upper
/// case, it suffices to clear the bit by which the cases of a letter differ.
#[inline(always)]
#[tactic(auto, using(crate::proofs::v3::LetterLemmas::one_letter))]
fn read_in_any_case<M: MetricValue>(letter: u8) -> Option<M>
    ensures spelled { IfSome result
        (λ metric. spelling_of M.KIND (M.value metric) ≡ uppercased (letter ∷ [])) }
    ensures read { (metric : M) → spelling_of M.KIND (M.value metric) ≡ uppercased (letter ∷ [])
        → result ≡ Some metric }
{
    M::read_letter(letter & 0xDF)
}

/// The metric that a rejected value is reported under: of a modified metric its base metric.
pub const fn reported_kind(kind: MetricType) -> MetricType
    ensures { result ≡ reported_kind kind }
{
    match kind {
        MetricType::MAV => MetricType::AV,
        MetricType::MAC => MetricType::AC,
        MetricType::MPR => MetricType::PR,
        MetricType::MUI => MetricType::UI,
        MetricType::MS => MetricType::S,
        MetricType::MC => MetricType::C,
        MetricType::MI => MetricType::I,
        MetricType::MA => MetricType::A,
        kind => kind,
    }
}
