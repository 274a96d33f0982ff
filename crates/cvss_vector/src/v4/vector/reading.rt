//! How a vector is read from a text.

ghost use Rattle.std.specs.Prelude.{◌≡◌, ◌∷◌, ◌++◌, IfSome, true, ⊤};
ghost use Rattle.cvss_base.specs.Text.{slash};
ghost use Rattle.cvss_base.specs.V4Types.{name_of};
ghost use Rattle.cvss_base.specs.declared.v4.MetricType.TheVariants.{U};
ghost use Rattle.cvss_text.specs.private.Walk.{HasNoValue, IsFilled, IsPut};
ghost use Rattle.cvss_base.specs.Version.{read, reading};
ghost use Rattle.cvss_metric.specs.v4.Table.{metric_component, spelling_at};
ghost use Rattle.cvss_metric.specs.v4.Places.{five_rank};
ghost use Rattle.cvss_vector.specs.v4.Table.{value_at, values_of};
ghost use Rattle.cvss_vector.specs.v4.Vector.{v4};
ghost use Rattle.cvss_vector.specs.v4.private.TableLaws.{width};
ghost use Rattle.cvss_vector.specs.v4.private.VectorLaws.{v4_laws, v4_front_laws};

use super::cutting::{named_by_one, named_by_three, named_by_two};
use crate::each_v4_metric;
use crate::v4::laws::vectors_are_their_values;
use crate::v4::vector::Vector;
use cvss_metric::v4::place::OneOfFive;
use cvss_metric::v4::{MetricType, MetricValue, table};
use cvss_text::fast_path::{after_three, put_read, rest_after_name};
use cvss_text::front::Prefixed;
use cvss_text::values::{Spells, letter_in_order, two_in_order};
use cvss_text::walk::{ComponentError, Components};
use cvss_text::{fill_at, kinds, put_each};

/// The metrics in printing order (v4.0 specification, section 7).
const PRINTED: &[MetricType] = &each_v4_metric!(kinds!(MetricType));

impl Components for Vector {
    type Kind = MetricType;

    ghost version = { v4 };

    ghost has_base = { λ _. ⊤ };

    ghost base_count = { 11 };

    ghost version_laws = { v4_laws };

    fn any_case() -> bool {
        true
    }

    fn printed() -> &'static [MetricType] {
        PRINTED
    }

    fn name(kind: MetricType) -> &'static str {
        kind.name()
    }

    // Most names have two letters, which are looked for first.
    #[inline(always)]
    fn cut(piece: &[u8]) -> Option<(MetricType, &[u8])> {
        match piece {
            [first, second, b':', value @ ..] => Some((named_by_two(*first, *second)?, value)),
            [letter, b':', value @ ..] => Some((named_by_one(*letter)?, value)),
            [first, second, third, b':', value @ ..] => {
                Some((named_by_three(*first, *second, *third)?, value))
            }
            _ => None,
        }
    }

    #[inline(always)]
    fn base_in_order<'a, Caller>(self, text: &'a [u8]) -> Option<(Vector, &'a [u8])> {
        // No eleven base metrics are shorter, so their lengths are compared once.
        if text.len() < 54 {
            return None;
        }
        let (av, text) = letter_in_order::<Vector, _>(after_three(text, *b"AV:")?)?;
        let (ac, at, text) = two_in_order::<Vector, _, _>(text)?;
        let (pr, ui, text) = two_in_order::<Vector, _, _>(text)?;
        let (vc, vi, text) = two_in_order::<Vector, _, _>(text)?;
        let (va, sc, text) = two_in_order::<Vector, _, _>(text)?;
        let (si, sa, text) = two_in_order::<Vector, _, _>(text)?;
        let base = Vector {
            av: Some(av),
            ac: Some(ac),
            at: Some(at),
            pr: Some(pr),
            ui: Some(ui),
            vc: Some(vc),
            vi: Some(vi),
            va: Some(va),
            sc: Some(sc),
            si: Some(si),
            sa: Some(sa),
            ..self
        };
        Some((base, text))
    }

    // A call of its own keeps the vector in memory, where each metric is stored once.
    #[inline(never)]
    fn put_others<'a>(&mut self, text: &'a [u8]) -> &'a [u8] {
        let text =
            put_each!(self: Vector, text: e cr ir ar mav mac mat mpr mui mvc mvi mva msc msi msa s au r v re);
        put_read(&mut self.u, urgency_in_order(text), text)
    }

    fn reported_kind(kind: MetricType) -> MetricType {
        kind
    }

    #[inline(always)]
    fn put<Caller>(&mut self, kind: MetricType, value: &[u8]) -> Result<(), ComponentError> {
        let old = *self;
        each_v4_metric!(fill_at!(kind: MetricType, filled(self: Vector, value, old)))
    }

    fn first_missing(&self) -> Option<MetricType> {
        match self {
            Vector { ac: None, .. } => Some(MetricType::AC),
            Vector { at: None, .. } => Some(MetricType::AT),
            Vector { av: None, .. } => Some(MetricType::AV),
            Vector { pr: None, .. } => Some(MetricType::PR),
            Vector { sa: None, .. } => Some(MetricType::SA),
            Vector { sc: None, .. } => Some(MetricType::SC),
            Vector { si: None, .. } => Some(MetricType::SI),
            Vector { ui: None, .. } => Some(MetricType::UI),
            Vector { va: None, .. } => Some(MetricType::VA),
            Vector { vc: None, .. } => Some(MetricType::VC),
            Vector { vi: None, .. } => Some(MetricType::VI),
            _ => None,
        }
    }
}

impl Prefixed for Vector {
    ghost plain = { v4_front_laws };

    fn start(reported: &[u8]) -> Option<Vector> {
        if reported == b"4.0".as_slice() {
            Some(Vector::empty())
        } else {
            None
        }
    }
}

impl Vector {
    /// The vector without metrics.
    pub(crate) fn empty() -> Vector
        ensures version { result.minor_version ≡ 0 }
        ensures valueless { HasNoValue v4 result }
    {
        vectors_are_their_values();
        Vector::default()
    }
}

impl<M: MetricValue> Spells<M> for Vector {
    ghost any_case = { true };

    ghost metric = { name_of M.KIND };

    ghost spelling = { λ value. spelling_at M.KIND (M.rank value) };

    ghost width = { width M.KIND };

    #[tactic(auto, using(crate::proofs::v4::PrintingLemmas::name_lengths))]
    fn metric() -> &'static str {
        M::KIND.name()
    }

    #[inline(always)]
    #[tactic(auto, using(crate::proofs::v4::PrintingLemmas::lengths))]
    fn spelling(value: M) -> &'static str {
        value.spelling()
    }

    #[inline(always)]
    fn spelled(text: &[u8]) -> Option<M> {
        M::read_bytes(text)
    }

    #[inline(always)]
    fn by_letter(letter: u8) -> Option<M> {
        M::read_letter(letter)
    }
}

/// The provider's urgency, if a slash and its component are the whole text, and nothing after it. Its
/// spellings have several letters, and it is the last metric.
#[inline(always)]
fn urgency_in_order(text: &[u8]) -> Option<(table::U, &[u8])>
    ensures { IfSome result
        (λ read. text.now ≡ slash ∷ (metric_component U (five_rank read.0) ++ read.1.now)) }
{
    let urgency = match rest_after_name(MetricType::U.name(), text)? {
        b"X" => OneOfFive::First,
        b"Red" => OneOfFive::Second,
        b"Amber" => OneOfFive::Third,
        b"Green" => OneOfFive::Fourth,
        b"Clear" => OneOfFive::Fifth,
        _ => return None,
    };
    Some((urgency, &[]))
}

/// What filling the field of a metric answered. A law: where all else is kept, the value is put into
/// the vector.
fn filled(
    kind: MetricType,
    here: MetricType,
    old: Vector,
    value: &[u8],
    answer: Result<(), ComponentError>,
    new: Vector,
) -> Result<(), ComponentError>
    requires here { kind ≡ here }
    requires filled { IsFilled (reading v4 here) (value_at old here) (read v4 value.now) answer
        (value_at new here) }
    requires kept { new ≡ (values_of here).with_value old (value_at new here) }
    ensures { IsPut v4 old kind (read v4 value.now) result new }
{
    answer
}
