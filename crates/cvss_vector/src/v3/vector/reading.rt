//! How a vector is read from a text.

ghost use Rattle.std.specs.Prelude.{◌≡◌, None, true};
ghost use Rattle.cvss_base.specs.V3Types.{name_of};
ghost use Rattle.cvss_text.specs.private.Walk.{HasNoValue, IsFilled, IsPut};
ghost use Rattle.cvss_base.specs.Version.{read, reading};
ghost use Rattle.cvss_metric.specs.v3.Table.{spelling_of};
ghost use Rattle.cvss_vector.specs.v3.Complete.{first_missing_base};
ghost use Rattle.cvss_vector.specs.v3.Vector.{v3, value_at};
ghost use Rattle.cvss_vector.specs.v3.private.VectorLaws.{with_value, v3_laws, v3_front_laws};

use super::cutting::{named_by_one, named_by_three, named_by_two};
use crate::each_v3_metric;
use crate::v3::vector::Vector;
use cvss_metric::v3::{MetricType, MetricValue, reported_kind};
use cvss_text::fast_path::after_three;
use cvss_text::front::Prefixed;
use cvss_text::values::{Spells, component_in_order, letter_in_order, two_in_order};
use cvss_text::walk::{ComponentError, Components};
use cvss_text::{fill_at, kinds, put_each};

/// The metrics in printing order (v3.1 specification, section 6).
const PRINTED: &[MetricType] = &each_v3_metric!(kinds!(MetricType));

impl Components for Vector {
    type Kind = MetricType;

    ghost version = { v3 };

    ghost has_base = { λ vector. first_missing_base vector ≡ None };

    ghost base_count = { 8 };

    ghost version_laws = { v3_laws };

    fn any_case() -> bool {
        true
    }

    fn printed() -> &'static [MetricType] {
        PRINTED
    }

    fn name(kind: MetricType) -> &'static str {
        kind.name()
    }

    #[inline(always)]
    fn cut(piece: &[u8]) -> Option<(MetricType, &[u8])> {
        match piece {
            [letter, b':', value @ ..] => Some((named_by_one(*letter)?, value)),
            [first, second, b':', value @ ..] => Some((named_by_two(*first, *second)?, value)),
            [first, second, third, b':', value @ ..] => {
                Some((named_by_three(*first, *second, *third)?, value))
            }
            _ => None,
        }
    }

    #[inline(always)]
    fn base_in_order<'a, Caller>(self, text: &'a [u8]) -> Option<(Vector, &'a [u8])> {
        // No eight base metrics are shorter, so their lengths are compared once.
        if text.len() < 35 {
            return None;
        }
        let (av, text) = letter_in_order::<Vector, _>(after_three(text, *b"AV:")?)?;
        let (ac, pr, text) = two_in_order::<Vector, _, _>(text)?;
        let (ui, s, text) = two_in_order::<Vector, _, _>(text)?;
        let (c, i, text) = two_in_order::<Vector, _, _>(text)?;
        let (a, text) = component_in_order::<Vector, _>(text)?;
        let base = Vector {
            av: Some(av),
            ac: Some(ac),
            pr: Some(pr),
            ui: Some(ui),
            s: Some(s),
            c: Some(c),
            i: Some(i),
            a: Some(a),
            ..self
        };
        Some((base, text))
    }

    // A call of its own keeps the vector in memory, where each metric is stored once.
    #[inline(never)]
    fn put_others<'a>(&mut self, text: &'a [u8]) -> &'a [u8] {
        put_each!(self: Vector, text: e rl rc cr ir ar mav mac mpr mui ms mc mi ma)
    }

    fn reported_kind(kind: MetricType) -> MetricType {
        reported_kind(kind)
    }

    #[inline(always)]
    fn put<Caller>(&mut self, kind: MetricType, value: &[u8]) -> Result<(), ComponentError> {
        let old = *self;
        each_v3_metric!(fill_at!(kind: MetricType, filled(self: Vector, value, old)))
    }

    fn first_missing(&self) -> Option<MetricType> {
        None
    }
}

impl Prefixed for Vector {
    ghost plain = { v3_front_laws };

    fn start(reported: &[u8]) -> Option<Vector> {
        if reported == b"3.0".as_slice() {
            Some(Vector::empty(0))
        } else if reported == b"3.1".as_slice() {
            Some(Vector::empty(1))
        } else {
            None
        }
    }
}

impl Vector {
    /// The vector without metrics of a minor version.
    #[inline(always)]
    fn empty(minor_version: usize) -> Vector
        ensures version { result.minor_version ≡ minor_version }
        ensures valueless { HasNoValue v3 result }
    {
        Vector {
            minor_version,
            ..Vector::default()
        }
    }
}

impl<M: MetricValue> Spells<M> for Vector {
    ghost any_case = { true };

    ghost metric = { name_of M.KIND };

    ghost spelling = { λ value. spelling_of M.KIND (M.value value) };

    ghost width = { 8 };

    #[tactic(auto, using(crate::proofs::v3::PrintingLemmas::name_lengths))]
    fn metric() -> &'static str {
        M::KIND.name()
    }

    #[inline(always)]
    #[tactic(auto, using(crate::proofs::v3::PrintingLemmas::lengths))]
    fn spelling(value: M) -> &'static str {
        value.spelling()
    }

    #[inline(always)]
    #[tactic(auto, using(cvss_metric::specs::v3::private::TableLaws::uppercased_spelling))]
    fn spelled(text: &[u8]) -> Option<M> {
        M::read_bytes(text)
    }

    #[inline(always)]
    fn by_letter(letter: u8) -> Option<M> {
        M::read_letter(letter)
    }
}

/// What filling the field of a metric answered. A law: where all else is kept, the value is put into
/// the vector.
fn filled(
    kind: MetricType,
    here: MetricType,
    old: Vector,
    value: &[u8],
    answer: Result<(), ComponentError>,
    new: Vector,
) -> Result<(), ComponentError>
    requires here { kind ≡ here }
    requires filled { IsFilled (reading v3 here) (value_at old here) (read v3 value.now) answer
        (value_at new here) }
    requires kept { new ≡ with_value old here (value_at new here) }
    ensures { IsPut v3 old kind (read v3 value.now) result new }
{
    answer
}
