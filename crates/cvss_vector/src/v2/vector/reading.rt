//! How a vector is read from a text.

ghost use Rattle.std.specs.Prelude.{false, ⊤, ◌≡◌};
ghost use Rattle.cvss_base.specs.V2Types.{name_of};
ghost use Rattle.cvss_base.specs.Version.{read, reading};
ghost use Rattle.cvss_text.specs.private.Walk.{IsFilled, IsPut};
ghost use Rattle.cvss_metric.specs.v2.Table.{spelling_of};
ghost use Rattle.cvss_vector.specs.v2.Vector.{v2, value_at};
ghost use Rattle.cvss_vector.specs.v2.private.VectorLaws.{with_value, v2_laws};

use super::cutting::cut_named;
use super::in_order::put_value;
use crate::each_v2_metric;
use crate::v2::vector::Vector;
use cvss_metric::v2::{MetricType, MetricValue};
use cvss_text::fast_path::after_three;
use cvss_text::values::{Spells, component_in_order, letter_in_order, two_in_order};
use cvss_text::walk::{ComponentError, Components};
use cvss_text::{fill_at, kinds};

/// The metrics in printing order (guide, section 2.4).
const PRINTED: &[MetricType] = &each_v2_metric!(kinds!(MetricType));

impl Components for Vector {
    type Kind = MetricType;

    ghost version = { v2 };

    ghost has_base = { λ _. ⊤ };

    ghost base_count = { 6 };

    ghost version_laws = { v2_laws };

    fn any_case() -> bool {
        false
    }

    fn printed() -> &'static [MetricType] {
        PRINTED
    }

    fn name(kind: MetricType) -> &'static str {
        kind.name()
    }

    fn reported_kind(kind: MetricType) -> MetricType {
        kind
    }

    #[inline(always)]
    #[tactic(auto, using(cvss_text::proofs::LawLemmas::IsCut_named))]
    fn cut(piece: &[u8]) -> Option<(MetricType, &[u8])> {
        let (kind, value) = cut_named(piece)?;
        Some((kind, value))
    }

    #[inline(always)]
    fn base_in_order<'a, Caller>(self, text: &'a [u8]) -> Option<(Vector, &'a [u8])> {
        // No six base metrics are shorter, so their lengths are compared once.
        if text.len() < 26 {
            return None;
        }
        let (av, text) = letter_in_order::<Vector, _>(after_three(text, *b"AV:")?)?;
        let (ac, au, text) = two_in_order::<Vector, _, _>(text)?;
        let (c, i, text) = two_in_order::<Vector, _, _>(text)?;
        let (a, text) = component_in_order::<Vector, _>(text)?;
        let base = Vector {
            av: Some(av),
            ac: Some(ac),
            au: Some(au),
            c: Some(c),
            i: Some(i),
            a: Some(a),
            ..self
        };
        Some((base, text))
    }

    // A call of its own keeps the vector in memory, where each metric is stored once.
    #[inline(never)]
    fn put_others<'a>(&mut self, text: &'a [u8]) -> &'a [u8] {
        let text = put_value(&mut self.e, text);
        let text = put_value(&mut self.rl, text);
        let text = put_value(&mut self.rc, text);
        let text = put_value(&mut self.cdp, text);
        let text = put_value(&mut self.td, text);
        let text = put_value(&mut self.cr, text);
        let text = put_value(&mut self.ir, text);
        put_value(&mut self.ar, text)
    }

    #[inline(always)]
    fn put<Caller>(&mut self, kind: MetricType, value: &[u8]) -> Result<(), ComponentError> {
        let old = *self;
        each_v2_metric!(fill_at!(kind: MetricType, filled(self: Vector, value, old)))
    }

    fn first_missing(&self) -> Option<MetricType> {
        match self {
            Vector { av: None, .. } => Some(MetricType::AV),
            Vector { ac: None, .. } => Some(MetricType::AC),
            Vector { au: None, .. } => Some(MetricType::Au),
            Vector { c: None, .. } => Some(MetricType::C),
            Vector { i: None, .. } => Some(MetricType::I),
            Vector { a: None, .. } => Some(MetricType::A),
            _ => None,
        }
    }
}

impl<M: MetricValue> Spells<M> for Vector {
    ghost any_case = { false };

    ghost metric = { name_of M.KIND };

    ghost spelling = { λ value. spelling_of M.KIND (M.value value) };

    ghost width = { 8 };

    #[tactic(auto, using(crate::proofs::v2::PrintingLemmas::name_lengths))]
    fn metric() -> &'static str {
        M::KIND.name()
    }

    #[inline(always)]
    #[tactic(auto, using(crate::proofs::v2::PrintingLemmas::lengths))]
    fn spelling(value: M) -> &'static str {
        value.spelling()
    }

    #[inline(always)]
    fn spelled(text: &[u8]) -> Option<M> {
        M::read_bytes(text)
    }

    #[inline(always)]
    fn by_letter(letter: u8) -> Option<M> {
        M::read_bytes(&[letter])
    }
}

/// What filling the field of a metric answered. A law: where all else is kept, the value is put into
/// the vector.
fn filled(
    kind: MetricType,
    here: MetricType,
    old: Vector,
    value: &[u8],
    answer: Result<(), ComponentError>,
    new: Vector,
) -> Result<(), ComponentError>
    requires here { kind ≡ here }
    requires filled { IsFilled (reading v2 here) (value_at old here) (read v2 value.now) answer
        (value_at new here) }
    requires kept { new ≡ with_value old here (value_at new here) }
    ensures { IsPut v2 old kind (read v2 value.now) result new }
{
    answer
}
