//! The explanations of the scores of CVSS v2 (guide, section 3.2).

ghost use Rattle.std.specs.Prelude.{◌≡◌, [], OnOk, Some, ⊤};
ghost use Rattle.cvss_base.specs.V2Types.{description_of};
ghost use Rattle.cvss_explain.specs.V2.{AreLines, IsExplanationText, weight_member, weight_text};
ghost use Rattle.cvss_explain.specs.private.Writing.{Writes};
ghost use Rattle.cvss_report.specs.WordsV2.{words_of};

pub mod steps;

use crate::lines::write_ways;
use crate::metrics::{Explained, write_metrics};
use crate::object::Entry::{self, Value as Of};
use crate::parts::{Value, VectorParts};
use MetricType::*;
use cvss_base::v2::MetricType;
use cvss_json::{Members, Page, Scalar, put_member, put_object};
use cvss_lines::OutputBuffer;
use cvss_report::is_in_v2;
use cvss_report::names::{self, v2};
use cvss_vector::v2::Vector;
use cvss_vector::{Cvss, Group};
use std::alloc::AllocError;
use steps::Steps;

/// The members of the objects of steps, in the order of their names.
const BASE: [Entry; 5] = [Of(1), Of(2), Of(0), Of(3), Of(4)];

const TEMPORAL: [Entry; 2] = [Of(0), Of(1)];

const ENVIRONMENTAL: [Entry; 5] = [Of(1), Of(0), Of(2), Of(3), Of(4)];

/// Writes why a vector has its score, as an object.
pub(crate) fn put_explanation(
    page: &mut Page,
    line: Option<u64>,
    cvss: &Cvss,
    vector: &Vector,
    tenths: u8,
)
    requires { page.old ≡ [] }
    ensures { IsExplanationText line cvss.now vector.now tenths page.new }
{
    let steps = &Steps::of(&vector.weights());
    put_object(
        page,
        &VectorParts { cvss },
        &[
            ("base", Value::Steps(&steps.base, &BASE)),
            (
                "environmental",
                Value::Steps(&steps.environmental, &ENVIRONMENTAL),
            ),
            ("line", Value::Line(line)),
            ("score", Value::Scalar(Scalar::Tenths(tenths))),
            ("severity", Value::Severity(tenths)),
            ("temporal", Value::Steps(&steps.temporal, &TEMPORAL)),
            ("vector", Value::Text),
            ("version", Value::Version),
            ("weights", Value::WeightsV2(*vector)),
        ],
    );
}

/// The metrics, in the order of their names.
pub(crate) const METRICS: [MetricType; 14] = [A, AC, AR, AV, Au, C, CDP, CR, E, I, IR, RC, RL, TD];

/// What each metric of a vector weighs.
#[derive(Drop)]
pub(crate) struct Weights<'v> {
    pub(crate) vector: &'v Vector,
}

impl Members<MetricType> for Weights<'_> {
    ghost text_at = { λ weights kind. Some (weight_member weights.vector.now kind) };

    ghost room_at = { λ _ _. 44 };

    fn put_at(&self, page: &mut Page, later: bool, kind: MetricType) -> bool {
        let ten_millionths = self.vector.thousandths(kind) as i64 * 10_000;
        put_member(page, later, kind.name(), Scalar::Decimal(ten_millionths));
        true
    }
}

/// Writes the lines that explain a vector's scores.
pub(crate) fn write_lines(vector: &Vector, answers: &mut OutputBuffer) -> Result<(), AllocError>
    ensures { OnOk result (Writes (AreLines vector.now)
        answers.old.bytes.items answers.new.bytes.items) }
{
    let steps = Steps::of(&vector.weights());
    write_metrics(vector, &(), answers)?;
    write_ways(
        &steps.base,
        is_in_v2(Group::Temporal, vector),
        &steps.temporal,
        is_in_v2(Group::Environmental, vector),
        &steps.environmental,
        answers,
    )
}

impl Explained for Vector {
    type Class = ();

    ghost description = { description_of };

    ghost words = { words_of };

    ghost is_class = { λ _. ⊤ };

    ghost figure = { λ vector _. weight_text vector };

    fn description(kind: MetricType) -> &'static str {
        kind.description()
    }

    fn value_words(kind: MetricType) -> &'static [names::ValueWord] {
        v2::entry(kind).1
    }

    /// Writes what a metric weighs.
    fn put_figure(&self, _class: &(), kind: MetricType, page: &mut Page) {
        page.decimal(self.thousandths(kind) as i64 * 10_000);
    }
}
