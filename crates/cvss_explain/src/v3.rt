//! The explanations of the scores of CVSS v3 (v3.1 specification, section 7; v3.0 specification, section 8).

ghost use Rattle.std.specs.Prelude.{◌≡◌, ◌≤◌, ◌+◌, ◌*◌, [], IfSome, OnOk, length, pos};
ghost use Rattle.cvss_base.specs.V3Types.{description_of};
ghost use Rattle.cvss_explain.specs.V3.{AreLines, IsExplanationText, hundredths_text, scope_letter, weight_text, weights_members};
ghost use Rattle.cvss_explain.specs.private.Values.{members_view};
ghost use Rattle.cvss_explain.specs.private.Writing.{Writes};
ghost use Rattle.cvss_json.specs.Scalars.{member_room, member_view, rooms};
ghost use Rattle.cvss_report.specs.WordsV3.{words_of};
ghost use Rattle.cvss_score.specs.v3.Bounds.{AreBounded};
ghost use Rattle.cvss_score.specs.v3.Weighing.{weight_in};
ghost use Rattle.cvss_vector.specs.v3.VectorWeights.{weights_of};

pub mod steps;

use crate::lines::write_ways;
use crate::metrics::{Explained, write_metrics};
use crate::object::Entry::{self, Severity, Value as Of};
use crate::parts::{Value, VectorParts};
use cvss_base::v3::MetricType;
use cvss_json::{Member, Page, Scalar, put_object};
use cvss_lines::OutputBuffer;
use cvss_report::is_in_v3;
use cvss_report::names::{self, v3};
use cvss_score::v3::Weights;
use cvss_vector::v3::Vector;
use cvss_vector::{Cvss, Group};
use std::alloc::AllocError;
use steps::Steps;

/// The members of the objects of steps, in the order of their names.
const BASE: [Entry; 6] = [Of(2), Of(1), Of(0), Of(3), Of(4), Severity(4)];

const TEMPORAL: [Entry; 3] = [Of(0), Of(1), Severity(1)];

const ENVIRONMENTAL: [Entry; 8] = [Of(3), Of(4), Of(0), Of(2), Of(1), Of(5), Of(6), Severity(6)];

/// What is made of the weights of a vector.
#[derive(Drop)]
struct Made {
    steps: Steps,
    /// What each metric weighs.
    weights: [Member<'static>; 20],
}

/// Writes why a vector has its score, as an object.
pub(crate) fn put_explanation(
    page: &mut Page,
    line: Option<u64>,
    cvss: &Cvss,
    vector: &Vector,
    tenths: u8,
)
    requires { page.old ≡ [] }
    ensures { IsExplanationText line cvss.now vector.now.minor_version (weights_of vector.now)
        tenths page.new }
{
    let weights = vector.weights();
    let modified = scope_letter(weights.modified_changed);
    let scope = scope_letter(weights.changed);
    let made = &Made {
        steps: Steps::of(&weights, vector.minor_version),
        weights: weight_members(&weights),
    };
    put_object(
        page,
        &VectorParts { cvss },
        &[
            ("base", Value::Steps(&made.steps.base, &BASE)),
            (
                "environmental",
                Value::Steps(&made.steps.environmental, &ENVIRONMENTAL),
            ),
            ("line", Value::Line(line)),
            ("modifiedScope", Value::Scalar(Scalar::Text(modified))),
            ("scope", Value::Scalar(Scalar::Text(scope))),
            ("score", Value::Scalar(Scalar::Tenths(tenths))),
            ("severity", Value::Severity(tenths)),
            ("temporal", Value::Steps(&made.steps.temporal, &TEMPORAL)),
            ("vector", Value::Text),
            ("version", Value::Version),
            ("weights", Value::Scalars(&made.weights)),
        ],
    );
}

fn scope_letter(changed: bool) -> &'static str
    ensures text { result.now ≡ scope_letter changed }
    ensures short { length result.now ≤ 1 }
{
    if changed { "C" } else { "U" }
}

/// What each metric weighs, which the scopes don't, in the order of their names.
fn weight_members(weights: &Weights) -> [Member<'static>; 20]
    requires { AreBounded weights.now }
    ensures text { members_view result ≡ weights_members weights.now }
    ensures room { rooms member_room result ≤ 968 }
{
    [
        weight("A", weights.a),
        weight("AC", weights.ac),
        weight("AR", weights.ar),
        weight("AV", weights.av),
        weight("C", weights.c),
        weight("CR", weights.cr),
        weight("E", weights.e),
        weight("I", weights.i),
        weight("IR", weights.ir),
        weight("MA", weights.ma),
        weight("MAC", weights.mac),
        weight("MAV", weights.mav),
        weight("MC", weights.mc),
        weight("MI", weights.mi),
        weight("MPR", weights.mpr),
        weight("MUI", weights.mui),
        weight("PR", weights.pr),
        weight("RC", weights.rc),
        weight("RL", weights.rl),
        weight("UI", weights.ui),
    ]
}

/// A metric's name, and the weight that is so many hundredths.
#[inline(always)]
fn weight(name: &'static str, hundredths: u64) -> Member<'static>
    requires { hundredths ≤ 150 }
    ensures view { member_view result ≡ (name.now, hundredths_text hundredths) }
    ensures room { member_room result ≡ length name.now + 36 }
{
    (name, Scalar::Decimal((hundredths * 100_000) as i64))
}

/// Writes the lines that explain a vector's scores.
pub(crate) fn write_lines(vector: &Vector, answers: &mut OutputBuffer) -> Result<(), AllocError>
    ensures { OnOk result (Writes (AreLines vector.now (weights_of vector.now))
        answers.old.bytes.items answers.new.bytes.items) }
{
    let weights = vector.weights();
    let steps = Steps::of(&weights, vector.minor_version);
    write_metrics(vector, &weights, answers)?;
    write_ways(
        &steps.base,
        is_in_v3(Group::Temporal, vector),
        &steps.temporal,
        is_in_v3(Group::Environmental, vector),
        &steps.environmental,
        answers,
    )
}

impl Explained for Vector {
    type Class = Weights;

    ghost description = { description_of };

    ghost words = { words_of };

    ghost is_class = { AreBounded };

    ghost figure = { λ _ weights. weight_text weights };

    fn description(kind: MetricType) -> &'static str {
        kind.description()
    }

    fn value_words(kind: MetricType) -> &'static [names::ValueWord] {
        v3::entry(kind).1
    }

    /// Writes what a metric weighs, which the scopes don't.
    fn put_figure(&self, weights: &Weights, kind: MetricType, page: &mut Page) {
        match hundredths_of(weights, kind) {
            Some(hundredths) => page.decimal(hundredths as i64 * 100_000),
            None => page.push(b"-"),
        }
    }
}

/// The weight of a metric in hundredths, which the scopes have not.
fn hundredths_of(weights: &Weights, metric: MetricType) -> Option<u64>
    requires { AreBounded weights.now }
    ensures value { result ≡ weight_in weights.now metric }
    ensures bound { IfSome result (λ weight. weight ≤ 150) }
{
    match metric {
        MetricType::AV => Some(weights.av),
        MetricType::AC => Some(weights.ac),
        MetricType::PR => Some(weights.pr),
        MetricType::UI => Some(weights.ui),
        MetricType::C => Some(weights.c),
        MetricType::I => Some(weights.i),
        MetricType::A => Some(weights.a),
        MetricType::E => Some(weights.e),
        MetricType::RL => Some(weights.rl),
        MetricType::RC => Some(weights.rc),
        MetricType::CR => Some(weights.cr),
        MetricType::IR => Some(weights.ir),
        MetricType::AR => Some(weights.ar),
        MetricType::MAV => Some(weights.mav),
        MetricType::MAC => Some(weights.mac),
        MetricType::MPR => Some(weights.mpr),
        MetricType::MUI => Some(weights.mui),
        MetricType::MC => Some(weights.mc),
        MetricType::MI => Some(weights.mi),
        MetricType::MA => Some(weights.ma),
        MetricType::S | MetricType::MS => None,
    }
}
