//! The explanation of a score of CVSS v4.0 (specification, section 8.2).

ghost use Rattle.std.specs.Prelude.{◌≡◌, ◌==◌, ◌&&◌, ◌≤◌, ◌++◌, OnOk, [], codes, length, not, pos, ⊤};
ghost use Rattle.cvss_base.specs.V4Types.{description_of};
ghost use Rattle.cvss_base.specs.Version.{IsComplete};
ghost use Rattle.cvss_explain.specs.Decimal.{nearest_to};
ghost use Rattle.cvss_explain.specs.Lines.{rows_text};
ghost use Rattle.cvss_explain.specs.V4.{AreLines, ArePartLines, IsPart, counts_fewer, effect_text, contribution_text, next_text, numbers_rows};
ghost use Rattle.cvss_explain.specs.private.Amounts.{figure_text};
ghost use Rattle.cvss_explain.specs.private.Writing.{Writes};
ghost use Rattle.cvss_report.specs.WordsV4.{words_of};
ghost use Rattle.cvss_json.specs.Json.{decimal_text};
ghost use Rattle.cvss_score.specs.v4.Nomenclature.{text_of as nomenclature_text};
ghost use Rattle.cvss_vector.specs.v4.Vector.{v4};

use crate::decimal::of_parts;
use crate::groups::levels;
use crate::lines::{Figure, Title, write_rows, write_rows_if};
use crate::metrics::{Explained, write_metrics};
use crate::step::Amount;
use crate::v4::effect::{put_levels, value_counts};
use Figure::*;
use Title::*;
use cvss_base::v4::MetricType;
use cvss_json::Page;
use cvss_lines::OutputBuffer;
use cvss_report::names::{self, v4};
use cvss_score::v4::scoring::classes::MacroVector;
use cvss_score::v4::scoring::explanation::GroupExplanation;
use cvss_vector::Bounds;
use cvss_vector::v4::{Explanation, Nomenclature, Vector};
use std::alloc::AllocError;

/// Writes the lines that explain the score, of so many tenths, of a complete vector.
pub(crate) fn write_lines(
    vector: &Vector,
    tenths: u8,
    answers: &mut OutputBuffer,
) -> Result<(), AllocError>
    requires { IsComplete v4 vector.now }
    ensures { OnOk result (Writes (AreLines vector.now tenths)
        answers.old.bytes.items answers.new.bytes.items) }
{
    let explanation = vector.explanation();
    write_metrics(vector, &explanation.class, answers)?;
    write_numbers(vector, &explanation, tenths, answers)?;
    write_parts(vector, tenths, answers)
}

impl Explained for Vector {
    type Class = MacroVector;

    ghost description = { description_of };

    ghost words = { words_of };

    ghost is_class = { λ _. ⊤ };

    ghost figure = { effect_text };

    fn description(kind: MetricType) -> &'static str {
        kind.description()
    }

    fn value_words(kind: MetricType) -> &'static [names::ValueWord] {
        v4::entry(kind).1
    }

    /// Writes the levels that a metric counts in, or a hyphen where its value does not count.
    fn put_figure(&self, class: &MacroVector, kind: MetricType, page: &mut Page) {
        if value_counts(self, kind) {
            put_levels(class, kind, page);
        } else {
            page.push(b"-");
        }
    }
}

/// Writes the way from the value of the class to the score of so many tenths.
fn write_numbers(
    vector: &Vector,
    explanation: &Explanation,
    tenths: u8,
    answers: &mut OutputBuffer,
) -> Result<(), AllocError>
    ensures { OnOk result (answers.new.bytes.items ≡ answers.old.bytes.items
        ++ rows_text (numbers_rows vector.now explanation.now tenths)) }
{
    let (class, value) = (&explanation.class, explanation.value);
    let first = (Class(class), Of(Amount::Score(value)));
    let number = (Words("Before rounding"), fraction(explanation.number));
    let score = (
        Words(title_of(vector.nomenclature())),
        Of(Amount::Rated(Bounds::SinceV3, tenths)),
    );
    let Some(groups) = &explanation.groups else {
        let none = (Words("No impact"), Of(Amount::Score(0)));
        return write_rows(&[first, none, number, score], answers);
    };
    let (eq3, eq6) = (class.eq3, class.eq6);
    write_rows(
        &[
            first,
            (
                Level("EQ1 level ", class.eq1),
                Contribution(value, &groups.eq1),
            ),
            (
                Level("EQ2 level ", class.eq2),
                Contribution(value, &groups.eq2),
            ),
            (
                Levels("EQ3+EQ6 level ", eq3, eq6),
                Contribution(value, &groups.eq3_eq6),
            ),
            (
                Level("EQ4 level ", class.eq4),
                Contribution(value, &groups.eq4),
            ),
            (
                Level("EQ5 level ", class.eq5),
                Contribution(value, &groups.eq5),
            ),
            (Words("Mean of the shares"), fraction(explanation.mean)),
            number,
            score,
        ],
        answers,
    )
}

/// So many 504000ths of a point.
fn fraction(count: u32) -> Figure<'static>
    ensures { figure_text result ≡ decimal_text (pos (nearest_to count 504_000)) }
{
    Of(Amount::Number(of_parts(count, 504_000)))
}

/// Writes how far a group is from the worst of its level, and what it takes from the value.
pub(crate) fn put_group(value: u8, group: &GroupExplanation, page: &mut Page)
    requires { page.old ≡ [] }
    ensures { page.new ≡ contribution_text value group.now }
{
    page.push(b"distance ");
    page.whole(u64::from(group.distance));
    page.push(b" of ");
    page.whole(u64::from(group.depth));
    put_next(value, group, page);
}

/// Writes the gap to the next lower class, and the share of it that is subtracted.
fn put_next(value: u8, group: &GroupExplanation, page: &mut Page)
    requires { length page.old ≤ 100 }
    ensures { page.new ≡ page.old ++ next_text value group.now.next group.now.taken }
{
    let Some(next) = &group.next else {
        page.push(b", no lower level");
        return;
    };
    page.push(b", gap ");
    page.decimal(i64::from(value.saturating_sub(next.value)) * 1_000_000);
    page.push(b" to ");
    page.digits(&levels(&next.class));
    page.push(b", share ");
    page.decimal(of_parts(group.taken, 8400));
}

/// What a score by a nomenclature is called.
fn title_of(nomenclature: Nomenclature) -> &'static str
    ensures { result.now ≡ nomenclature_text nomenclature ++ codes " score" }
{
    match nomenclature {
        Nomenclature::CvssB => "CVSS-B score",
        Nomenclature::CvssBE => "CVSS-BE score",
        Nomenclature::CvssBT => "CVSS-BT score",
        Nomenclature::CvssBTE => "CVSS-BTE score",
    }
}

/// Writes the scores of fewer groups of metrics that differ from a complete vector's own, of so many
/// tenths.
fn write_parts(vector: &Vector, tenths: u8, answers: &mut OutputBuffer) -> Result<(), AllocError>
    requires { IsComplete v4 vector.now }
    ensures { OnOk result (Writes (ArePartLines vector.now tenths)
        answers.old.bytes.items answers.new.bytes.items) }
{
    write_part(vector, tenths, Nomenclature::CvssB, answers)?;
    write_part(vector, tenths, Nomenclature::CvssBT, answers)?;
    write_part(vector, tenths, Nomenclature::CvssBE, answers)
}

/// Writes a score of fewer groups of metrics, if it differs from the vector's own.
fn write_part(
    vector: &Vector,
    tenths: u8,
    nomenclature: Nomenclature,
    answers: &mut OutputBuffer,
) -> Result<(), AllocError>
    requires { IsComplete v4 vector.now }
    ensures { OnOk result (Writes (IsPart vector.now tenths nomenclature)
        answers.old.bytes.items answers.new.bytes.items) }
{
    let by = vector.tenths_by(nomenclature);
    let shown = is_shown(nomenclature, vector.nomenclature(), by, tenths);
    write_rows_if(
        shown,
        &[(
            Words(title_of(nomenclature)),
            Of(Amount::Rated(Bounds::SinceV3, by)),
        )],
        answers,
    )
}

/// Whether a score of the first nomenclature is shown: if it counts fewer groups than the second, and
/// differs from its score.
fn is_shown(first: Nomenclature, second: Nomenclature, by: u8, tenths: u8) -> bool
    ensures { result ≡ counts_fewer first second && not (by == tenths) }
{
    counts_fewer(first, second) && by != tenths
}

/// Whether a score of the first nomenclature counts some of the groups of the second, and not all.
fn counts_fewer(first: Nomenclature, second: Nomenclature) -> bool
    ensures { result ≡ counts_fewer first second }
{
    match (first, second) {
        (Nomenclature::CvssB, Nomenclature::CvssB) => false,
        (Nomenclature::CvssB, _) => true,
        (Nomenclature::CvssBT | Nomenclature::CvssBE, Nomenclature::CvssBTE) => true,
        _ => false,
    }
}
