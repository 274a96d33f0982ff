//! The fields of a row.

ghost use Rattle.std.specs.Prelude.{◌≡◌, ◌≤◌, IfSome, map};
ghost use Rattle.cvss_vector.specs.Answers.{HasScore, text_of};
ghost use Rattle.cvss_report.specs.Rows.{AreFields, nomenclature_cell, optional_cell, rejected_fields, score_cell};
ghost use Rattle.cvss_report.specs.private.Views.{cell_view, field_view};

use cvss_base::tenths;
use cvss_vector::{Cvss, Evaluation, Rated};

/// What a cell holds.
#[derive(Clone, Copy)]
pub(crate) enum Cell<'a> {
    Nothing,
    /// Words that need no escape.
    Words(&'a str),
    /// Any text.
    Given(&'a [u8]),
    Number(&'static str),
}

/// The name of a column, and its cell.
pub(crate) type Field<'a> = (&'static str, Cell<'a>);

/// The fields of a line that is rejected for this reason.
pub(crate) fn rejected_fields(reason: &[u8]) -> [Field<'_>; 9]
    ensures { map field_view result ≡ rejected_fields reason.now }
{
    [
        ("vector", Cell::Nothing),
        ("version", Cell::Nothing),
        ("base", Cell::Nothing),
        ("temporal", Cell::Nothing),
        ("environmental", Cell::Nothing),
        ("score", Cell::Nothing),
        ("severity", Cell::Nothing),
        ("nomenclature", Cell::Nothing),
        ("error", Cell::Given(reason)),
    ]
}

/// The fields of a vector with this text.
#[tactic(auto, using(crate::proofs::ScoreLemmas::optional_to_ten))]
pub(crate) fn fields_of<'a>(cvss: &Cvss, text: &'a str) -> [Field<'a>; 9]
    requires scored { HasScore cvss.now }
    requires text { text.now ≡ text_of cvss.now }
    ensures { AreFields cvss.now (map field_view result) }
{
    let scores = Evaluation::of(cvss);
    [
        ("vector", Cell::Words(text)),
        ("version", Cell::Words(scores.version.as_str())),
        ("base", number(scores.base)),
        ("temporal", optional(scores.temporal)),
        ("environmental", optional(scores.environmental)),
        ("score", number(scores.overall)),
        ("severity", Cell::Words(scores.overall.severity.as_str())),
        ("nomenclature", nomenclature_of(cvss)),
        ("error", Cell::Nothing),
    ]
}

fn number(rated: Rated) -> Cell<'static>
    requires { rated.tenths ≤ 100 }
    ensures { cell_view result ≡ score_cell rated.tenths }
{
    Cell::Number(tenths::text_of(rated.tenths))
}

fn optional(rated: Option<Rated>) -> Cell<'static>
    requires { IfSome rated (λ rated. rated.tenths ≤ 100) }
    ensures { cell_view result ≡ optional_cell rated }
{
    match rated {
        Some(rated) => number(rated),
        None => Cell::Nothing,
    }
}

/// The groups of metrics that the score counts.
fn nomenclature_of(cvss: &Cvss) -> Cell<'static>
    ensures { cell_view result ≡ nomenclature_cell cvss.now }
{
    match cvss {
        Cvss::CvssV40(vector) => Cell::Words(vector.nomenclature().as_str()),
        _ => Cell::Nothing,
    }
}
