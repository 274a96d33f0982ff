//! The lines of metrics, once for all versions.

ghost use Rattle.std.specs.Prelude.{◌≡◌, ◌++◌, OnOk, [], flat_map, map};
ghost use Rattle.cvss_explain.specs.Lines.{metric_line, metric_text};

use crate::lines::{FIGURE_WIDTH, write_component, write_padded, write_spoken};
use cvss_json::Page;
use cvss_lines::OutputBuffer;
use cvss_report::names::{ValueWord, word_in};
use cvss_report::spelled;
use cvss_text::print::Printed;
use std::alloc::AllocError;

/// A vector of some version, whose metrics are explained.
pub(crate) trait Explained: Printed {
    ghost use Rattle.std.specs.Prelude.{ℕ, List};

    /// What the weights or effects of metrics rest on beside the vector.
    type Class;

    ghost description: { Self.Kind → List ℕ };

    ghost words: { Self.Kind → List (List ℕ × List ℕ) };

    ghost is_class: { Self.Class → Type 0 };

    ghost figure: { Self → Self.Class → Self.Kind → List ℕ };

    /// The name of a metric in words.
    fn description(kind: Self::Kind) -> &'static str
        ensures { result.now ≡ description kind };

    /// How the values of a metric are spelled, each with its word.
    fn value_words(kind: Self::Kind) -> &'static [ValueWord]
        ensures { map (λ word. (word.0.now, word.1.now)) result.now ≡ words kind };

    /// Writes the weight or effect of a metric.
    fn put_figure(&self, class: &Self::Class, kind: Self::Kind, page: &mut Page)
        requires class { is_class class.now }
        requires empty { page.old ≡ [] }
        ensures { page.new ≡ figure self.now class.now kind };
}

/// Writes the lines of the metrics that a vector has.
pub(crate) fn write_metrics<V: Explained>(
    vector: &V,
    class: &V::Class,
    answers: &mut OutputBuffer,
) -> Result<(), AllocError>
    requires { V.is_class class.now }
    ensures { OnOk result (answers.new.bytes.items ≡ answers.old.bytes.items
        ++ flat_map (metric_text V.version V.description V.words (V.figure vector.now class.now)
        vector.now) V.version.printed) }
{
    let kinds = V::printed();
    for kind in kinds {
        write_metric(vector, class, *kind, answers)?;
    }
    Ok(())
}

/// Writes the line of a metric, if a vector has it.
fn write_metric<V: Explained>(
    vector: &V,
    class: &V::Class,
    kind: V::Kind,
    answers: &mut OutputBuffer,
) -> Result<(), AllocError>
    requires { V.is_class class.now }
    ensures { OnOk result (answers.new.bytes.items ≡ answers.old.bytes.items
        ++ metric_text V.version V.description V.words (V.figure vector.now class.now)
        vector.now kind) }
{
    let Some(spelling) = spelled(vector, kind) else {
        return Ok(());
    };
    let mut figure = Page::new();
    vector.put_figure(class, kind, &mut figure);
    let word = word_in(V::value_words(kind), spelling);
    let (name, description) = (V::name(kind), V::description(kind));
    write_line(name, spelling, figure.bytes(), description, word, answers)
}

/// Writes the line of a metric: its component, its weight or effect, its name and its value in words.
fn write_line(
    name: &str,
    spelling: &[u8],
    figure: &[u8],
    description: &str,
    word: &str,
    answers: &mut OutputBuffer,
) -> Result<(), AllocError>
    ensures { OnOk result (answers.new.bytes.items ≡ answers.old.bytes.items
        ++ metric_line name.now spelling.now figure.now description.now word.now) }
{
    write_component(name, spelling, answers)?;
    write_padded(FIGURE_WIDTH, figure, answers)?;
    answers.push(description.as_bytes())?;
    answers.push(b": ")?;
    write_spoken(word, answers)?;
    answers.push(b"\n")
}
