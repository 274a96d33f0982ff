//! The lines of explanations.

ghost use Rattle.std.specs.Prelude.{◌≡◌, ◌-◌, ◌≤◌, ◌++◌, OnOk, if◌then◌else◌, [], codes, length, map, take};
ghost use Rattle.cvss_base.specs.Text.{component};
ghost use Rattle.cvss_explain.specs.V4.{digits};
ghost use Rattle.cvss_explain.specs.Lines.{blanks, padded, row_line, rows_text, spoken, spoken_byte};
ghost use Rattle.cvss_explain.specs.Steps.{amount_text, row_of, steps_lines, ways_lines};
ghost use Rattle.cvss_explain.specs.private.Amounts.{figure_text, row_view, title_text};
ghost use Rattle.cvss_json.specs.Json.{tenths_text};

use crate::groups::levels;
use crate::step::{Amount, Step};
use crate::v4::put_group;
use cvss_json::Page;
use cvss_lines::OutputBuffer;
use cvss_score::v4::scoring::classes::MacroVector;
use cvss_score::v4::scoring::explanation::GroupExplanation;
use std::alloc::AllocError;

/// The width of the column of components.
const COMPONENT_WIDTH: usize = 9;

/// The width of the column of weights and effects.
pub(crate) const FIGURE_WIDTH: usize = 13;

/// The width of the column of what numbers are called.
const TITLE_WIDTH: usize = 36;

const BLANKS: &str = "                                        ";

/// What an amount is called.
#[derive(Clone, Copy)]
pub(crate) enum Title<'a> {
    Words(&'static str),
    /// Words, and the level of a group of metrics.
    Level(&'static str, u8),
    /// Words, and both levels of a group of metrics.
    Levels(&'static str, u8, u8),
    /// A class.
    Class(&'a MacroVector),
}

/// What a row comes to: the amount of a step, or what a group of metrics takes.
#[derive(Clone, Copy)]
pub(crate) enum Figure<'a> {
    Of(Amount),
    /// What a group of metrics takes from a value.
    Contribution(u8, &'a GroupExplanation),
}

/// A title, and what it comes to.
pub(crate) type TitledFigure<'a> = (Title<'a>, Figure<'a>);

/// Writes the component of a metric, in its column.
pub(crate) fn write_component(
    name: &str,
    spelling: &[u8],
    answers: &mut OutputBuffer,
) -> Result<(), AllocError>
    ensures { OnOk result (answers.new.bytes.items ≡ answers.old.bytes.items
        ++ (codes "  " ++ padded 9 (component name.now spelling.now))) }
{
    answers.push(b"  ")?;
    answers.push(name.as_bytes())?;
    answers.push(b":")?;
    answers.push(spelling)?;
    answers.push(blanks(COMPONENT_WIDTH, name.len() + 1 + spelling.len()))
}

/// Writes a text in a column.
pub(crate) fn write_padded(
    width: usize,
    text: &[u8],
    answers: &mut OutputBuffer,
) -> Result<(), AllocError>
    requires { width ≤ 40 }
    ensures { OnOk result
        (answers.new.bytes.items ≡ answers.old.bytes.items ++ padded width text.now) }
{
    answers.push(text)?;
    answers.push(blanks(width, text.len()))
}

/// The blanks after a text of this length in a column.
fn blanks(width: usize, length: usize) -> &'static [u8]
    requires { width ≤ 40 }
    ensures { result.now ≡ take (width - length) blanks }
{
    &BLANKS.as_bytes()[..width.saturating_sub(length)]
}

/// Writes a word of FIRST's JSON schemas in lower case, and with blanks between its parts.
pub(crate) fn write_spoken(word: &str, answers: &mut OutputBuffer) -> Result<(), AllocError>
    ensures { OnOk result
        (answers.new.bytes.items ≡ answers.old.bytes.items ++ spoken word.now) }
{
    let bytes = word.as_bytes();
    for byte in bytes {
        answers.push(&[spoken_byte(*byte)])?;
    }
    Ok(())
}

fn spoken_byte(byte: u8) -> u8
    ensures { result ≡ spoken_byte byte }
{
    match byte {
        b'_' => b' ',
        _ => byte.to_ascii_lowercase(),
    }
}

/// Writes the steps to the base score, and to the scores whose metrics the vector has.
pub(crate) fn write_ways(
    base: &[Step],
    has_temporal: bool,
    temporal: &[Step],
    has_environmental: bool,
    environmental: &[Step],
    answers: &mut OutputBuffer,
) -> Result<(), AllocError>
    ensures { OnOk result (answers.new.bytes.items ≡ answers.old.bytes.items
        ++ ways_lines base.now has_temporal temporal.now has_environmental environmental.now) }
{
    write_steps_if(true, base, answers)?;
    write_steps_if(has_temporal, temporal, answers)?;
    write_steps_if(has_environmental, environmental, answers)
}

/// Writes steps if a condition holds.
fn write_steps_if(
    condition: bool,
    steps: &[Step],
    answers: &mut OutputBuffer,
) -> Result<(), AllocError>
    ensures { OnOk result (answers.new.bytes.items ≡ answers.old.bytes.items
        ++ (if condition then steps_lines steps.now else [])) }
{
    if condition {
        write_steps(steps, answers)?;
    }
    Ok(())
}

/// Writes the lines of steps.
fn write_steps(steps: &[Step], answers: &mut OutputBuffer) -> Result<(), AllocError>
    ensures { OnOk result (answers.new.bytes.items
        ≡ answers.old.bytes.items ++ steps_lines steps.now) }
{
    for step in steps {
        write_step(*step, answers)?;
    }
    Ok(())
}

fn write_step(step: Step, answers: &mut OutputBuffer) -> Result<(), AllocError>
    ensures { OnOk result (answers.new.bytes.items
        ≡ answers.old.bytes.items ++ row_line (row_of step)) }
{
    let title = Title::Words(step.quantity.words().1);
    write_row((title, Figure::Of(step.amount)), answers)
}

/// Writes rows if a condition holds.
pub(crate) fn write_rows_if(
    condition: bool,
    rows: &[TitledFigure<'_>],
    answers: &mut OutputBuffer,
) -> Result<(), AllocError>
    ensures { OnOk result (answers.new.bytes.items ≡ answers.old.bytes.items
        ++ (if condition then rows_text (map row_view rows.now) else [])) }
{
    if condition {
        write_rows(rows, answers)?;
    }
    Ok(())
}

/// Writes rows.
pub(crate) fn write_rows(
    rows: &[TitledFigure<'_>],
    answers: &mut OutputBuffer,
) -> Result<(), AllocError>
    ensures { OnOk result (answers.new.bytes.items
        ≡ answers.old.bytes.items ++ rows_text (map row_view rows.now)) }
{
    for row in rows {
        write_row(*row, answers)?;
    }
    Ok(())
}

/// Writes a row.
fn write_row(row: TitledFigure<'_>, answers: &mut OutputBuffer) -> Result<(), AllocError>
    ensures { OnOk result (answers.new.bytes.items
        ≡ answers.old.bytes.items ++ row_line (row_view row.entry)) }
{
    let (title, figure) = row;
    let mut page = Page::new();
    figure.put(&mut page);
    answers.push(b"  ")?;
    title.write(answers)?;
    answers.push(page.bytes())?;
    answers.push(b"\n")
}

impl Title<'_> {
    /// Writes the title in its column.
    fn write(self, answers: &mut OutputBuffer) -> Result<(), AllocError>
        ensures { OnOk result (answers.new.bytes.items
            ≡ answers.old.bytes.items ++ padded 36 (title_text self.entry)) }
    {
        match self {
            Title::Words(words) => write_padded(TITLE_WIDTH, words.as_bytes(), answers),
            Title::Level(name, level) => write_levels(name, &[level], answers),
            Title::Levels(name, first, second) => write_levels(name, &[first, second], answers),
            Title::Class(class) => write_levels("MacroVector ", &levels(class), answers),
        }
    }
}

/// Writes a title of words and levels.
fn write_levels(name: &str, levels: &[u8], answers: &mut OutputBuffer) -> Result<(), AllocError>
    requires { length levels.now ≤ 6 }
    ensures { OnOk result (answers.new.bytes.items
        ≡ answers.old.bytes.items ++ padded 36 (name.now ++ digits levels.now)) }
{
    let mut page = Page::new();
    page.digits(levels);
    answers.push(name.as_bytes())?;
    answers.push(page.bytes())?;
    answers.push(blanks(TITLE_WIDTH, name.len() + page.bytes().len()))
}

impl Figure<'_> {
    fn put(self, page: &mut Page)
        requires { page.old ≡ [] }
        ensures { page.new ≡ figure_text self.entry }
    {
        match self {
            Figure::Of(amount) => put_amount(amount, page),
            Figure::Contribution(value, group) => put_group(value, group, page),
        }
    }
}

#[tactic(auto, using(crate::proofs::ShortLemmas::severity_short))]
fn put_amount(amount: Amount, page: &mut Page)
    requires { page.old ≡ [] }
    ensures { page.new ≡ amount_text amount }
{
    match amount {
        Amount::Number(count) => page.decimal(count),
        Amount::Score(tenths) => put_tenths(tenths, page),
        Amount::Rated(bounds, tenths) => {
            put_tenths(tenths, page);
            page.push(b" ");
            page.push(bounds.severity_of(tenths).as_str().as_bytes());
        }
    }
}

fn put_tenths(tenths: u8, page: &mut Page)
    requires { page.old ≡ [] }
    ensures text { page.new ≡ tenths_text tenths }
    ensures room { length page.new ≤ 32 }
{
    page.decimal(i64::from(tenths) * 1_000_000);
}
