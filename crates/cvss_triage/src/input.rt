//! What the first line or record of an input says of the others.

ghost use Rattle.std.specs.Prelude.{◌≡◌, ◌↔◌, [], IfOk, IsTrue};
ghost use Rattle.std.specs.List.{AllZip};
ghost use Rattle.cvss_csv.specs.Records.{is_open};
ghost use Rattle.cvss_matches.specs.Matches.{AreFound, candidates_of};
ghost use Rattle.cvss_triage.specs.Inputs.{IsInputOf, IsTableOf, Says, is_unread, is_whole, lacks_column};
ghost use Rattle.cvss_triage.specs.Lines.{first_text, text_of};

use crate::form::Form;
use crate::triage::Triage;
use cvss_csv::{Cells, Column, CutRecord, Layout, first_record, layout_of};
use cvss_matches::Matches;
use std::alloc::{AllocError, Global};

/// What an operand names.
#[derive(Clone, Copy, Drop)]
pub(crate) enum Input<'a> {
    /// It cannot be read.
    Unread,
    /// Its first record lacks the column.
    WithoutColumn,
    Read(InputText<'a>),
}

/// An input that is read.
#[derive(Clone, Copy, Drop)]
pub(crate) struct InputText<'a> {
    pub(crate) text: &'a [u8],
    /// Whether its first line or record is its header, and which cells of its records are searched. Where
    /// that is any, their bytes are.
    pub(crate) layout: Layout,
}

impl<'a> Input<'a> {
    /// Its text, if it can be ranked.
    fn text(self) -> Option<InputText<'a>>
        ensures { result ≡ text_of self.entry }
    {
        match self {
            Input::Read(text) => Some(text),
            Input::Unread | Input::WithoutColumn => None,
        }
    }

    /// Whether it lacks the column.
    pub(crate) fn lacks_column(self) -> bool
        ensures { result ≡ lacks_column self.entry }
    {
        matches!(self, Input::WithoutColumn)
    }

    /// Whether it has nothing that can be ranked.
    pub(crate) fn is_unread(self) -> bool
        ensures { result ≡ is_unread self.entry }
    {
        matches!(self, Input::Unread | Input::WithoutColumn)
    }
}

/// The inputs that have these texts, of which there is none where one cannot be read.
///
/// # Errors
///
/// Out of memory.
pub(crate) fn inputs_by<'a>(
    alloc: Global,
    asked: &Triage<'_>,
    texts: &'a [Option<Vec<u8>>],
) -> Result<Vec<Input<'a>>, AllocError>
    ensures { IfOk result (λ inputs. AllZip
        (IsInputOf asked.now.form asked.now.header asked.now.column) texts.now inputs.items) }
{
    let mut inputs = Vec::new(alloc);
    for text in texts {
        inputs.push(input_by(alloc, asked, text)?)?;
    }
    Ok(inputs)
}

/// The input that has this text.
fn input_by<'a>(
    alloc: Global,
    asked: &Triage<'_>,
    text: &'a Option<Vec<u8>>,
) -> Result<Input<'a>, AllocError>
    ensures { IfOk result
        (IsInputOf asked.now.form asked.now.header asked.now.column text.now) }
{
    match (asked.form, text) {
        (_, None) => Ok(Input::Unread),
        (Form::Lines, Some(text)) => {
            let layout = Layout {
                cells: Cells::Any,
                has_header: asked.header,
            };
            Ok(Input::Read(InputText { text, layout }))
        }
        (Form::Records, Some(text)) => table_by(alloc, asked.column, text),
    }
}

/// The table that has this text.
fn table_by<'a>(alloc: Global, column: Column<'_>, text: &'a [u8]) -> Result<Input<'a>, AllocError>
    ensures { IfOk result (IsTableOf column.entry text.now) }
{
    let Some((first, _)) = first_record(text) else {
        let layout = Layout {
            cells: Cells::Any,
            has_header: false,
        };
        return Ok(Input::Read(InputText { text, layout }));
    };
    match said_by(alloc, column, &first)? {
        Some(layout) => Ok(Input::Read(InputText { text, layout })),
        None => Ok(Input::WithoutColumn),
    }
}

/// What the first record of a table says of its records, if it has the column.
fn said_by(
    alloc: Global,
    column: Column<'_>,
    first: &CutRecord<'_>,
) -> Result<Option<Layout>, AllocError>
    requires { first.now.unclosed ≡ is_open first.now.body.now }
    ensures { IfOk result (Says column.entry first.now.body.now) }
{
    match column {
        Column::AnyColumn => Ok(Some(Layout {
            cells: Cells::Any,
            has_header: is_whole(first) && has_no_vector(first.body),
        })),
        Column::Index(_, _) | Column::Named(_) => match layout_of(alloc, column, first.body)? {
            Some(layout) => Ok(Some(Layout {
                cells: layout.cells,
                has_header: is_whole(first) && layout.has_header,
            })),
            None => Ok(None),
        },
    }
}

/// Whether a record has bytes, and its last field is not quoted and left open.
fn is_whole(cut: &CutRecord<'_>) -> bool
    requires { cut.now.unclosed ≡ is_open cut.now.body.now }
    ensures { result ≡ is_whole cut.now.body.now }
{
    !cut.body.is_empty() && !cut.unclosed
}

fn has_no_vector(body: &[u8]) -> bool
    ensures { IsTrue result ↔ AreFound (candidates_of body.now) [] }
{
    let mut matches = Matches::of(body);
    match matches.next() {
        None => true,
        Some(_) => false,
    }
}

/// The text of the first input, if that can be ranked.
pub(crate) fn first_text<'a>(inputs: &[Input<'a>]) -> Option<InputText<'a>>
    ensures { result ≡ first_text inputs.now }
{
    match inputs {
        [first, ..] => first.text(),
        [] => None,
    }
}
