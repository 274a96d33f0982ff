//! The records of tables.

ghost use Rattle.std.specs.Prelude.{◌≡◌, ◌++◌, IfOk, OnOk, map, option_map};
ghost use Rattle.std.specs.Cow.{cow_slice_items};
ghost use Rattle.cvss_csv.specs.Records.{as_record, is_open, records as records_of_text};
ghost use Rattle.cvss_triage.specs.Lines.{after_header, closed_line, ends_crlf, first_of, is_crlf, ranked_of, searched_in};
ghost use Rattle.cvss_triage.specs.private.Steps.{as_line, rows_of};

use crate::input::{Input, InputText, first_text};
use crate::lines::CutLine;
use cvss_csv::{Cells, CutRecord, first_record, value_at};
use std::alloc::{AllocError, Global};
use std::borrow::CowSlice;

/// Appends what is ranked of the records of an input.
pub(crate) fn push_records<'a>(
    alloc: Global,
    input: InputText<'a>,
    lines: &mut Vec<Option<CutLine<'a>>>,
) -> Result<(), AllocError>
    ensures { OnOk result (rows_of lines.new.items
        ≡ rows_of lines.old.items ++ after_header input.entry.layout.has_header
        (map (ranked_of input.entry.layout.cells) (records_of_text input.entry.text.now))) }
{
    match first_record(input.text) {
        Some((_, rest)) if input.layout.has_header => {
            lines.push(None)?;
            push_all(alloc, input.layout.cells, rest, lines)
        }
        _ => push_all(alloc, input.layout.cells, input.text, lines),
    }
}

/// Appends what is ranked of records none of which is a header.
fn push_all<'a>(
    alloc: Global,
    cells: Cells,
    text: &'a [u8],
    lines: &mut Vec<Option<CutLine<'a>>>,
) -> Result<(), AllocError>
    ensures { OnOk result (rows_of lines.new.items
        ≡ rows_of lines.old.items ++ map (ranked_of cells) (records_of_text text.now)) }
{
    let mut left = text;
    while let Some((record, rest)) = first_record(left) {
        lines.push(ranked_of(alloc, cells, &record)?)?;
        left = rest;
    }
    Ok(())
}

/// What is ranked of a record: nothing of an empty one, and no bytes of one that is not closed, so that no
/// vector is found in it.
fn ranked_of<'a>(
    alloc: Global,
    cells: Cells,
    cut: &CutRecord<'a>,
) -> Result<Option<CutLine<'a>>, AllocError>
    requires { cut.now.unclosed ≡ is_open cut.now.body.now }
    ensures { IfOk result (λ line. option_map as_line line ≡ ranked_of cells (as_record cut.now)) }
{
    if cut.unclosed {
        Ok(Some(CutLine::whole(&[])))
    } else {
        closed_line(alloc, cells, cut.body)
    }
}

/// What is ranked of a record that is closed.
fn closed_line<'a>(
    alloc: Global,
    cells: Cells,
    body: &'a [u8],
) -> Result<Option<CutLine<'a>>, AllocError>
    ensures { IfOk result (λ line. option_map as_line line ≡ closed_line cells body.now) }
{
    if body.is_empty() {
        return Ok(None);
    }
    Ok(Some(CutLine {
        bytes: body,
        searched: searched_in(alloc, cells, body)?,
    }))
}

/// The text of a record in which its vector is looked for.
fn searched_in<'a>(
    alloc: Global,
    cells: Cells,
    body: &'a [u8],
) -> Result<CowSlice<'a, u8>, AllocError>
    ensures { IfOk result (λ text. cow_slice_items text ≡ searched_in cells body.now) }
{
    match cells {
        Cells::Any => Ok(CowSlice::Borrowed(body)),
        Cells::At(index) => value_at(alloc, index, body),
    }
}

/// The first record of a text without its line end, if it has one.
pub(crate) fn first_body(text: &[u8]) -> Option<&[u8]>
    ensures { option_map (λ body. body.now) result
        ≡ first_of (map (λ each. each.body) (records_of_text text.now)) }
{
    match first_record(text) {
        Some((first, _)) => Some(first.body),
        None => None,
    }
}

/// Whether the first record of the first input ends with a carriage return and a line feed.
pub(crate) fn is_crlf(inputs: &[Input<'_>]) -> bool
    ensures { result ≡ is_crlf inputs.now }
{
    match first_text(inputs) {
        Some(input) => ends_crlf(input.text),
        None => false,
    }
}

/// Whether the first record of a text, if it has one, ends so.
fn ends_crlf(text: &[u8]) -> bool
    ensures { result ≡ ends_crlf (first_of (records_of_text text.now)) }
{
    match first_record(text) {
        Some((first, _)) => matches!(first.line_end, b"\r\n"),
        None => false,
    }
}
