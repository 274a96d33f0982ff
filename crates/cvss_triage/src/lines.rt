//! The lines of all inputs, or their records.

ghost use Rattle.std.specs.Prelude.{◌≡◌, ◌++◌, IfOk, OnOk, map, option_map};
ghost use Rattle.cvss_lines.specs.Lines.{lines as lines_of_text};
ghost use Rattle.cvss_triage.specs.Lines.{after_header, first_header, first_of, header_in, lines_in, lines_of, ranked_line, whole_line};
ghost use Rattle.cvss_triage.specs.Locations.{starts_of};
ghost use Rattle.cvss_triage.specs.private.Steps.{as_line, rows_of};

use crate::form::Form;
use crate::input::{Input, InputText, first_text};
use crate::records::{first_body, push_records};
use cvss_lines::first_line;
use std::alloc::{AllocError, Global};
use std::borrow::CowSlice;

/// A line, or a record.
#[derive(Drop)]
pub(crate) struct CutLine<'a> {
    /// What is written of it. A record that is not closed has none of its bytes.
    pub(crate) bytes: &'a [u8],
    /// The text in which its vector is looked for.
    pub(crate) searched: CowSlice<'a, u8>,
}

/// The lines or records of all inputs, one after another.
#[derive(Drop)]
pub(crate) struct Lines<'a> {
    /// What is ranked of each; `None`, if that is nothing, since it is the header of its input or empty.
    pub(crate) lines: Vec<Option<CutLine<'a>>>,
    /// For each input, how many of them the inputs before it have.
    pub(crate) starts: Vec<usize>,
}

impl<'a> CutLine<'a> {
    /// A line whose vector is looked for in all of it.
    pub(crate) fn whole(bytes: &'a [u8]) -> CutLine<'a>
        ensures { as_line result ≡ whole_line bytes.now }
    {
        CutLine {
            bytes,
            searched: CowSlice::Borrowed(bytes),
        }
    }
}

/// The lines or records of inputs.
#[tactic(auto, using(crate::proofs::InputLemmas::lines_all))]
pub(crate) fn lines_of<'a>(
    alloc: Global,
    form: Form,
    inputs: &[Input<'a>],
) -> Result<Lines<'a>, AllocError>
    ensures lines { IfOk result (λ all. rows_of all.lines.items ≡ lines_of form inputs.now) }
    ensures starts { IfOk result (λ all. all.starts.items ≡ starts_of form inputs.now) }
{
    let mut lines = Vec::new(alloc);
    let mut starts = Vec::new(alloc);
    for input in inputs {
        starts.push(lines.len())?;
        push_input(alloc, form, *input, &mut lines)?;
    }
    Ok(Lines { lines, starts })
}

fn push_input<'a>(
    alloc: Global,
    form: Form,
    input: Input<'a>,
    lines: &mut Vec<Option<CutLine<'a>>>,
) -> Result<(), AllocError>
    ensures { OnOk result (rows_of lines.new.items ≡ rows_of lines.old.items ++ lines_in form input.entry) }
{
    match (form, input) {
        (_, Input::Unread | Input::WithoutColumn) => Ok(()),
        (Form::Lines, Input::Read(input)) => push_list(input, lines),
        (Form::Records, Input::Read(input)) => push_records(alloc, input, lines),
    }
}

/// Appends the lines of an input.
fn push_list<'a>(
    input: InputText<'a>,
    lines: &mut Vec<Option<CutLine<'a>>>,
) -> Result<(), AllocError>
    ensures { OnOk result (rows_of lines.new.items
        ≡ rows_of lines.old.items ++ after_header input.entry.layout.has_header
        (map ranked_line (lines_of_text input.entry.text.now))) }
{
    match first_line(input.text) {
        Some((_, rest)) if input.layout.has_header => {
            lines.push(None)?;
            push_lines(rest, lines)
        }
        _ => push_lines(input.text, lines),
    }
}

/// Appends the lines of a text.
fn push_lines<'a>(text: &'a [u8], lines: &mut Vec<Option<CutLine<'a>>>) -> Result<(), AllocError>
    ensures { OnOk result (rows_of lines.new.items
        ≡ rows_of lines.old.items ++ map ranked_line (lines_of_text text.now)) }
{
    let mut left = text;
    while let Some((line, rest)) = first_line(left) {
        lines.push(Some(CutLine::whole(line)))?;
        left = rest;
    }
    Ok(())
}

/// The header of the first input, if that has one.
pub(crate) fn first_header<'a>(form: Form, inputs: &[Input<'a>]) -> Option<&'a [u8]>
    ensures { option_map (λ header. header.now) result ≡ first_header form inputs.now }
{
    match first_text(inputs) {
        Some(input) => header_in(form, input),
        None => None,
    }
}

fn header_in<'a>(form: Form, input: InputText<'a>) -> Option<&'a [u8]>
    ensures { option_map (λ header. header.now) result ≡ header_in form input.entry }
{
    if !input.layout.has_header {
        return None;
    }
    match form {
        Form::Lines => first_line_of(input.text),
        Form::Records => first_body(input.text),
    }
}

/// The first line of a text, if it has one.
fn first_line_of(text: &[u8]) -> Option<&[u8]>
    ensures { option_map (λ line. line.now) result ≡ first_of (lines_of_text text.now) }
{
    match first_line(text) {
        Some((line, _)) => Some(line),
        None => None,
    }
}
