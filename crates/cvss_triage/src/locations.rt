//! Where lines or records are among the inputs.

ghost use Rattle.std.specs.Prelude.{◌≡◌, ◌≤◌, All, MatchOption, option_and_then, option_map};
ghost use Rattle.cvss_triage.specs.Locations.{IsAt, IsLocation, shown_name};
ghost use Rattle.cvss_triage.specs.Reports.{is_unclosed, row_at};
ghost use Rattle.cvss_triage.specs.private.Steps.{as_line, rows_of};

use crate::form::Form;
use crate::lines::CutLine;
use cvss_frame::{has_name, source_of};

/// Where the lines or records of the operands' inputs are.
#[derive(Drop)]
pub(crate) struct Locations<'a> {
    pub(crate) form: Form,
    /// What is ranked of each.
    pub(crate) lines: &'a [Option<CutLine<'a>>],
    /// For each input, how many of them the inputs before it have.
    pub(crate) starts: &'a [usize],
    /// Whether there are several files.
    pub(crate) many: bool,
    pub(crate) operands: &'a [Vec<u8>],
}

impl Locations<'_> {
    /// Where the line or record is that has this number among those of all inputs: the name of its file,
    /// where there are several, and its number there. Both numbers count from 1.
    pub(crate) fn of_line(&self, number: usize) -> (Option<&[u8]>, usize)
        ensures { IsAt self.now.starts.now self.now.many self.now.operands.now number
            (option_map (λ name. name.now) result.0) result.1 }
    {
        match location_of(self.starts, number) {
            Some((input, within)) => (shown_name(self.many, self.operands.get(input)), within),
            None => (None, number),
        }
    }

    /// Whether what has this number is a record that is not closed.
    pub(crate) fn is_unclosed(&self, number: usize) -> bool
        ensures { result ≡ is_unclosed self.now.form (row_at (rows_of self.now.lines.now) number) }
    {
        match self.lines.get(number.saturating_sub(1)) {
            Some(row) => is_unclosed(self.form, row),
            None => false,
        }
    }
}

/// Whether no bytes are ranked of a record.
fn is_unclosed(form: Form, row: &Option<CutLine<'_>>) -> bool
    ensures { result ≡ is_unclosed form (option_map as_line row.now) }
{
    match (form, row) {
        (Form::Records, Some(line)) => line.bytes.is_empty(),
        _ => false,
    }
}

/// The input that has the line or record of this number, and its number there, by how many are before each
/// input.
fn location_of(starts: &[usize], number: usize) -> Option<(usize, usize)>
    ensures { MatchOption result (All (λ start. number ≤ start) starts.now)
        (λ location. IsLocation starts.now number location.0 location.1) }
{
    let mut left = starts;
    while let [before @ .., start] = left {
        if *start < number {
            return Some((before.len(), number - *start));
        }
        left = before;
    }
    None
}

/// The name of an operand, where there are several files and it is no vector.
fn shown_name(many: bool, operand: Option<&Vec<u8>>) -> Option<&[u8]>
    ensures { option_map (λ name. name.now) result
        ≡ option_and_then (λ operand. shown_name many operand.now.items) operand.entry }
{
    match operand {
        Some(name) if many && has_name(source_of(name)) => Some(name),
        _ => None,
    }
}
