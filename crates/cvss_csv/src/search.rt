//! The search for vectors in the cells of a record.

ghost use Rattle.std.specs.Prelude.{◌≡◌, [], ◌∷◌, MatchOption, OnOk, drop, take};
ghost use Rattle.cvss_csv.specs.Answers.{searched};
ghost use Rattle.cvss_csv.specs.Fields.{fields, value};
ghost use Rattle.cvss_csv.specs.private.Searching.{FindsIn, FindsInAll};

use crate::asked::Cells;
use crate::fields::{Fields, field_at};
use crate::notes::Notes;
use crate::value::value_in;
use cvss_matches::Matches;
use std::alloc::AllocError;

/// Searches the cells of a record, and notes what is found. The room is for values that are decoded.
pub(crate) fn search<N: Notes>(
    cells: Cells,
    body: &[u8],
    room: &mut Vec<u8>,
    notes: &mut N,
) -> Result<(), AllocError>
    ensures { OnOk result
        (FindsInAll N.is_of (searched cells (fields body.now)) notes.old notes.new) }
{
    match cells {
        Cells::Any => search_all(body, room, notes),
        Cells::At(index) => match field_at(index, body) {
            Some(field) => search_field(field, room, notes),
            None => Ok(()),
        },
    }
}

fn search_all<N: Notes>(body: &[u8], room: &mut Vec<u8>, notes: &mut N) -> Result<(), AllocError>
    ensures { OnOk result (FindsInAll N.is_of (fields body.now) notes.old notes.new) }
{
    let mut fields = Fields::of(body);
    while let Some(field) = fields.next() {
        search_field(field, room, notes)?;
    }
    Ok(())
}

fn search_field<N: Notes>(field: &[u8], room: &mut Vec<u8>, notes: &mut N) -> Result<(), AllocError>
    ensures { OnOk result (FindsIn N.is_of (value field.now) notes.old notes.new) }
{
    search_value(value_in(field, room)?, notes)
}

fn search_value<N: Notes>(text: &[u8], notes: &mut N) -> Result<(), AllocError>
    ensures { OnOk result (FindsIn N.is_of text.now notes.old notes.new) }
{
    let mut matches = Matches::of(text);
    while let Some(found) = matches.next() {
        notes.note(found.text)?;
    }
    Ok(())
}
