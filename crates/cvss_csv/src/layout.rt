//! What the first record of a text says of its records.

ghost use Rattle.std.specs.Prelude.{◌≡◌, IfOk, bytes_eq};
ghost use Rattle.cvss_csv.specs.Fields.{fields, value};
ghost use Rattle.cvss_csv.specs.Answers.{searched};
ghost use Rattle.cvss_csv.specs.Layouts.{IsHeader, IsLayout, LacksVector, cells_by, cells_if, index_of};
ghost use Rattle.cvss_csv.specs.declared.asked.Cells.TheVariants.{At};

use crate::asked::{Cells, Column};
use crate::fields::{Fields, field_at};
use crate::search::search;
use crate::tally::{Count, Tally};
use crate::value::value_in;
use std::alloc::{AllocError, Global};

/// What the first record of a text says of its records.
#[derive(Clone, Copy, Drop)]
pub struct Layout {
    /// Which of their cells are searched.
    pub cells: Cells,
    /// Whether the first is a header.
    pub has_header: bool,
}

/// The layout of a text that begins with this record, if it has the column.
///
/// # Errors
///
/// Out of memory.
pub fn layout_of(
    alloc: Global,
    column: Column<'_>,
    first: &[u8],
) -> Result<Option<Layout>, AllocError>
    ensures { IfOk result (IsLayout column.entry first.now) }
{
    layout_by(column, first, &mut Vec::new(alloc), &mut Tally::new(alloc))
}

/// The same, with room for values and for the vectors that are found.
pub(crate) fn layout_by(
    column: Column<'_>,
    first: &[u8],
    room: &mut Vec<u8>,
    tally: &mut Tally,
) -> Result<Option<Layout>, AllocError>
    ensures { IfOk result (IsLayout column.entry first.now) }
{
    let Some(cells) = cells_by(column, first, room)? else {
        return Ok(None);
    };
    let has_header = is_header(column, first, room, tally)?;
    Ok(Some(Layout { cells, has_header }))
}

/// The cells that are searched in the records of a text that begins with this one, if it has the column.
fn cells_by(
    column: Column<'_>,
    first: &[u8],
    room: &mut Vec<u8>,
) -> Result<Option<Cells>, AllocError>
    ensures { IfOk result (λ cells. cells ≡ cells_by column.entry (fields first.now)) }
{
    match column {
        Column::AnyColumn => Ok(Some(Cells::Any)),
        Column::Index(index, _) => Ok(cells_at(index, first)),
        Column::Named(name) => match index_of(name, first, room)? {
            Some(index) => Ok(Some(Cells::At(index))),
            None => Ok(None),
        },
    }
}

/// The cells with this index, if the first record has one.
fn cells_at(index: usize, first: &[u8]) -> Option<Cells>
    ensures { result ≡ cells_if (At index) (searched (At index) (fields first.now)) }
{
    match field_at(index, first) {
        Some(_) => Some(Cells::At(index)),
        None => None,
    }
}

/// Whether the first record of a text is a header.
fn is_header(
    column: Column<'_>,
    first: &[u8],
    room: &mut Vec<u8>,
    tally: &mut Tally,
) -> Result<bool, AllocError>
    ensures { IfOk result (IsHeader column.entry (fields first.now)) }
{
    match column {
        Column::AnyColumn | Column::Index(_, _) => lacks_vector(first, room, tally),
        Column::Named(_) => Ok(true),
    }
}

/// Whether no vector is found in a record.
fn lacks_vector(body: &[u8], room: &mut Vec<u8>, tally: &mut Tally) -> Result<bool, AllocError>
    ensures { IfOk result (LacksVector (fields body.now)) }
{
    tally.clear();
    search(Cells::Any, body, room, tally)?;
    Ok(matches!(tally.count, Count::None))
}

/// The index of the first field of a record that has this value.
fn index_of(name: &[u8], body: &[u8], room: &mut Vec<u8>) -> Result<Option<usize>, AllocError>
    ensures { IfOk result (λ index. index ≡ index_of name.now (fields body.now)) }
{
    let mut fields = Fields::of(body);
    let mut at = 0;
    while let Some(field) = fields.next() {
        if has_value(field, name, room)? {
            return Ok(Some(at));
        }
        at += 1;
    }
    Ok(None)
}

/// Whether a field has this value.
fn has_value(field: &[u8], name: &[u8], room: &mut Vec<u8>) -> Result<bool, AllocError>
    ensures { IfOk result (λ has. has ≡ bytes_eq (value field.now) name.now) }
{
    Ok(value_in(field, room)? == name)
}
