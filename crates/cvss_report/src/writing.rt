//! How a row is written.

ghost use Rattle.std.specs.Prelude.{◌≡◌, ◌++◌, [], ◌∷◌, codes, map, OnOk};
ghost use Rattle.cvss_json.specs.Sinks.{Adds};
ghost use Rattle.cvss_report.specs.Cells.{before_cell, cell_text, closing, file_column, file_of, given_text, nothing, object_start, opening, quote};
ghost use Rattle.cvss_report.specs.Rows.{cells_text, field_text};
ghost use Rattle.cvss_report.specs.private.Views.{cell_view, field_view};

use crate::cells::{Cell, Field};
use crate::escaping::put_given;
use crate::format::Format;
use cvss_json::{Growing, Sink};
use cvss_lines::OutputBuffer;
use std::alloc::AllocError;

/// Writes what is before the fields.
pub(crate) fn write_start(
    format: Format,
    named: bool,
    prefix: &[u8],
    line: &[u8],
    answers: &mut OutputBuffer,
) -> Result<(), AllocError>
    ensures { OnOk result (answers.new.bytes.items
        ≡ answers.old.bytes.items ++ (opening format named prefix.now ++ given_text format line.now)) }
{
    let mut sink = Growing::begin_after(answers);
    put_start(&mut sink, format, named, prefix, line);
    sink.end_into(answers)
}

#[tactic(auto, using(cvss_json::proofs::AddsLemmas::join2))]
fn put_start<S: Sink>(sink: &mut S, format: Format, named: bool, prefix: &[u8], line: &[u8])
    ensures { Adds S.Holds (opening format named prefix.now ++ given_text format line.now)
        sink.old sink.new }
{
    put_opening(sink, format, named, prefix);
    put_given(sink, format, line);
}

#[tactic(auto, using(cvss_json::proofs::AddsLemmas::join2))]
fn put_opening<S: Sink>(sink: &mut S, format: Format, named: bool, prefix: &[u8])
    ensures { Adds S.Holds (opening format named prefix.now) sink.old sink.new }
{
    match format {
        Format::Json => {
            put_object_start(sink, prefix);
            sink.push(b"\"given\":");
        }
        Format::Tsv | Format::GuardedTsv => put_file(sink, named, format, prefix),
    }
}

/// Writes the name of the file in a column, where that comes first: what the prefix has before its colon.
fn put_file<S: Sink>(sink: &mut S, named: bool, format: Format, prefix: &[u8])
    ensures { Adds S.Holds (file_column named format prefix.now) sink.old sink.new }
{
    if named {
        put_column(sink, format, file_of(prefix));
    } else {
        sink.push(b"");
    }
}

/// Writes a text in a column, and the tab after it.
#[tactic(auto, using(cvss_json::proofs::AddsLemmas::join2))]
fn put_column<S: Sink>(sink: &mut S, format: Format, text: &[u8])
    ensures { Adds S.Holds (given_text format text.now ++ codes "\t") sink.old sink.new }
{
    put_given(sink, format, text);
    sink.push(b"\t");
}

/// The name of a file, which a prefix has before its colon.
fn file_of(prefix: &[u8]) -> &[u8]
    ensures { result.now ≡ file_of prefix.now }
{
    match prefix {
        [file @ .., _] => file,
        [] => prefix,
    }
}

/// Writes the beginning of an object, with the file that the prefix names before its colon, if it is
/// not empty.
#[tactic(auto, using(cvss_json::proofs::AddsLemmas::join2))]
pub fn put_object_start<S: Sink>(sink: &mut S, prefix: &[u8])
    ensures { Adds S.Holds (object_start prefix.now) sink.old sink.new }
{
    match prefix {
        [] => sink.push(b"{"),
        [file @ .., _] => {
            sink.push(b"{\"file\":");
            put_given(sink, Format::Json, file);
            sink.push(b",");
        }
    }
}

/// Writes fields, and a byte 10.
pub(crate) fn write_fields(
    format: Format,
    fields: &[Field<'_>],
    answers: &mut OutputBuffer,
) -> Result<(), AllocError>
    ensures { OnOk result (answers.new.bytes.items ≡ answers.old.bytes.items
        ++ (cells_text format (map field_view fields.now) ++ 10 ∷ [])) }
{
    let mut sink = Growing::begin_after(answers);
    put_fields(&mut sink, format, fields);
    sink.end_into(answers)
}

/// Writes the fields that are left of a row, what is after the last cell, and a byte 10.
#[cycle(put_fields)]
#[tactic(auto, using(cvss_json::proofs::AddsLemmas::join2))]
fn put_fields<S: Sink>(sink: &mut S, format: Format, fields: &[Field<'_>])
    ensures { Adds S.Holds (cells_text format (map field_view fields.now) ++ 10 ∷ [])
        sink.old sink.new }
{
    let [(name, cell), rest @ ..] = fields else {
        put_closing(sink, format);
        return;
    };
    put_field(sink, format, name, *cell);
    put_fields(sink, format, rest);
}

#[tactic(auto, using(cvss_json::proofs::AddsLemmas::join2))]
fn put_field<S: Sink>(sink: &mut S, format: Format, name: &'static str, cell: Cell<'_>)
    ensures { Adds S.Holds (field_text format (name.now, cell_view cell.entry))
        sink.old sink.new }
{
    put_name(sink, format, name);
    put_cell(sink, format, cell);
}

/// Writes what is before a cell in the column of this name.
#[tactic(auto, using(cvss_json::proofs::AddsLemmas::join2))]
fn put_name<S: Sink>(sink: &mut S, format: Format, name: &'static str)
    ensures { Adds S.Holds (before_cell format name.now) sink.old sink.new }
{
    match format {
        Format::Tsv | Format::GuardedTsv => sink.push(b"\t"),
        Format::Json => {
            sink.push(b",\"");
            sink.push(name.as_bytes());
            sink.push(b"\":");
        }
    }
}

#[tactic(auto, using(cvss_json::proofs::AddsLemmas::join2))]
fn put_cell<S: Sink>(sink: &mut S, format: Format, cell: Cell<'_>)
    ensures { Adds S.Holds (cell_text format (cell_view cell.entry)) sink.old sink.new }
{
    match cell {
        Cell::Nothing => put_nothing(sink, format),
        Cell::Words(words) => {
            put_quote(sink, format);
            sink.push(words.as_bytes());
            put_quote(sink, format);
        }
        Cell::Given(text) => put_given(sink, format, text),
        Cell::Number(number) => sink.push(number.as_bytes()),
    }
}

fn put_nothing<S: Sink>(sink: &mut S, format: Format)
    ensures { Adds S.Holds (nothing format) sink.old sink.new }
{
    match format {
        Format::Tsv | Format::GuardedTsv => sink.push(b""),
        Format::Json => sink.push(b"null"),
    }
}

fn put_quote<S: Sink>(sink: &mut S, format: Format)
    ensures { Adds S.Holds (quote format) sink.old sink.new }
{
    match format {
        Format::Tsv | Format::GuardedTsv => sink.push(b""),
        Format::Json => sink.push(b"\""),
    }
}

/// Writes what is after the last cell, and a byte 10.
fn put_closing<S: Sink>(sink: &mut S, format: Format)
    ensures { Adds S.Holds (closing format ++ 10 ∷ []) sink.old sink.new }
{
    match format {
        Format::Tsv | Format::GuardedTsv => sink.push(b"\n"),
        Format::Json => sink.push(b"}\n"),
    }
}
