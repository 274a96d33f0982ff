//! How rows are written.

ghost use Rattle.std.specs.Prelude.{◌≡◌, ◌++◌, ◌≤◌, All, IfOk, OnOk, option_map};
ghost use Rattle.cvss_json.specs.Sinks.{Adds};
ghost use Rattle.cvss_vector.specs.Answers.{text_of};
ghost use Rattle.cvss_triage.specs.Rows.{AreRowTexts, IsObject, IsRowText, IsTable, file_member, first_members, header_line, header_text, row_text, scored_text};
ghost use Rattle.cvss_triage.specs.Shown.{shown_rows};
ghost use Rattle.cvss_triage.specs.Triage.{IsPrinted};
ghost use Rattle.cvss_triage.specs.declared.style.Style.TheVariants.{Words};
ghost use Rattle.cvss_triage.specs.private.Steps.{IsToTen, WritesRow};

use crate::counting::numbers_text;
use crate::locations::Locations;
use crate::ranking::Ranking;
use crate::row::Row;
use crate::style::Style;
use crate::table::{write_table_header, write_table_row};
use crate::triage::Triage;
use cvss_base::tenths;
use cvss_json::{Growing, Sink, put_whole};
use cvss_lines::OutputBuffer;
use cvss_report::{Format, Gate, put_given, write_cells};
use cvss_vector::Cvss;
use std::alloc::{AllocError, Global};
use std::fmt::{self, Write};

/// The text of the rows that are shown, after the header if there is one, or of their numbers, unless
/// nothing is to be printed.
///
/// # Errors
///
/// Out of memory.
pub(crate) fn printed_text(
    alloc: Global,
    asked: &Triage<'_>,
    style: &Style,
    top: Option<&[u8]>,
    ranking: &Ranking<'_>,
    locations: &Locations<'_>,
) -> Result<Vec<u8>, AllocError>
    requires { All IsToTen ranking.now.rows.items }
    ensures { IfOk result (λ text. IsPrinted asked.now.gate.quiet asked.now.count style.now
        (option_map (λ line. line.now) top.entry) locations.now.starts.now locations.now.many
        locations.now.operands.now asked.now.gate ranking.now text.items) }
{
    if asked.gate.quiet {
        Ok(Vec::new(alloc))
    } else if asked.count {
        numbers_text(alloc, asked.gate, ranking)
    } else {
        table_text(alloc, asked.gate, style, top, &ranking.rows, locations)
    }
}

/// The text of the rows that are shown, after the header if there is one.
fn table_text(
    alloc: Global,
    gate: Gate,
    style: &Style,
    top: Option<&[u8]>,
    rows: &[Row<'_>],
    locations: &Locations<'_>,
) -> Result<Vec<u8>, AllocError>
    requires { All IsToTen rows.now }
    ensures { IfOk result (λ text. IsTable style.now (option_map (λ line. line.now) top.entry)
        (IsRowText style.now locations.now.starts.now locations.now.many locations.now.operands.now)
        (shown_rows gate rows.now) text.items) }
{
    let mut text = OutputBuffer {
        bytes: Vec::new(alloc),
    };
    write_header(style, top, &mut text)?;
    write_rows(alloc, gate, style, rows, locations, &mut text)?;
    Ok(text.bytes)
}

/// Writes the header, if there is one.
fn write_header(
    style: &Style,
    header: Option<&[u8]>,
    text: &mut OutputBuffer,
) -> Result<(), AllocError>
    ensures { OnOk result (text.new.bytes.items
        ≡ text.old.bytes.items ++ header_text style.now (option_map (λ line. line.now) header.entry)) }
{
    match (header, style) {
        (None, _) | (_, Style::Objects(_)) => Ok(()),
        (Some(line), Style::Words) => write_header_line(line, text),
        (Some(body), Style::Table(asked, crlf)) => write_table_header(*asked, *crlf, body, text),
    }
}

/// Writes a header after the names of what is before the line in each row.
fn write_header_line(line: &[u8], text: &mut OutputBuffer) -> Result<(), AllocError>
    ensures { OnOk result (text.new.bytes.items
        ≡ text.old.bytes.items ++ header_line Words line.now) }
{
    text.push(b"score severity vector\t")?;
    text.push(line)?;
    text.push(b"\n")
}

/// Writes the rows that are shown.
#[tactic(auto, using(crate::proofs::RowLemmas::to_ten_at))]
fn write_rows(
    alloc: Global,
    gate: Gate,
    style: &Style,
    rows: &[Row<'_>],
    locations: &Locations<'_>,
    text: &mut OutputBuffer,
) -> Result<(), AllocError>
    requires { All IsToTen rows.now }
    ensures { OnOk result (WritesRow (AreRowTexts
        (IsRowText style.now locations.now.starts.now locations.now.many locations.now.operands.now)
        (shown_rows gate rows.now)) text.old.bytes.items text.new.bytes.items) }
{
    for row in rows {
        if gate.shows(row.tenths) {
            write_row(alloc, style, row, locations, text)?;
        }
    }
    Ok(())
}

/// Writes a row in words, as an object or as a record.
fn write_row(
    alloc: Global,
    style: &Style,
    row: &Row<'_>,
    locations: &Locations<'_>,
    text: &mut OutputBuffer,
) -> Result<(), AllocError>
    requires { IsToTen row.now }
    ensures { OnOk result (WritesRow
        (IsRowText style.now locations.now.starts.now locations.now.many locations.now.operands.now row.now)
        text.old.bytes.items text.new.bytes.items) }
{
    match style {
        Style::Words => write_words(row, text),
        Style::Objects(allow_incomplete) => {
            write_object(alloc, *allow_incomplete, row, locations, text)
        }
        Style::Table(asked, crlf) => write_table_row(*asked, *crlf, row, text),
    }
}

/// Writes the score, its severity, the vector and the line.
fn write_words(row: &Row<'_>, text: &mut OutputBuffer) -> Result<(), AllocError>
    requires { row.now.tenths ≤ 100 }
    ensures { OnOk result (text.new.bytes.items ≡ text.old.bytes.items ++ row_text row.now) }
{
    write_scored(row, text)?;
    text.push(b"\t")?;
    text.push(row.line)?;
    text.push(b"\n")
}

/// Writes the score, its severity and the vector, with a blank between two of them.
fn write_scored(row: &Row<'_>, text: &mut OutputBuffer) -> Result<(), AllocError>
    requires { row.now.tenths ≤ 100 }
    ensures { OnOk result (text.new.bytes.items ≡ text.old.bytes.items ++ scored_text row.now) }
{
    text.push(tenths::text_of(row.tenths).as_bytes())?;
    text.push(b" ")?;
    text.push(
        row.vector
            .severity_of_tenths(row.tenths)
            .as_str()
            .as_bytes(),
    )?;
    text.push(b" ")?;
    match write_vector(&row.vector, text) {
        Ok(()) => Ok(()),
        Err(_) => Err(AllocError),
    }
}

#[tactic(auto, using(cvss_lines::proofs::TextsLemmas::appended))]
fn write_vector(vector: &Cvss, text: &mut OutputBuffer) -> fmt::Result
    ensures { OnOk result (text.new.bytes.items ≡ text.old.bytes.items ++ text_of vector.now) }
{
    write!(text, "{vector}")
}

/// Writes the object of a row.
fn write_object(
    alloc: Global,
    allow_incomplete: bool,
    row: &Row<'_>,
    locations: &Locations<'_>,
    text: &mut OutputBuffer,
) -> Result<(), AllocError>
    ensures { OnOk result (WritesRow (IsObject allow_incomplete
        locations.now.starts.now locations.now.many locations.now.operands.now row.now)
        text.old.bytes.items text.new.bytes.items) }
{
    let (name, number) = locations.of_line(row.number);
    write_first_members(name, number, row.line, text)?;
    let vector = row.vector.to_string(alloc)?;
    write_cells(
        alloc,
        Format::Json,
        vector.as_bytes(),
        allow_incomplete,
        text,
    )?;
    Ok(())
}

fn write_first_members(
    name: Option<&[u8]>,
    number: usize,
    line: &[u8],
    text: &mut OutputBuffer,
) -> Result<(), AllocError>
    ensures { OnOk result (text.new.bytes.items ≡ text.old.bytes.items
        ++ first_members (option_map (λ name. name.now) name.entry) number line.now) }
{
    let mut sink = Growing::begin_after(text);
    put_first_members(&mut sink, name, number, line);
    sink.end_into(text)
}

fn put_first_members<S: Sink>(sink: &mut S, name: Option<&[u8]>, number: usize, line: &[u8])
    ensures { Adds S.Holds
        (first_members (option_map (λ name. name.now) name.entry) number line.now)
        sink.old sink.new }
{
    sink.push(b"{");
    put_file(sink, name);
    sink.push(b"\"line\":");
    put_whole(sink, number as u64);
    sink.push(b",\"text\":");
    put_given(sink, Format::Json, line);
}

/// Writes the member that says a line's file, if that is named.
#[tactic(auto, using(cvss_json::proofs::AddsLemmas::join2))]
fn put_file<S: Sink>(sink: &mut S, name: Option<&[u8]>)
    ensures { Adds S.Holds (file_member (option_map (λ name. name.now) name.entry))
        sink.old sink.new }
{
    match name {
        None => sink.push(b""),
        Some(name) => {
            sink.push(b"\"file\":");
            put_given(sink, Format::Json, name);
            sink.push(b",");
        }
    }
}
