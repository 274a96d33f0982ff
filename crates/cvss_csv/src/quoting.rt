//! How a text is written as a field.

ghost use Rattle.std.specs.Prelude.{◌≡◌, ◌++◌, OnOk, flat_map};
ghost use Rattle.std.specs.List.{list_any};
ghost use Rattle.cvss_csv.specs.Quoting.{doubled, field_of, wants_quotes};

use crate::state::{COMMA, QUOTE};
use cvss_lines::OutputBuffer;
use std::alloc::AllocError;

/// Appends the field that has this text as its value.
///
/// # Errors
///
/// Out of memory.
pub(crate) fn push_field(text: &[u8], out: &mut OutputBuffer) -> Result<(), AllocError>
    ensures { OnOk result (out.new.bytes.items ≡ out.old.bytes.items ++ field_of text.now) }
{
    if !is_quoted(text) {
        return out.push(text);
    }
    out.push(&[QUOTE])?;
    push_doubled(text, out)?;
    out.push(&[QUOTE])
}

/// Whether a text is written in quotes.
fn is_quoted(text: &[u8]) -> bool
    ensures { result ≡ list_any wants_quotes text.now }
{
    text.iter().any(|byte| wants_quotes(*byte))
}

/// Whether a field with this byte is written in quotes.
fn wants_quotes(byte: u8) -> bool
    ensures { result ≡ wants_quotes byte }
{
    matches!(byte, QUOTE | COMMA | b'\n' | b'\r')
}

/// Appends a text, with two quotes for each.
fn push_doubled(text: &[u8], out: &mut OutputBuffer) -> Result<(), AllocError>
    ensures { OnOk result (out.new.bytes.items ≡ out.old.bytes.items ++ flat_map doubled text.now) }
{
    for byte in text {
        push_byte(*byte, out)?;
    }
    Ok(())
}

fn push_byte(byte: u8, out: &mut OutputBuffer) -> Result<(), AllocError>
    ensures { OnOk result (out.new.bytes.items ≡ out.old.bytes.items ++ doubled byte) }
{
    if byte == QUOTE {
        out.push(b"\"\"")
    } else {
        out.push(&[byte])
    }
}
