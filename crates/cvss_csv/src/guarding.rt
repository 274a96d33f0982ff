//! Records whose cells a spreadsheet takes for no formula.

ghost use Rattle.std.specs.Prelude.{◌≡◌, ◌++◌, ◌∷◌, OnOk, true};
ghost use Rattle.cvss_csv.specs.Fields.{comma, fields};
ghost use Rattle.cvss_csv.specs.Guards.{guarded_field, guarded_fields, shown_record};
ghost use Rattle.cvss_report.specs.Cells.{guard};

use crate::fields::Fields;
use crate::state::QUOTE;
use cvss_lines::OutputBuffer;
use cvss_report::is_formula;
use std::alloc::AllocError;

/// Appends a record, which is given without its line end, as it is or guarded.
///
/// # Errors
///
/// Out of memory. A beginning of the record may be written then.
pub fn push_shown(guarded: bool, body: &[u8], out: &mut OutputBuffer) -> Result<(), AllocError>
    ensures { OnOk result
        (out.new.bytes.items ≡ out.old.bytes.items ++ shown_record guarded body.now) }
{
    if guarded {
        push_guarded(body, out)
    } else {
        out.push(body)
    }
}

/// Appends the fields of a record, each guarded, with commas between them.
fn push_guarded(body: &[u8], out: &mut OutputBuffer) -> Result<(), AllocError>
    ensures { OnOk result
        (out.new.bytes.items ≡ out.old.bytes.items ++ guarded_fields (fields body.now)) }
{
    let mut left = Fields::of(body);
    let Some(first) = left.next() else {
        return Ok(());
    };
    push_field(first, out)?;
    while let Some(field) = left.next() {
        push_after_comma(field, out)?;
    }
    Ok(())
}

fn push_after_comma(field: &[u8], out: &mut OutputBuffer) -> Result<(), AllocError>
    ensures { OnOk result
        (out.new.bytes.items ≡ out.old.bytes.items ++ (comma ∷ guarded_field field.now)) }
{
    out.push(b",")?;
    push_field(field, out)
}

/// Appends a field, with the apostrophe before its text, after the quote if it is quoted.
fn push_field(field: &[u8], out: &mut OutputBuffer) -> Result<(), AllocError>
    ensures { OnOk result
        (out.new.bytes.items ≡ out.old.bytes.items ++ guarded_field field.now) }
{
    match field {
        [QUOTE, text @ ..] => {
            out.push(b"\"")?;
            push_text(text, out)
        }
        _ => push_text(field, out),
    }
}

/// Appends a text, after an apostrophe if it begins as a formula.
fn push_text(text: &[u8], out: &mut OutputBuffer) -> Result<(), AllocError>
    ensures { OnOk result
        (out.new.bytes.items ≡ out.old.bytes.items ++ (guard true text.now ++ text.now)) }
{
    if is_formula(text) {
        out.push(b"'")?;
    }
    out.push(text)
}
