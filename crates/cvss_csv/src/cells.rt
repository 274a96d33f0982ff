//! The six cells that answer a record.

ghost use Rattle.std.specs.Prelude.{◌≡◌, ◌++◌, [], ◌∷◌, ℕ, List, codes, IfOk, OnOk};
ghost use Rattle.cvss_csv.specs.Cells.{IsReadAs, Names, Nothing, Reason};
ghost use Rattle.cvss_csv.specs.Quoting.{field_of};
ghost use Rattle.cvss_csv.specs.Writing.{Writes};
ghost use Rattle.cvss_vector.specs.Reasons.{error_message};

use crate::asked::Asked;
use crate::quoting::push_field;
use crate::vector::push_vector;
use cvss_lines::OutputBuffer;
use cvss_vector::{Cvss, ReadError, write_error};
use std::alloc::AllocError;

/// The names of the six columns, each after a comma.
pub const NAMES: &[u8] = b",vector,version,score,severity,base,error";

/// Appends the names of the six columns, after those of a header.
///
/// # Errors
///
/// Out of memory. A beginning of the names may be written then.
pub(crate) fn push_names(asked: Asked, out: &mut OutputBuffer) -> Result<Option<bool>, AllocError>
    ensures { IfOk result (Writes asked (λ verdict. verdict ≡ Names)
        out.old.bytes.items out.new.bytes.items) }
{
    out.push(NAMES)?;
    Ok(None)
}

/// Appends empty cells.
pub(crate) fn push_nothing(asked: Asked, out: &mut OutputBuffer) -> Result<Option<bool>, AllocError>
    ensures { IfOk result (Writes asked (λ verdict. verdict ≡ Nothing)
        out.old.bytes.items out.new.bytes.items) }
{
    out.push(b",,,,,,")?;
    Ok(None)
}

/// Appends five empty cells and a reason.
pub(crate) fn push_reason(
    asked: Asked,
    reason: &[u8],
    out: &mut OutputBuffer,
) -> Result<Option<bool>, AllocError>
    ensures { IfOk result (Writes asked (λ verdict. verdict ≡ Reason reason.now)
        out.old.bytes.items out.new.bytes.items) }
{
    push_error(reason, out)?;
    Ok(Some(false))
}

fn push_error(reason: &[u8], out: &mut OutputBuffer) -> Result<(), AllocError>
    ensures { OnOk result (out.new.bytes.items
        ≡ out.old.bytes.items ++ (codes ",,,,,," ++ field_of reason.now)) }
{
    out.push(b",,,,,,")?;
    push_field(reason, out)
}

/// Appends the cells of the text of a vector. The room is for a reason.
pub(crate) fn push_read(
    asked: Asked,
    text: &[u8],
    room: &mut OutputBuffer,
    out: &mut OutputBuffer,
) -> Result<Option<bool>, AllocError>
    ensures { IfOk result (Writes asked (IsReadAs asked.allow_incomplete text.now)
        out.old.bytes.items out.new.bytes.items) }
{
    match Cvss::read_by(text, asked.allow_incomplete) {
        Ok(cvss) => {
            push_vector(asked, &cvss, out)?;
            Ok(Some(true))
        }
        Err(error) => {
            push_error_of(error, room, out)?;
            Ok(Some(false))
        }
    }
}

/// Appends five empty cells and what an error says.
fn push_error_of(
    error: ReadError<'_>,
    room: &mut OutputBuffer,
    out: &mut OutputBuffer,
) -> Result<(), AllocError>
    ensures { OnOk result (out.new.bytes.items
        ≡ out.old.bytes.items ++ (codes ",,,,,," ++ field_of (error_message error.entry))) }
{
    room.bytes.clear();
    write_error(error, room)?;
    push_error(message_in(&room.bytes), out)
}

/// What an error says, without the word before it and the byte 10 after it.
fn message_in(line: &[u8]) -> &[u8]
    ensures { (message : List ℕ) → line.now ≡ codes "error: " ++ (message ++ 10 ∷ []) → result.now ≡ message }
{
    match line {
        [
            b'e',
            b'r',
            b'r',
            b'o',
            b'r',
            b':',
            b' ',
            message @ ..,
            b'\n',
        ] => message,
        _ => line,
    }
}
