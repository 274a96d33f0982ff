//! Where a match is.

ghost use Rattle.std.specs.Prelude.{◌≡◌, ◌++◌, OnOk};
ghost use Rattle.cvss_matches.specs.Answers.{location_text};

use cvss_lines::OutputBuffer;
use std::alloc::AllocError;
use std::fmt::Write;

/// Writes the number of a line, a colon, 1 for the column of its first byte, and a space.
pub(crate) fn write_first_location(
    number: u64,
    answers: &mut OutputBuffer,
) -> Result<(), AllocError>
    ensures { OnOk result (answers.new.bytes.items
        ≡ answers.old.bytes.items ++ location_text number 0) }
{
    match write!(answers, "{number}:1 ") {
        Ok(()) => Ok(()),
        Err(_) => Err(AllocError),
    }
}

/// Writes the number of a line, a colon, the column of a match in it, counted from 1, and a space.
pub(crate) fn write_location(
    number: u64,
    offset: usize,
    answers: &mut OutputBuffer,
) -> Result<(), AllocError>
    ensures { OnOk result (answers.new.bytes.items
        ≡ answers.old.bytes.items ++ location_text number offset) }
{
    match write!(answers, "{number}:{} ", offset as u128 + 1) {
        Ok(()) => Ok(()),
        Err(_) => Err(AllocError),
    }
}
