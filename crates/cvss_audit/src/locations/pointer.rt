//! Steps into a document, as JSON Pointers (RFC 6901) have them.

ghost use Rattle.std.specs.Prelude.{◌≡◌, ◌++◌, OnOk, string_bytes};
ghost use Rattle.cvss_audit.specs.Locations.{escaped, escaped_char};
ghost use Rattle.cvss_audit.specs.LocationsLeft.{step_text};

use std::alloc::AllocError;
use std::fmt::Write;

/// A step from a value to one in it, or none to the document itself.
#[derive(Clone, Copy)]
pub(crate) enum Step<'a> {
    Document,
    Member(&'a str),
    Item(usize),
}

/// Writes a step after those before it.
pub(crate) fn push_step(text: &mut String, step: Step<'_>) -> Result<(), AllocError>
    ensures { OnOk result (string_bytes text.new ≡ string_bytes text.old ++ step_text step.entry) }
{
    match step {
        Step::Document => Ok(()),
        Step::Item(index) => write!(text, "/{index}"),
        Step::Member(name) => {
            text.push('/')?;
            push_escaped(text, name)
        }
    }
}

/// Writes a name as a pointer has it.
fn push_escaped(text: &mut String, name: &str) -> Result<(), AllocError>
    ensures { OnOk result (string_bytes text.new ≡ string_bytes text.old ++ escaped name.now) }
{
    for char in name.chars() {
        push_char(text, char)?;
    }
    Ok(())
}

/// Writes a character as a pointer has it.
fn push_char(text: &mut String, char: char) -> Result<(), AllocError>
    ensures { OnOk result (string_bytes text.new ≡ string_bytes text.old ++ escaped_char char) }
{
    match char {
        '~' => text.push_str("~0"),
        '/' => text.push_str("~1"),
        char => text.push(char),
    }
}
