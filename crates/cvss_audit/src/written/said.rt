//! How values are written in lines for people.

ghost use Rattle.std.specs.Prelude.{◌≡◌, IfOk};
ghost use Rattle.cvss_audit.specs.Differences.{said_view};
ghost use Rattle.cvss_audit.specs.Lines.{IsSaid, IsWanted};
ghost use Rattle.cvss_json.specs.Escapes.{quoted};
ghost use Rattle.serde_json.specs.View.{view};

use crate::disagreements::difference::Said;
use crate::tree::text::text_of;
use cvss_json::{Growing, put_string};
use serde_json::Value;
use std::alloc::{AllocError, Global};

/// What a member says.
pub(crate) fn said_text(alloc: Global, said: &Said<'_>) -> Result<Vec<u8>, AllocError>
    ensures { IfOk result (λ text. IsSaid (said_view said.now) text.items) }
{
    match said {
        Said::Value(value) => value_text(alloc, value),
        Said::Name(name) => quoted_text(alloc, name),
    }
}

/// What would agree.
pub(crate) fn wanted_text(alloc: Global, value: &Value) -> Result<Vec<u8>, AllocError>
    ensures { IfOk result (λ text. IsWanted (view value.now) text.items) }
{
    if value.is_null() {
        plain_text(alloc, "absent")
    } else {
        value_text(alloc, value)
    }
}

/// A value that has none inside, or its kind.
fn value_text(alloc: Global, value: &Value) -> Result<Vec<u8>, AllocError>
    ensures { IfOk result (λ text. IsSaid (view value.now) text.items) }
{
    match value {
        Value::Null | Value::Bool(_) | Value::Number(_) => text_of(alloc, value),
        Value::String(text) => quoted_text(alloc, text.as_str()),
        Value::Array(_) => plain_text(alloc, "an array"),
        Value::Object(_) => plain_text(alloc, "an object"),
    }
}

/// A text between quotation marks.
fn quoted_text(alloc: Global, text: &str) -> Result<Vec<u8>, AllocError>
    ensures { IfOk result (λ bytes. bytes.items ≡ quoted text.now) }
{
    let mut sink = Growing::new(alloc);
    put_string(&mut sink, text);
    sink.end()
}

fn plain_text(alloc: Global, text: &str) -> Result<Vec<u8>, AllocError>
    ensures { IfOk result (λ bytes. bytes.items ≡ text.now) }
{
    let mut bytes = Vec::new(alloc);
    bytes.extend_from_slice(text.as_bytes())?;
    Ok(bytes)
}
