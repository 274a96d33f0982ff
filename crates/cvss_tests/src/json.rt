//! Tests of JSON values that are no strings, and of errors.

use crate::values::{Tried, are_printed};
use cvss::json::{JsonError, JsonText};
use cvss::{Cvss, Error, Severity, v2, v3, v4};
use serde_json::{Map, Value};
use std::alloc::Global;
use std::process::Abort;
use std::test::Fail;

/// Reads values that are no strings.
fn are_no_strings<T>(rt: &impl Abort, alloc: Global, values: &[Value])
where
    T: JsonText + Drop,
{
    for value in values {
        assert!(rt; matches!(T::from_value(alloc, value), Err(JsonError::NotAString)));
    }
}

/// A value of each kind but a string.
fn values_of_each_kind(alloc: Global) -> Result<[Value; 5], Fail> {
    let low = Value::try_from_str(alloc, "low")?;
    let list = Value::from(vec![in alloc; low]?);
    let object = Value::from(Map::new(alloc));
    Ok([
        Value::Null,
        Value::from(true),
        Value::from(7u64),
        list,
        object,
    ])
}

#[test]
fn values_that_are_no_strings_stand_for_nothing(rt: HostRuntime) -> Tried {
    let alloc = rt.alloc();
    let values = values_of_each_kind(alloc)?;
    are_no_strings::<Cvss>(&rt, alloc, &values);
    are_no_strings::<Severity>(&rt, alloc, &values);
    are_no_strings::<v4::Nomenclature>(&rt, alloc, &values);
    are_no_strings::<v2::Vector>(&rt, alloc, &values);
    are_no_strings::<v3::Vector>(&rt, alloc, &values);
    are_no_strings::<v4::Vector>(&rt, alloc, &values);
    Ok(())
}

fn lacks_memory(error: &JsonError) -> bool {
    matches!(error, JsonError::OutOfMemory)
}

#[test]
fn errors_are_printed(rt: HostRuntime) -> Tried {
    let alloc = rt.alloc();
    let name = String::from_str(alloc, "lowest")?;
    let other = String::from_str(alloc, "")?;
    let rows = [
        ("not a JSON string", JsonError::NotAString),
        (
            "invalid CVSS Qualitative Severity Rating: `lowest`",
            JsonError::from(Error::InvalidSeverity { name }),
        ),
        (
            "invalid CVSS Qualitative Severity Rating: ``",
            JsonError::from(Error::InvalidSeverity { name: other }),
        ),
        ("out of memory", JsonError::from(Error::OutOfMemory)),
    ];
    assert!(rt; lacks_memory(&rows[3].1));
    are_printed(&rt, alloc, &rows)
}
