//! JSON strings of values: what they are read as and written as.

use crate::first_word;
use cvss::json::JsonText;
use cvss::{Cvss, Severity, v2, v3, v4};
use serde_json::Value;
use std::io;

/// The text of the JSON string of what the JSON string of a text stands for; or the step that failed,
/// and why. Each step that can lack memory is distinguished, so that a run in which a request for memory
/// is refused shows where out of memory was answered.
pub(crate) fn json(rt: &HostRuntime, asked: &str) -> io::Result<()> {
    let (kind, text) = first_word(asked);
    match kind {
        "cvss" => convert::<Cvss>(rt, text),
        "severity" => convert::<Severity>(rt, text),
        "nomenclature" => convert::<v4::Nomenclature>(rt, text),
        "v2" => convert::<v2::Vector>(rt, text),
        "v3" => convert::<v3::Vector>(rt, text),
        "v4" => convert::<v4::Vector>(rt, text),
        _ => println!(rt; "no such type"),
    }
}

fn convert<T: JsonText + Drop>(rt: &(impl Print + AllocGlobal), text: &str) -> io::Result<()> {
    let Ok(string) = Value::try_from_str(rt.alloc(), text) else {
        return println!(rt; "string: out of memory");
    };
    match T::from_value(rt.alloc(), &string) {
        Ok(read) => match read.to_value(rt.alloc()) {
            Ok(written) => println!(rt; "{}", written.as_str().unwrap_or("no string")),
            Err(error) => println!(rt; "to_value: {error}"),
        },
        Err(error) => match error.clone() {
            Ok(copy) => println!(rt; "from_value: {copy}"),
            Err(_) => println!(rt; "clone: out of memory"),
        },
    }
}
