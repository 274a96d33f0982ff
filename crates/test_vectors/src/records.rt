//! Records, what an object says otherwise, and where vectors are.

ghost use Rattle.cvss.specs.Answers.{HasScore};

use cvss::{Cvss, Error};
use cvss_audit::{Difference, Form, Location, differences, differences_at, vectors_in};
use cvss_json::Page;
use cvss_report::put_record;
use serde_json::Value;
use std::io;

/// The record of a vector, and its members that say otherwise than the vector, which are none.
pub(crate) fn record(rt: &HostRuntime, text: &str) -> io::Result<()> {
    match Cvss::from_str(rt.alloc(), text) {
        Ok(vector) => {
            let mut page = Page::new();
            put_record(&mut page, &vector);
            print_record(rt, &vector, page.bytes())
        }
        Err(error) => print_error(rt, &error),
    }
}

fn print_error(rt: &HostRuntime, error: &Error) -> io::Result<()> {
    println!(rt; "error: {error}")
}

fn print_record(rt: &HostRuntime, vector: &Cvss, record: &[u8]) -> io::Result<()>
    requires { HasScore vector.now }
{
    let text = str::from_utf8(record).unwrap_or("no text");
    print!(rt; "{text}")?;
    match Value::from_str(rt.alloc(), text) {
        Ok(Value::Object(members)) => {
            print_members(rt, &differences(rt.alloc(), vector, &members)?)
        }
        _ => println!(rt; " is no object"),
    }
}

/// The members of an object that say otherwise than the vector of the text before it.
pub(crate) fn differ(rt: &HostRuntime, asked: &str) -> io::Result<()> {
    match asked.split_once(' ') {
        Some((text, object)) => differ_from(rt, text, object),
        None => println!(rt; "no object"),
    }
}

fn differ_from(rt: &HostRuntime, text: &str, object: &str) -> io::Result<()> {
    match (
        Cvss::read_bytes(text.as_bytes()),
        Value::from_str(rt.alloc(), object),
    ) {
        (Some(vector), Ok(Value::Object(members))) => {
            print_members(rt, &differences(rt.alloc(), &vector, &members)?)
        }
        _ => println!(rt; "no object"),
    }
}

fn print_members(rt: &HostRuntime, found: &[Difference<'_>]) -> io::Result<()> {
    for difference in found {
        print!(rt; "{};", difference.member)?;
    }
    println!(rt)
}

/// Where vectors are in a document.
pub(crate) fn locations(rt: &HostRuntime, document: &str) -> io::Result<()> {
    match Value::from_str(rt.alloc(), document) {
        Ok(document) => print_locations(rt, &document),
        Err(_) => println!(rt; "no JSON"),
    }
}

fn print_locations(rt: &HostRuntime, document: &Value) -> io::Result<()> {
    let mut locations = vectors_in(rt.alloc(), document)?;
    for _ in 0..u64::MAX {
        let Some(location) = locations.next_location(rt.alloc())? else {
            break;
        };
        print_location(rt, &location)?;
    }
    println!(rt)
}

fn print_location(rt: &HostRuntime, location: &Location<'_>) -> io::Result<()> {
    print!(rt; "{}={}", location.at, form_text(location.form))?;
    if let Some(text) = location.text {
        print!(rt; " {text}")?;
        print_differences(rt, location, text)?;
    }
    print!(rt; ";")
}

/// What is at a location beside a vector's text and says otherwise than the vector.
fn print_differences(rt: &HostRuntime, location: &Location<'_>, text: &str) -> io::Result<()> {
    if let Some(vector) = Cvss::read_bytes(text.as_bytes()) {
        for difference in &differences_at(rt.alloc(), &vector, location)? {
            print!(rt; " {}", difference.member)?;
        }
    }
    Ok(())
}

fn form_text(form: Form) -> &'static str {
    match form {
        Form::Record => "record",
        Form::GitHub => "github",
        Form::Osv => "osv",
        Form::Rating => "rating",
        Form::TrivyV2 => "trivy-v2",
        Form::TrivyV3 => "trivy-v3",
        Form::TrivyV40 => "trivy-v40",
        Form::RustSec => "rustsec",
        Form::Spdx => "spdx",
    }
}
