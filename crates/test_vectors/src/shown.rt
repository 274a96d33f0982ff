//! Values beside each other: how each is printed, copied and reported from the others.

use crate::kinds::{each_kind, each_value};
use crate::{first_word, v2, v3, v4};
use cvss_base::{Error, Severity};
use cvss_score::v4::Nomenclature;
use cvss_vector::Cvss;
use std::alloc::{AllocError, Global};
use std::{fmt, io};

/// Of the words that are read, the values.
pub(crate) fn each(rt: &HostRuntime, asked: &str) -> io::Result<()> {
    let (kind, words) = first_word(asked);
    match kind {
        "kind" => each_kind(rt, words),
        "value" => each_value(rt, words),
        "vector" => show(rt, words, Cvss::from_str),
        "v2" => show(rt, words, v2::Vector::from_str),
        "v3" => show(rt, words, v3::Vector::from_str),
        "v4" => show(rt, words, v4::Vector::from_str),
        "rating" => show(rt, words, Severity::from_str),
        "nomenclature" => show(rt, words, Nomenclature::from_str),
        "error" => show(rt, words, rejected),
        _ => println!(rt; "no such type"),
    }
}

/// The error of a rejected text.
fn rejected(alloc: Global, text: &str) -> Result<Error, Error> {
    Cvss::from_str(alloc, text).err().ok_or(Error::OutOfMemory)
}

/// Of the words that a function reads, a copy of each value, how many of them it equals, and how many
/// not.
pub(crate) fn show<T, F>(rt: &HostRuntime, words: &str, read: F) -> io::Result<()>
where
    T: fmt::Display + Clone + PartialEq + Drop,
    F: Fn(Global, &str) -> Result<T, Error>,
    requires { F.IsAlwaysCallable read }
{
    let mut values = Vec::new(rt.alloc());
    for word in words.split(' ') {
        if let Ok(value) = read(rt.alloc(), word) {
            values.push(value)?;
        }
    }
    print_each(rt, &values)
}

fn print_each<T>(rt: &HostRuntime, values: &[T]) -> io::Result<()>
where
    T: fmt::Display + Clone + PartialEq + Drop,
{
    for value in values {
        print_alike(rt, &value.clone()?)?;
        print_counts(rt, values, value)?;
    }
    println!(rt)
}

/// How many values one equals, and how many not.
fn print_counts<T: PartialEq>(rt: &HostRuntime, values: &[T], value: &T) -> io::Result<()> {
    let same = values.iter().filter(|other| *other == value).count();
    let others = values.iter().filter(|other| *other != value).count();
    print!(rt; " {same} {others};")
}

/// Prints a value; or that it is another text under some option of a formatter, be it a width, a
/// fill, a precision, a sign or `#`.
pub(crate) fn print_alike<T>(rt: &HostRuntime, value: &T) -> io::Result<()>
where
    T: fmt::Display,
{
    if is_alike(rt.alloc(), value)? {
        print!(rt; "{value}")
    } else {
        print!(rt; "options change the text")
    }
}

/// Whether a value is one text under all options.
fn is_alike<T: fmt::Display>(alloc: Global, value: &T) -> Result<bool, AllocError> {
    let plain = value.to_string(alloc)?;
    let styled = format!(in alloc;
        "{value:>200}\n{value:<12}\n{value:^9}\n{value:*>8.3}\n{value:.1}\n{value:#}\n{value:+}\n{value:012}"
    )?;
    Ok(are_lines_of(&styled, &plain))
}

fn are_lines_of(lines: &str, text: &str) -> bool {
    lines.split('\n').all(|line| line == text)
}

/// A value of a metric: the value, the metric, the spelling and the weight.
pub(crate) fn print_value<T>(
    rt: &HostRuntime,
    value: &T,
    name: &str,
    spelling: &str,
    weight: Option<i128>,
) -> io::Result<()>
where
    T: fmt::Display,
{
    match weight {
        Some(weight) => println!(rt; "{value} {name} {spelling} {weight}"),
        None => println!(rt; "{value} {name} {spelling} -"),
    }
}

/// Why something is rejected.
pub(crate) fn print_error<E>(rt: &HostRuntime, error: &E) -> io::Result<()>
where
    E: fmt::Display,
{
    println!(rt; "error: {error}")
}
