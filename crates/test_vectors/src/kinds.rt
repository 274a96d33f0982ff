//! Metrics by their names.

use crate::shown::show;
use crate::{first_word, values2, values3, values4};
use cvss_base::{v2, v3, v4};
use std::{fmt, io};

const NO_VERSION: &str = "no such version";

/// What is asked of a metric: its name, one of its values, or each of some.
#[derive(Clone, Copy)]
pub(crate) enum Asked<'a> {
    Name,
    One(&'a str),
    Each(&'a str),
}

/// Says of a metric of a version with the type of its values.
macro_rules! reported_at {
    (($rt:ident, $kind:ident, $asked:ident) $($name:ident $field:ident $values:ty,)*) => {
        match $kind {
            $(MetricType::$name => reported::<$values>($rt, $kind, $asked),)*
        }
    };
}

pub(crate) use reported_at;

/// A metric's name, and what it stands for.
pub(crate) fn kind(rt: &HostRuntime, asked: &str) -> io::Result<()> {
    let (version, name) = first_word(asked);
    reported(rt, version, name, Asked::Name)
}

/// A metric or a value, and two texts that belong to it.
pub(crate) fn print_with<T>(rt: &HostRuntime, value: &T, one: &str, other: &str) -> io::Result<()>
where
    T: fmt::Display,
{
    println!(rt; "{value} {one} {other}")
}

/// Metrics beside each other.
pub(crate) fn each_kind(rt: &HostRuntime, asked: &str) -> io::Result<()> {
    let (version, words) = first_word(asked);
    match version {
        "2" => show(rt, words, v2::MetricType::from_str),
        "3" => show(rt, words, v3::MetricType::from_str),
        "4" => show(rt, words, v4::MetricType::from_str),
        _ => println!(rt; "{NO_VERSION}"),
    }
}

/// A value of a metric: the version, the metric's name, and the value's spelling.
pub(crate) fn value(rt: &HostRuntime, asked: &str) -> io::Result<()> {
    match metric_of(asked) {
        Some((version, name, text)) => reported(rt, version, name, Asked::One(text)),
        None => println!(rt; "no such metric"),
    }
}

/// Values of a metric beside each other.
pub(crate) fn each_value(rt: &HostRuntime, asked: &str) -> io::Result<()> {
    match metric_of(asked) {
        Some((version, name, words)) => reported(rt, version, name, Asked::Each(words)),
        None => println!(rt; "no such metric"),
    }
}

fn metric_of(asked: &str) -> Option<(&str, &str, &str)> {
    let (version, rest) = asked.split_once(' ')?;
    let (name, text) = rest.split_once(' ')?;
    Some((version, name, text))
}

fn reported(rt: &HostRuntime, version: &str, name: &str, asked: Asked<'_>) -> io::Result<()> {
    match version {
        "2" => values2::answer(rt, name, asked),
        "3" => values3::answer(rt, name, asked),
        "4" => values4::answer(rt, name, asked),
        _ => println!(rt; "{NO_VERSION}"),
    }
}
