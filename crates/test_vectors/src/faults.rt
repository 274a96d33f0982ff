//! What the error of a rejected text holds.

use cvss_base::Error;
use cvss_vector::Cvss;
use std::{fmt, io};

/// The kind of a rejection, and the part of the text or the metric that it holds.
pub(crate) fn fault(rt: &HostRuntime, text: &str) -> io::Result<()> {
    match Cvss::from_str(rt.alloc(), text) {
        Ok(_) => println!(rt; "none"),
        Err(error) => print_fault(rt, &error),
    }
}

fn print_fault(rt: &HostRuntime, error: &Error) -> io::Result<()> {
    match error {
        Error::InvalidComponent { component } => print_held(rt, "component", component),
        Error::InvalidPrefix { prefix } => print_held(rt, "prefix", prefix),
        Error::UnsupportedVersion { version } => print_held(rt, "version", version),
        Error::UnknownMetric { name } => print_held(rt, "metric", name),
        Error::InvalidMetricV2 { metric_type, value } => print_value(rt, "v2", metric_type, value),
        Error::InvalidMetricV3 { metric_type, value } => print_value(rt, "v3", metric_type, value),
        Error::InvalidMetricV4 { metric_type, value } => print_value(rt, "v4", metric_type, value),
        Error::DuplicateMetricV3 { metric_type } => print_held(rt, "duplicate of v3", metric_type),
        Error::MissingMandatoryMetricV2 { metric_type } => {
            print_held(rt, "missing of v2", metric_type)
        }
        Error::MissingMandatoryMetricV4 { metric_type } => {
            print_held(rt, "missing of v4", metric_type)
        }
        _ => println!(rt; "another"),
    }
}

fn print_held<P: fmt::Display>(rt: &HostRuntime, kind: &str, part: &P) -> io::Result<()> {
    println!(rt; "{kind} {part}")
}

fn print_value<K: fmt::Display>(
    rt: &HostRuntime,
    version: &str,
    metric_type: &K,
    value: &str,
) -> io::Result<()> {
    println!(rt; "value of {version} {metric_type} {value}")
}
