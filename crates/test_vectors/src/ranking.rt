//! Triage.

use crate::shown::print_error;
use cvss_vector::v4::Vector;
use cvss_vector::v4::triage::{Row, apply};
use std::io;

/// The rows of the texts, which follow `=`, with the overrides, which follow `+`.
pub(crate) fn rank(rt: &HostRuntime, asked: &str) -> io::Result<()> {
    let texts = after(rt, asked, "=")?;
    let overrides = after(rt, asked, "+")?;
    ranked(rt, &texts, &overrides)
}

/// What follows a mark in the words that begin with it.
fn after<'a>(rt: &HostRuntime, asked: &'a str, mark: &str) -> io::Result<Vec<&'a str>> {
    let words = asked.split(' ').filter_map(|word| word.strip_prefix(mark));
    Ok(Vec::from_iter(rt.alloc(), words)?)
}

fn ranked(rt: &HostRuntime, texts: &[&str], overrides: &[&str]) -> io::Result<()> {
    match apply(rt.alloc(), texts, overrides) {
        Ok(rows) => print_rows(rt, &rows),
        Err(error) => print_error(rt, &error),
    }
}

fn print_rows(rt: &HostRuntime, rows: &[Row]) -> io::Result<()> {
    for row in rows {
        print!(rt;
            "{} {} {} {};",
            row.score,
            row.severity(),
            row.scored,
            row.text
        )?;
    }
    println!(rt)
}

/// The vector of environmental metrics alone.
pub(crate) fn overrides(rt: &HostRuntime, asked: &str) -> io::Result<()> {
    let overrides = Vec::from_iter(rt.alloc(), asked.split(' '))?;
    match Vector::from_overrides(rt.alloc(), &overrides) {
        Ok(vector) => println!(rt; "{vector}"),
        Err(error) => print_error(rt, &error),
    }
}
