//! Answers lines, to be compared with answers from outside: those of the Rust crate, of tables,
//! and of an implementation on fractions.
//!
//! A line is a vector's text of any version, answered by the canonical text, the score and the
//! rating or by why it is rejected. Or it is a mark, a blank, and what is asked, where counts are
//! of 10^-24:
//!
//! - `v2 TEXT`, `v3 TEXT`, `v4 TEXT`: the same by the rules of that version alone.
//! - `fault TEXT`: the kind of the error, and the part or the metric that it holds.
//! - `scores TEXT`: the score as it is written, and its count; for v2 and v3 also those of the
//!   temporal and environmental scores, and for v3 whether scores are certain.
//! - `parts TEXT`: counts of impact, exploitability and, for v2 (where they are rounded), adjusted
//!   impact.
//! - `sight TEXT`: what is published of a canonical text that is seen to be one.
//! - `metrics TEXT`: the metrics, as they are listed.
//! - `same TEXT TEXT`: whether two vectors of a version are equal, and whether their texts are.
//! - `kind 2 NAME`: a metric's name, and what it stands for.
//! - `value 2 AV TEXT`: a metric's value, its metric and its spelling, and the count of its
//!   weight.
//! - `each TYPE WORD ..`: of the words that are read as a `vector` (of any version; `v2`, `v3` or
//!   `v4`), a `kind 2`, a `value 2 AV`, a `rating`, a `nomenclature`, or as rejected texts with an
//!   `error`: the value, how many of them it equals, and how many not. The value is printed under
//!   options of a formatter too, which are to change nothing; so is a `score`.
//! - `score 2 COUNT`: a score as it is printed, and its rating; of `score any` the first alone.
//! - `round 2 COUNT`, `round 3 COUNT`, `round 3.0 COUNT`: the count of the score to which it is
//!   rounded.
//! - `temporal COUNT`: the count of the temporal score of v2 of this impact.
//! - `tenths NUMBER`: the text of a number of tenths.
//! - `rank +OVERRIDE .. =TEXT ..`: triage, its rows or the first rejection.
//! - `overrides OVERRIDE ..`: the vector of v4 of these components alone.
//! - `json TYPE TEXT`, where a type is `cvss`, `v2`, `v3`, `v4`, `severity` or `nomenclature`: the text
//!   of the JSON string of what the JSON string of the text stands for; or the step that failed, and
//!   why.
//! - `record TEXT`: the vector's record, a JSON object.
//! - `differ TEXT OBJECT`: the members of an object that disagree with the vector.
//! - `locations DOCUMENT`: where vectors are in it, and the members there that disagree.
//! - `c MARK ..`: what C gets, as `capi` says.
#![tactic(auto)]

mod capi;
mod faults;
mod json;
mod kinds;
mod numbers;
mod ranking;
mod records;
mod scores;
mod shown;
mod values2;
mod values3;
mod values4;
mod vectors;

use cvss_vector::{v2, v3, v4};
use std::io;
use std::io::{BufRead, BufReader};

fn main(rt: HostRuntime) -> io::Result<()> {
    for line in BufReader::new(rt.alloc(), rt.reader())?.split(rt.alloc(), b'\n') {
        answer(&rt, &line?)?;
    }
    Ok(())
}

/// What a line asks for.
fn answer(rt: &HostRuntime, line: &[u8]) -> io::Result<()> {
    if let [b'c', b' ', asked @ ..] = line {
        return capi::answer(rt, asked);
    }
    match str::from_utf8(line) {
        Ok(text) => {
            let (mark, asked) = first_word(text);
            answer_marked(rt, line, mark, asked)
        }
        Err(_) => vectors::of_any(rt, line),
    }
}

/// The word before a text's first blank and what follows that; without a blank, no word and
/// the text.
pub(crate) fn first_word(text: &str) -> (&str, &str) {
    text.split_once(' ').unwrap_or(("", text))
}

/// What a mark and a blank ask for of vectors' texts, or else of anything.
fn answer_marked(rt: &HostRuntime, line: &[u8], mark: &str, asked: &str) -> io::Result<()> {
    match mark {
        "v2" => vectors::of_v2(rt, asked),
        "v3" => vectors::of_v3(rt, asked),
        "v4" => vectors::of_v4(rt, asked),
        "fault" => faults::fault(rt, asked),
        "scores" => scores::scores(rt, asked),
        "parts" => scores::parts(rt, asked),
        "sight" => vectors::seen(rt, asked),
        "metrics" => vectors::metrics(rt, asked),
        "same" => vectors::same(rt, asked),
        _ => answer_otherwise(rt, line, mark, asked),
    }
}

/// What a mark asks for of metrics, values, numbers, triage and JSON.
fn answer_otherwise(rt: &HostRuntime, line: &[u8], mark: &str, asked: &str) -> io::Result<()> {
    match mark {
        "kind" => kinds::kind(rt, asked),
        "value" => kinds::value(rt, asked),
        "each" => shown::each(rt, asked),
        "score" => numbers::score(rt, asked),
        "round" => numbers::round(rt, asked),
        "temporal" => numbers::temporal(rt, asked),
        "tenths" => numbers::tenths(rt, asked),
        "rank" => ranking::rank(rt, asked),
        "overrides" => ranking::overrides(rt, asked),
        _ => answer_json(rt, line, mark, asked),
    }
}

/// What a mark asks for of JSON; a line with no mark is a vector.
fn answer_json(rt: &HostRuntime, line: &[u8], mark: &str, asked: &str) -> io::Result<()> {
    match mark {
        "json" => json::json(rt, asked),
        "record" => records::record(rt, asked),
        "differ" => records::differ(rt, asked),
        "locations" => records::locations(rt, asked),
        _ => vectors::of_any(rt, line),
    }
}
