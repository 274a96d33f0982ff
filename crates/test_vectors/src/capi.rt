//! Answers by the calls of `cvss_ffi`, from which C gets its answers. What is expected comes from the
//! second implementation, on fractions, and from rows written by hand.
//!
//! After `c` a line has a mark, a blank, and what the mark is about:
//!
//! - `facts TEXT`: of a vector its canonical text, its version, its nomenclature, whether all base
//!   metrics are present, its scores with their severities (overall, base, temporal and
//!   environmental), its scores by nomenclature, and its metrics; of a rejected text the number of the
//!   kind of error, the metric that it names, and the message.
//! - `canonical TEXT`, `without TEXT`: the canonical text, with all metrics and without those that are
//!   not defined.
//! - `record TEXT`, `account TEXT`: JSON objects, of the vector and of how it is scored.
//! - `score_line TEXT`: the line that `cvss score` prints.
//! - `score_lines SIZE TEXTS`: in a buffer of so many bytes, full of `#`, the score lines of lines:
//!   their length, the number of bytes that were read, and the buffer. A `|` ends a line.
//! - `find TEXT`: the offset and the length of each match.
//! - `with TEXT METRICS`: the vector with these metrics set, and why they are not.
//! - `build VERSION METRICS`: the vector of a version that these metrics make, and why they make none.
//! - `groups TEXT`: of a vector of v4.0 its scores by nomenclature, CVSS-B, BE, BT and BTE.
//! - `rating VERSION TENTHS`: the severity of so many tenths by the bounds of a version.
//! - `value TEXT`: the part of a rejected text that the message quotes.
//! - `error MARK ..`: all that the error of a call says: the kind, the index, the metric, where the
//!   quoted part is in the message and its length, and the part.
//! - `complete MARK ..`: the same as without `complete`, but a vector of v3 may not lack base metrics.
//!
//! `-` is an empty answer. Each call that writes into a buffer is made with one that is a byte too
//! short, which must stay as it was, and with one that just fits; each that fills in a struct with one
//! that is too short, and with one that is longer than this release has it.

mod buffers;
mod facts;
mod lists;
mod texts;

use buffers::Form;
use std::io;

/// The flags that allow incomplete vectors, and those that do not: other bits are ignored.
const ALLOW_INCOMPLETE: u32 = 0x8000_0001;

const COMPLETE: u32 = 0xffff_fffe;

/// What a line asks for after its `c`.
pub(crate) fn answer(rt: &HostRuntime, line: &[u8]) -> io::Result<()> {
    match cut(line, b' ') {
        (b"complete", asked) => answer_marked(rt, asked, COMPLETE)?,
        _ => answer_marked(rt, line, ALLOW_INCOMPLETE)?,
    }
    println!(rt)
}

/// The bytes before and after the first such byte; without one, all bytes and none.
pub(crate) fn cut(bytes: &[u8], at: u8) -> (&[u8], &[u8]) {
    match bytes.iter().position(|byte| *byte == at) {
        Some(offset) => (&bytes[..offset], &bytes[offset + 1..]),
        None => (bytes, &[]),
    }
}

/// What a mark asks for.
fn answer_marked(rt: &HostRuntime, line: &[u8], flags: u32) -> io::Result<()> {
    let (mark, asked) = cut(line, b' ');
    match mark {
        b"facts" => facts::facts(rt, asked, flags),
        b"canonical" => facts::canonical(rt, asked, flags, Form::Result),
        b"without" => texts::print_without(rt, asked, flags, Form::Result),
        b"record" => texts::print_record(rt, asked, flags, Form::Result),
        b"account" => texts::print_explanation(rt, asked, flags, Form::Result),
        b"score_line" => texts::print_score_line(rt, asked, flags),
        b"score_lines" => lists::print_score_lines(rt, asked, flags),
        b"find" => lists::print_matches(rt, asked),
        b"with" => texts::print_with(rt, asked, flags, Form::Made),
        b"build" => texts::print_made(rt, asked, flags, Form::Made),
        b"groups" => facts::print_scores_by(rt, asked, flags),
        b"rating" => facts::print_severity(rt, asked),
        b"value" => facts::canonical(rt, asked, flags, Form::Quoted),
        b"error" => texts::print_error(rt, asked, flags),
        _ => print!(rt; "no such mark"),
    }
}
