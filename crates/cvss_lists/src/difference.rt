//! What is said of the difference of two texts of vectors.

ghost use Rattle.std.specs.Prelude.{◌≡◌, ◌++◌, ℕ, IfOk, OnOk};
ghost use Rattle.cvss_vector.specs.Answers.{HasScore};
ghost use Rattle.cvss_lines.specs.Answers.{WritesAnswer, written_text};
ghost use Rattle.cvss_lists.specs.Differences.{difference_rule, no_vector_text};
ghost use Rattle.cvss_lists.specs.private.Comparing.{WritesDifferenceFrom};

use crate::comparing::write_comparison;
use crate::gated::waiting_bytes;
use crate::shown::show_after;
use cvss_lines::OutputBuffer;
use cvss_vector::{Cvss, ReadError, Scoring, write_error};
use std::alloc::{AllocError, Global};

/// Writes the metrics in which two vectors of one version differ, in printing order, one line each, as
/// `MAV: N -> L`, with `-` where a vector lacks the metric; and then a line with both scores and
/// severities. Vectors of different versions are not compared. A text that denotes no vector, or one that
/// lacks base metrics and may not, is answered by why, the first of the two alone, with escapes for what
/// breaks a line or a terminal. Says whether the vectors were compared.
///
/// # Errors
///
/// Out of memory. A beginning of the answer may be written then.
pub fn write_difference(
    alloc: Global,
    first: &[u8],
    second: &[u8],
    scoring: Scoring,
    allow_incomplete: bool,
    answers: &mut OutputBuffer,
) -> Result<bool, AllocError>
    ensures { (number : ℕ) → IfOk result (WritesAnswer
        (difference_rule scoring allow_incomplete first.now) number second.now
        answers.old.bytes.items answers.new.bytes.items) }
{
    let before = match Cvss::read_by(first, allow_incomplete) {
        Ok(before) => before,
        Err(error) => {
            write_no_vector(alloc, "first", error, answers)?;
            return Ok(false);
        }
    };
    write_difference_from(alloc, &before, second, scoring, allow_incomplete, answers)
}

/// Writes the difference of a vector and one that a text denotes.
fn write_difference_from(
    alloc: Global,
    before: &Cvss,
    second: &[u8],
    scoring: Scoring,
    allow_incomplete: bool,
    answers: &mut OutputBuffer,
) -> Result<bool, AllocError>
    requires { HasScore before.now }
    ensures { IfOk result (WritesDifferenceFrom scoring allow_incomplete before.now second.now
        answers.old.bytes.items answers.new.bytes.items) }
{
    match Cvss::read_by(second, allow_incomplete) {
        Ok(after) => write_comparison(before, &after, scoring, answers),
        Err(error) => {
            write_no_vector(alloc, "second", error, answers)?;
            Ok(false)
        }
    }
}

/// Writes why one of the two texts denotes no vector.
fn write_no_vector(
    alloc: Global,
    which: &str,
    error: ReadError<'_>,
    answers: &mut OutputBuffer,
) -> Result<(), AllocError>
    ensures { OnOk result (answers.new.bytes.items ≡ answers.old.bytes.items
        ++ written_text (no_vector_text which.now error.entry)) }
{
    answers.push(which.as_bytes())?;
    answers.push(b" vector: ")?;
    let waiting = waiting_bytes(answers);
    write_error(error, answers)?;
    show_after(alloc, waiting, answers)
}
