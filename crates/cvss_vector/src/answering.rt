//! The answer to one line that is the text of a vector.

ghost use Rattle.std.specs.Prelude.{ℕ, IfOk};
ghost use Rattle.cvss_lines.specs.Answers.{WritesAnswer};
ghost use Rattle.cvss_vector.specs.Lines.{IsAnswer, score_rule};
ghost use Rattle.cvss_vector.specs.declared.scoring.Scoring.{Scoring};
ghost use Rattle.cvss_vector.specs.private.{IsPublishedTo, IsRouted, IsUnpublished};

use crate::lines::{write_canonical, write_error};
use crate::one_version::OneVersion;
use crate::publishing::published_by;
use crate::reading::{read_error_of, unread};
use crate::rejection::Rejection;
use crate::scoring::Scoring;
use crate::{v2, v3, v4};
use cvss_lines::{Answering, OutputBuffer};
use cvss_text::buffer::TextBuffer;
use cvss_text::route::{Route, route_of_text};
use cvss_text::walk::read_text;
use std::alloc::{AllocError, Global};

/// Lines that are texts of vectors, each answered by the vector or by why there is none.
pub struct Vectors {}

impl Answering for Vectors {
    ghost rule = { λ _. IsAnswer };

    fn answer_line(
        &self,
        _alloc: Global,
        _number: u64,
        line: &[u8],
        answers: &mut OutputBuffer,
    ) -> Result<bool, AllocError> {
        answer_score(line, true, Scoring::Published, answers)
    }
}

/// Answers a line as [`Vectors`] does, but by a score that is chosen, and a vector of CVSS v3 that lacks
/// base metrics by the first of them, unless they may be missing.
///
/// # Errors
///
/// Out of memory. A beginning of the answer may be written then.
#[inline(always)]
#[tactic(auto, using(crate::proofs::AnsweringLemmas::published_written))]
pub fn answer_score(
    line: &[u8],
    allow_incomplete: bool,
    scoring: Scoring,
    answers: &mut OutputBuffer,
) -> Result<bool, AllocError>
    ensures { (number : ℕ) → IfOk result (WritesAnswer (score_rule scoring allow_incomplete) number line.now
        answers.old.bytes.items answers.new.bytes.items) }
{
    let route = route_of_text(line);
    // The text is copied at one place for all versions, so that the compiler can inline it.
    if let Some(published) = published_by(line, &route, scoring) {
        write_canonical(line, published, answers)?;
        return Ok(true);
    }
    match route {
        Route::V20 => answer_rest::<v2::Vector>(line, line, 0, allow_incomplete, scoring, answers),
        Route::V30(left) => answer_rest::<v3::Vector>(
            line,
            left,
            0,
            allow_incomplete,
            scoring,
            answers,
        ),
        Route::V31(left) => answer_rest::<v3::Vector>(
            line,
            left,
            1,
            allow_incomplete,
            scoring,
            answers,
        ),
        Route::V40(left) => answer_rest::<v4::Vector>(
            line,
            left,
            0,
            allow_incomplete,
            scoring,
            answers,
        ),
        Route::Unversioned(why) => { reject(line, allow_incomplete, unread(line, why), answers) }
    }
}

/// Answers a line that is not seen to be canonical.
// A call of its own keeps the buffer out of the frame of a canonical text.
#[inline(never)]
fn answer_rest<V: OneVersion>(
    line: &[u8],
    components: &[u8],
    minor_version: usize,
    allow_incomplete: bool,
    scoring: Scoring,
    answers: &mut OutputBuffer,
) -> Result<bool, AllocError>
    requires { IsRouted V.has_minor V.route V.front line.now components.now minor_version }
    ensures { IfOk result (λ is. IsPublishedTo scoring allow_incomplete line.now
        answers.old.bytes.items is answers.new.bytes.items) }
{
    let mut vector = V::without_metrics(minor_version);
    V::reads_by_its_rules(line, components, minor_version, vector);
    if let Err(fault) = read_text(components, &mut vector) {
        return reject(
            line,
            allow_incomplete,
            Rejection::of_version::<V>(fault),
            answers,
        );
    }
    if let Some(metric) = vector.join(minor_version).missing_by(allow_incomplete) {
        return reject(line, allow_incomplete, Rejection::Missing(metric), answers);
    }
    let mut buffer = TextBuffer::new();
    let canonical = vector.canonical(minor_version, &mut buffer);
    write_canonical(
        canonical,
        vector.join(minor_version).published(scoring),
        answers,
    )?;
    Ok(true)
}

/// Answers a line by why it is rejected.
fn reject(
    line: &[u8],
    allow_incomplete: bool,
    rejection: Rejection<'_>,
    answers: &mut OutputBuffer,
) -> Result<bool, AllocError>
    requires { IsUnpublished allow_incomplete line.now rejection }
    ensures { (scoring : Scoring) → IfOk result (λ is. IsPublishedTo scoring allow_incomplete line.now
        answers.old.bytes.items is answers.new.bytes.items) }
{
    write_error(read_error_of(line, rejection), answers)?;
    Ok(false)
}
