//! What `cvss set` prints for a line.

ghost use Rattle.std.specs.Prelude.{IfOk, IfErr};
ghost use Rattle.cvss_vector.specs.Answers.{HasScore};
ghost use Rattle.cvss_subcommands.specs.Setting.{IsSetBy, IsSetError, set_rule};
ghost use Rattle.cvss_lines.specs.Prefixed.{is_one_text};

use cvss_frame::LineAnswer;
use cvss_lines::{Answering, OutputBuffer};
use cvss_vector::{Cvss, ReadError, Rejection, Scoring, write_error, write_vector};
use std::alloc::{AllocError, Global};

/// Sets metrics in the vector, and scores it. A new vector of CVSS v3 that lacks base metrics and may not
/// is answered by the first of them.
#[derive(Drop)]
pub(crate) struct Set<'a> {
    /// With slashes between them.
    pub(crate) metrics: &'a str,
    /// Which score is printed.
    pub(crate) scoring: Scoring,
    /// The new vector may lack base metrics, if it is one of CVSS v3.
    pub(crate) allow_incomplete: bool,
}

impl Answering for Set<'_> {
    ghost rule = { λ set. set_rule set.scoring set.allow_incomplete set.metrics.now };

    #[tactic(auto, using(cvss_vector::proofs::AnsweringLemmas::vector_written))]
    fn answer_line(
        &self,
        _alloc: Global,
        _number: u64,
        line: &[u8],
        answers: &mut OutputBuffer,
    ) -> Result<bool, AllocError> {
        match vector_with(line, self.metrics, self.allow_incomplete) {
            Ok(vector) => {
                write_vector(&vector, vector.published(self.scoring), answers)?;
                Ok(true)
            }
            Err(error) => {
                write_error(error, answers)?;
                Ok(false)
            }
        }
    }
}

impl LineAnswer for Set<'_> {
    ghost one_text = { λ _. is_one_text _ _ };
}

/// The vector of a line with metrics set, which are joined by slashes.
fn vector_with<'a>(
    line: &'a [u8],
    metrics: &'a str,
    allow_incomplete: bool,
) -> Result<Cvss, ReadError<'a>>
    ensures set { IfOk result (IsSetBy allow_incomplete metrics.now line.now) }
    ensures scored { IfOk result (λ new. HasScore new) }
    ensures rejected { IfErr result (IsSetError allow_incomplete metrics.now line.now) }
{
    let vector = Cvss::read(line)?;
    let new = match vector.with_metrics(metrics) {
        Ok(new) => new,
        Err(error) => return Err(ReadError::Invalid(error.reason)),
    };
    match new.missing_by(allow_incomplete) {
        None => Ok(new),
        Some(metric) => Err(ReadError::Invalid(Rejection::Missing(metric))),
    }
}
