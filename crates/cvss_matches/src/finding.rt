//! What answers lines by the vectors in them.

ghost use Rattle.cvss_matches.specs.Answers.{find_rule};

use crate::form::Form;
use crate::hint::PrefixHint;
use crate::line::Line;
use cvss_lines::{Answering, OutputBuffer};
use cvss_report::{Gate, Tally};
use cvss_vector::{Scoring, Version};
use std::alloc::{AllocError, Global};
use std::cell::Cell;

/// Lines of any bytes, each answered by what is found in it. A line counts as accepted if each vector
/// is that is reported.
#[derive(Drop)]
pub struct Finding<'a> {
    pub form: Form,
    /// Vectors of CVSS v3 may lack base metrics, and a line may end after a slash.
    pub allow_incomplete: bool,
    /// Of which version vectors are that lack their prefix, where no link says it.
    pub assumed: Option<Version>,
    /// Which score of a vector is printed. Objects have all.
    pub scoring: Scoring,
    /// Which vectors are shown and on which a line fails, if not all are. A vector that scores less than the
    /// minimum is not printed, and counts as accepted. One on which the gate fails is printed, and counts
    /// as rejected.
    pub gate: Option<Gate>,
    /// What each answer begins with. In objects it is the name of the file and a colon, where there
    /// are several files.
    pub prefix: &'a [u8],
    /// Set to what is wrong with the prefix of the first match that is rejected for it.
    pub hint: &'a Cell<Option<PrefixHint>>,
    /// Where the matches are counted that go through the gate. No contract speaks of the numbers.
    pub tally: Option<&'a Cell<Tally>>,
}

impl Answering for Finding<'_> {
    ghost rule = { λ finding. find_rule finding.form finding.scoring finding.allow_incomplete
        finding.assumed finding.gate finding.prefix.now };

    fn answer_line(
        &self,
        alloc: Global,
        number: u64,
        line: &[u8],
        answers: &mut OutputBuffer,
    ) -> Result<bool, AllocError> {
        let line = Line {
            form: self.form,
            prefix: self.prefix,
            allow_incomplete: self.allow_incomplete,
            assumed: self.assumed,
            scoring: self.scoring,
            gate: self.gate,
            number,
            bytes: line,
            hint: self.hint,
            tally: self.tally,
        };
        line.answer(alloc, answers)
    }
}
