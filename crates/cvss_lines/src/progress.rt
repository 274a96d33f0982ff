//! How far a run has come.

ghost use Rattle.std.specs.Prelude.{◌≡◌, ◌∷◌, [], IfErr, OnOk};
ghost use Rattle.cvss_lines.specs.Runs.{summary_of};
ghost use Rattle.cvss_lines.specs.private.Steps.{Answers, StopsAnswering};

use crate::{OutputBuffer, RunFault, Service, Summary};
use std::alloc::Global;
use std::io::Write;

/// What is known of the lines that are answered.
#[derive(Drop)]
pub(crate) struct Progress {
    /// The answers that aren't written yet.
    pub(crate) answers: OutputBuffer,
    pub(crate) summary: Summary,
    /// The number of the next line to answer, from 1. It stops at `u64::MAX`.
    pub(crate) number: u64,
}

impl Progress {
    pub(crate) fn new(alloc: Global) -> Progress
        ensures answers { result.answers.bytes.items ≡ [] }
        ensures summary { result.summary ≡ summary_of [] }
        ensures number { result.number ≡ 1 }
    {
        Progress {
            answers: OutputBuffer::new(alloc),
            summary: Summary::new(),
            number: 1,
        }
    }

    /// Answers the next line.
    #[tactic(auto, using(crate::proofs::StepsLemmas::Stands_line))]
    pub(crate) fn answer_line<S: Service, W: Write>(
        &mut self,
        service: &S,
        alloc: Global,
        line: &[u8],
        writer: &mut W,
    ) -> Result<(), RunFault>
        ensures answered { OnOk result (Answers (S.rule service.now) (S.beginning service.now) (line.now ∷ [])
            (W.contents writer.old) (W.contents writer.new) self.old self.new) }
        ensures stopped { IfErr result (StopsAnswering (S.rule service.now) (S.beginning service.now) (line.now ∷ [])
            (W.contents writer.old) (W.contents writer.new) self.old) }
    {
        let accepted = service.serve_line(alloc, self.number, line, &mut self.answers, writer)?;
        self.summary.count(accepted);
        self.number = self.number.saturating_add(1);
        Ok(())
    }
}
