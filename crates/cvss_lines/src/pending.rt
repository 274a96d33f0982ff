ghost use Rattle.std.specs.Prelude.{◌≡◌, ◌++◌, ◌∷◌, [], OnOk, IfErr};
ghost use Rattle.cvss_lines.specs.Lines.{line_text};
ghost use Rattle.cvss_lines.specs.Runs.{summary_of};
ghost use Rattle.cvss_lines.specs.private.Steps.{Answers, EndsInput, Reads, StopsAnswering, StopsEnding, StopsReading};

use crate::lines::{cut_at_line_end, line_text};
use crate::progress::Progress;
use crate::{RunFault, Service};
use std::alloc::Global;
use std::io::Write;

/// What a run keeps from one read to the next.
#[derive(Drop)]
pub(crate) struct Pending {
    /// The beginning of a line that the end of a chunk has cut.
    pub(crate) cut: Vec<u8>,
    pub(crate) progress: Progress,
}

impl Pending {
    pub(crate) fn new(alloc: Global) -> Pending
        ensures cut { result.cut.items ≡ [] }
        ensures answers { result.progress.answers.bytes.items ≡ [] }
        ensures summary { result.progress.summary ≡ summary_of [] }
        ensures number { result.progress.number ≡ 1 }
    {
        Pending {
            cut: Vec::new(alloc),
            progress: Progress::new(alloc),
        }
    }

    /// Answers the lines that end in a chunk of the input, and keeps what follows them.
    pub(crate) fn answer_chunk<S: Service, W: Write>(
        &mut self,
        service: &S,
        alloc: Global,
        chunk: &[u8],
        writer: &mut W,
    ) -> Result<(), RunFault>
        ensures answered { OnOk result (Reads (S.rule service.now) (S.beginning service.now) chunk.now
            (W.contents writer.old) (W.contents writer.new) self.old self.new) }
        ensures stopped { IfErr result (StopsReading (S.rule service.now) (S.beginning service.now) chunk.now
            (W.contents writer.old) (W.contents writer.new) self.old) }
    {
        let mut rest = chunk;
        while let Some((piece, after)) = cut_at_line_end(rest) {
            self.end_line(service, alloc, piece, writer)?;
            rest = after;
        }
        self.cut.extend_from_slice(rest)?;
        Ok(())
    }

    /// Answers the last line of an input that has ended, where no byte 10 ends it.
    pub(crate) fn answer_end<S: Service, W: Write>(
        &mut self,
        service: &S,
        alloc: Global,
        writer: &mut W,
    ) -> Result<(), RunFault>
        ensures answered { OnOk result (EndsInput (S.rule service.now) (S.beginning service.now)
            (W.contents writer.old) (W.contents writer.new) self.old self.new) }
        ensures stopped { IfErr result (StopsEnding (S.rule service.now) (S.beginning service.now)
            (W.contents writer.old) (W.contents writer.new) self.old) }
    {
        if self.cut.is_empty() {
            return Ok(());
        }
        self.end_line(service, alloc, &[], writer)
    }

    /// Answers the line that the kept beginning and a piece make.
    fn end_line<S: Service, W: Write>(
        &mut self,
        service: &S,
        alloc: Global,
        piece: &[u8],
        writer: &mut W,
    ) -> Result<(), RunFault>
        ensures answered { OnOk result (Answers (S.rule service.now) (S.beginning service.now)
            (line_text (self.old.cut.items ++ piece.now) ∷ [])
            (W.contents writer.old) (W.contents writer.new) self.old.progress self.new.progress) }
        ensures cut { OnOk result (self.new.cut.items ≡ []) }
        ensures stopped { IfErr result (StopsAnswering (S.rule service.now) (S.beginning service.now)
            (line_text (self.old.cut.items ++ piece.now) ∷ [])
            (W.contents writer.old) (W.contents writer.new) self.old.progress) }
    {
        if self.cut.is_empty() {
            return self
                .progress
                .answer_line(service, alloc, line_text(piece), writer);
        }
        self.cut.extend_from_slice(piece)?;
        self.progress
            .answer_line(service, alloc, line_text(&self.cut), writer)?;
        self.cut.clear();
        Ok(())
    }
}
