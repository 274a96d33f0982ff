//! What a run keeps from one read to the next.

ghost use Rattle.std.specs.Prelude.{◌≡◌, ◌++◌, [], None, false, IfErr, OnOk};
ghost use Rattle.cvss_csv.specs.Fields.{state_after};
ghost use Rattle.cvss_csv.specs.Records.{ended_record, is_open};
ghost use Rattle.cvss_csv.specs.Runs.{summary_of};
ghost use Rattle.cvss_csv.specs.declared.state.State.TheVariants.{Start};
ghost use Rattle.cvss_csv.specs.private.Steps.{AnswersRecord, CannotAnswer, EndsInput, Reads, StopsEnding, StopsReading};

use crate::asked::{Asked, Column};
use crate::cutting::cut_first;
use crate::fault::CsvFault;
use crate::progress::Progress;
use crate::record::CutRecord;
use crate::state::{LINE_FEED, State};
use std::alloc::{AllocError, Global};

/// What a run keeps from one read to the next.
#[derive(Drop)]
pub(crate) struct Pending {
    /// The beginning of a record that the end of a chunk has cut.
    pub(crate) cut: Vec<u8>,
    /// The state after it.
    pub(crate) state: State,
    pub(crate) progress: Progress,
}

impl Pending {
    pub(crate) fn new(alloc: Global, asked: Asked) -> Pending
        ensures cut { result.cut.items ≡ [] }
        ensures state { result.state ≡ Start }
        ensures asked { result.progress.answerer.asked ≡ asked }
        ensures cells { result.progress.cells ≡ None }
        ensures answers { result.progress.answers.bytes.items ≡ [] }
        ensures summary { result.progress.summary ≡ summary_of [] }
    {
        Pending {
            cut: Vec::new(alloc),
            state: State::Start,
            progress: Progress::new(alloc, asked),
        }
    }

    /// Answers the records that end in a chunk of the input, and keeps what follows them.
    pub(crate) fn answer_chunk(&mut self, column: Column<'_>, chunk: &[u8]) -> Result<(), CsvFault>
        requires { state_after Start self.old.cut.items ≡ self.old.state }
        ensures answered { OnOk result (Reads column.entry chunk.now self.old self.new) }
        ensures state { OnOk result (state_after Start self.new.cut.items ≡ self.new.state) }
        ensures stopped { IfErr result (StopsReading column.entry chunk.now self.old) }
    {
        let mut rest = chunk;
        loop {
            match cut_first(LINE_FEED, self.state, rest) {
                Ok((piece, following)) => {
                    self.end_record(column, piece)?;
                    rest = following;
                }
                Err(after) => {
                    self.cut.extend_from_slice(rest)?;
                    self.state = after;
                    return Ok(());
                }
            }
        }
    }

    /// Answers the last record of an input that has ended, where no line feed ends it.
    pub(crate) fn answer_end(&mut self, column: Column<'_>) -> Result<(), CsvFault>
        requires { state_after Start self.old.cut.items ≡ self.old.state }
        ensures answered { OnOk result (EndsInput column.entry self.old self.new) }
        ensures stopped { IfErr result (StopsEnding column.entry self.old) }
    {
        if self.cut.is_empty() {
            return Ok(());
        }
        let last = CutRecord::last(&self.cut, self.state);
        self.progress.answer_record(column, &last)
    }

    /// Answers the record that the kept beginning and a piece make.
    fn end_record(&mut self, column: Column<'_>, piece: &[u8]) -> Result<(), CsvFault>
        requires { is_open (self.old.cut.items ++ piece.now) ≡ false }
        ensures answered { OnOk result (AnswersRecord column.entry
            (ended_record (self.old.cut.items ++ piece.now)).body
            (ended_record (self.old.cut.items ++ piece.now)).line_end
            self.old.progress self.new.progress) }
        ensures cut { OnOk result (self.new.cut.items ≡ []) }
        ensures state { OnOk result (self.new.state ≡ Start) }
        ensures stopped { IfErr result (CannotAnswer column.entry
            (ended_record (self.old.cut.items ++ piece.now)).body self.old.progress) }
    {
        self.state = State::Start;
        let progress = &mut self.progress;
        if self.cut.is_empty() {
            return progress.answer_record(column, &CutRecord::ended(piece));
        }
        self.cut.extend_from_slice(piece)?;
        progress.answer_record(column, &CutRecord::ended(&self.cut))?;
        self.cut.clear();
        Ok(())
    }
}
