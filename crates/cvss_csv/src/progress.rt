//! How far a run has come.

ghost use Rattle.std.specs.Prelude.{◌≡◌, None, [], IfErr, OnOk};
ghost use Rattle.cvss_csv.specs.Answers.{HasRows, IsOneAnswer};
ghost use Rattle.cvss_csv.specs.Records.{is_open};
ghost use Rattle.cvss_csv.specs.Runs.{summary_of};
ghost use Rattle.cvss_csv.specs.declared.fault.CsvFault.TheVariants.{Run};
ghost use Rattle.cvss_csv.specs.private.Steps.{AnswersAs, AnswersNext, AnswersRecord, CannotAnswer};
ghost use Rattle.cvss_lines.specs.declared.fault.RunFault.TheVariants.{Memory};

use crate::answer::Answerer;
use crate::asked::{Asked, Cells, Column};
use crate::counting::{count, nothing_counted};
use crate::fault::CsvFault;
use crate::layout::layout_by;
use crate::record::CutRecord;
use cvss_lines::{OutputBuffer, Summary};
use std::alloc::Global;

/// What is known of the records that are answered.
#[derive(Drop)]
pub(crate) struct Progress {
    pub(crate) answerer: Answerer,
    /// The cells that are searched, which the first record says.
    pub(crate) cells: Option<Cells>,
    /// The answers that aren't written yet.
    pub(crate) answers: OutputBuffer,
    pub(crate) summary: Summary,
}

impl Progress {
    pub(crate) fn new(alloc: Global, asked: Asked) -> Progress
        ensures asked { result.answerer.asked ≡ asked }
        ensures cells { result.cells ≡ None }
        ensures answers { result.answers.bytes.items ≡ [] }
        ensures summary { result.summary ≡ summary_of [] }
    {
        Progress {
            answerer: Answerer::new(alloc, asked),
            cells: None,
            answers: OutputBuffer {
                bytes: Vec::new(alloc),
            },
            summary: nothing_counted(),
        }
    }

    /// Answers the next record.
    pub(crate) fn answer_record(
        &mut self,
        column: Column<'_>,
        cut: &CutRecord<'_>,
    ) -> Result<(), CsvFault>
        requires { cut.now.unclosed ≡ is_open cut.now.body.now }
        ensures answered { OnOk result (AnswersRecord column.entry cut.now.body.now cut.now.line_end.now
            self.old self.new) }
        ensures stopped { IfErr result (CannotAnswer column.entry cut.now.body.now self.old) }
    {
        match self.cells {
            Some(cells) => self.answer_next(cells, false, cut),
            None => self.answer_first(column, cut),
        }
    }

    /// Answers the first record.
    fn answer_first(&mut self, column: Column<'_>, cut: &CutRecord<'_>) -> Result<(), CsvFault>
        requires first { self.old.cells ≡ None }
        requires unclosed { cut.now.unclosed ≡ is_open cut.now.body.now }
        ensures answered { OnOk result (AnswersRecord column.entry cut.now.body.now cut.now.line_end.now
            self.old self.new) }
        ensures stopped { IfErr result (CannotAnswer column.entry cut.now.body.now self.old) }
    {
        let answerer = &mut self.answerer;
        let said = layout_by(column, cut.body, &mut answerer.value, &mut answerer.tally)?;
        let Some(layout) = said else {
            return Err(CsvFault::UnknownColumn);
        };
        self.cells = Some(layout.cells);
        self.answer_next(layout.cells, layout.has_header, cut)
    }

    /// Answers a record whose cells are known.
    fn answer_next(
        &mut self,
        cells: Cells,
        is_header: bool,
        cut: &CutRecord<'_>,
    ) -> Result<(), CsvFault>
        requires { cut.now.unclosed ≡ is_open cut.now.body.now }
        ensures answered { OnOk result
            (AnswersNext cells is_header cut.now.body.now cut.now.line_end.now self.old self.new) }
        ensures stopped { IfErr result (λ fault. fault ≡ Run Memory) }
    {
        if !self.answerer.asked.each {
            return self.answer_once(cells, is_header, cut);
        }
        if cut.body.is_empty() {
            return Ok(());
        }
        if cut.unclosed || is_header {
            return self.answer_once(cells, is_header, cut);
        }
        self.answer_each(cells, cut)
    }

    /// Answers a record once.
    fn answer_once(
        &mut self,
        cells: Cells,
        is_header: bool,
        cut: &CutRecord<'_>,
    ) -> Result<(), CsvFault>
        requires { cut.now.unclosed ≡ is_open cut.now.body.now }
        ensures answered { OnOk result (AnswersAs (IsOneAnswer self.old.answerer.asked cells is_header
            cut.now.body.now cut.now.line_end.now) self.old self.new) }
        ensures stopped { IfErr result (λ fault. fault ≡ Run Memory) }
    {
        let answerer = &mut self.answerer;
        let counted = answerer.push_record(cells, is_header, cut, &mut self.answers)?;
        count(&mut self.summary, counted);
        Ok(())
    }

    /// Answers a record by a row for each of its vectors.
    fn answer_each(&mut self, cells: Cells, cut: &CutRecord<'_>) -> Result<(), CsvFault>
        ensures answered { OnOk result (AnswersAs (HasRows self.old.answerer.asked cells cut.now.body.now
            cut.now.line_end.now) self.old self.new) }
        ensures stopped { IfErr result (λ fault. fault ≡ Run Memory) }
    {
        let answerer = &mut self.answerer;
        answerer.push_rows(cells, cut, &mut self.summary, &mut self.answers)?;
        Ok(())
    }
}
