//! The cells that answer a record.

ghost use Rattle.std.specs.Prelude.{◌≡◌, ℕ, List, [], ◌∷◌, ◌++◌, IfOk, OnOk, if◌then◌else◌};
ghost use Rattle.cvss_csv.specs.Answers.{IsCellOf, IsVerdictBy, IsVerdictOf, IsWithout, IsTrimmed};
ghost use Rattle.cvss_csv.specs.Fields.{fields, quote};
ghost use Rattle.cvss_csv.specs.Records.{is_open};
ghost use Rattle.cvss_csv.specs.Tallies.{IsTally};
ghost use Rattle.cvss_csv.specs.private.Answering.{WritesAnswer};
ghost use Rattle.cvss_csv.specs.Writing.{Writes};

use crate::asked::{Asked, Cells};
use crate::cells::{push_names, push_nothing, push_read, push_reason};
use crate::different::Different;
use crate::fields::field_at;
use crate::guarding::push_shown;
use crate::record::CutRecord;
use crate::search::search;
use crate::tally::{Count, Tally};
use crate::value::value_in;
use cvss_lines::OutputBuffer;
use std::alloc::{AllocError, Global};

/// What answers records one after another. Its buffers are kept, so that most records take no memory.
#[derive(Drop)]
pub(crate) struct Answerer {
    pub(crate) asked: Asked,
    /// The vectors that are found.
    pub(crate) tally: Tally,
    /// The vectors that have rows of their own.
    pub(crate) different: Different,
    /// Room for the value of a field.
    pub(crate) value: Vec<u8>,
    /// Room for a reason.
    pub(crate) reason: OutputBuffer,
}

impl Answerer {
    /// One that has answered nothing.
    pub(crate) fn new(alloc: Global, asked: Asked) -> Answerer
        ensures { result.asked ≡ asked }
    {
        Answerer {
            asked,
            tally: Tally::new(alloc),
            different: Different::new(alloc),
            value: Vec::new(alloc),
            reason: OutputBuffer {
                bytes: Vec::new(alloc),
            },
        }
    }

    /// Appends the one answer to a record, which may be a header: the record, six cells and its line end.
    /// Returns whether it is accepted or rejected; neither, where it is a header or empty, or where the cell of
    /// its vector is.
    ///
    /// # Errors
    ///
    /// Out of memory. A beginning of the answer may be written then.
    pub(crate) fn push_record(
        &mut self,
        cells: Cells,
        is_header: bool,
        cut: &CutRecord<'_>,
        out: &mut OutputBuffer,
    ) -> Result<Option<bool>, AllocError>
        requires { cut.now.unclosed ≡ is_open cut.now.body.now }
        ensures answered { IfOk result (WritesAnswer self.old.asked cells is_header cut.now.body.now
            cut.now.line_end.now out.old.bytes.items out.new.bytes.items) }
        ensures asked { self.new.asked ≡ self.old.asked }
    {
        if cut.body.is_empty() {
            out.push(cut.line_end)?;
            return Ok(None);
        }
        push_shown(self.asked.guarded, cut.body, out)?;
        push_closing(cut.unclosed, out)?;
        let counted = self.push_cells(cells, is_header, cut, out)?;
        out.push(cut.line_end)?;
        Ok(counted)
    }

    /// Appends the six cells of a record, which may be a header. Returns whether it is accepted or rejected;
    /// neither, where the cell of its vector is empty.
    ///
    /// # Errors
    ///
    /// Out of memory. A beginning of the cells may be written then.
    fn push_cells(
        &mut self,
        cells: Cells,
        is_header: bool,
        cut: &CutRecord<'_>,
        out: &mut OutputBuffer,
    ) -> Result<Option<bool>, AllocError>
        ensures cells { IfOk result (Writes self.old.asked (IsVerdictOf cut.now.unclosed is_header
            self.old.asked.allow_incomplete cells cut.now.body.now)
            out.old.bytes.items out.new.bytes.items) }
        ensures asked { self.new.asked ≡ self.old.asked }
    {
        if cut.unclosed {
            return push_reason(self.asked, b"a quoted field is not closed", out);
        }
        if is_header {
            return push_names(self.asked, out);
        }
        self.tally.clear();
        search(cells, cut.body, &mut self.value, &mut self.tally)?;
        self.push_found(cells, cut.body, out)
    }

    /// Appends the cells of a record by the vectors that are found.
    fn push_found(
        &mut self,
        cells: Cells,
        body: &[u8],
        out: &mut OutputBuffer,
    ) -> Result<Option<bool>, AllocError>
        ensures cells { (texts : List (List ℕ)) → IsTally self.old.tally texts → IfOk result (Writes self.old.asked
            (IsVerdictBy self.old.asked.allow_incomplete cells (fields body.now) texts)
            out.old.bytes.items out.new.bytes.items) }
        ensures asked { self.new.asked ≡ self.old.asked }
    {
        match self.tally.count {
            Count::None => self.push_without(cells, body, out),
            Count::One => push_read(self.asked, &self.tally.first, &mut self.reason, out),
            Count::Several => push_reason(self.asked, b"several vectors", out),
        }
    }

    /// Appends the cells of a record in which no vector is found.
    #[tactic(auto, using(crate::proofs::WritingLemmas::without_cell, crate::proofs::WritingLemmas::with_cell))]
    fn push_without(
        &mut self,
        cells: Cells,
        body: &[u8],
        out: &mut OutputBuffer,
    ) -> Result<Option<bool>, AllocError>
        ensures cells { IfOk result (Writes self.old.asked
            (IsWithout self.old.asked.allow_incomplete cells (fields body.now))
            out.old.bytes.items out.new.bytes.items) }
        ensures asked { self.new.asked ≡ self.old.asked }
    {
        match cells {
            Cells::Any => push_reason(self.asked, b"no vector", out),
            Cells::At(index) => match field_at(index, body) {
                None => push_nothing(self.asked, out),
                Some(field) => self.push_field(field, out),
            },
        }
    }

    /// Appends the cells of a record by the field in which no vector is found.
    fn push_field(
        &mut self,
        field: &[u8],
        out: &mut OutputBuffer,
    ) -> Result<Option<bool>, AllocError>
        ensures cells { IfOk result (Writes self.old.asked
            (IsCellOf self.old.asked.allow_incomplete (field.now ∷ []))
            out.old.bytes.items out.new.bytes.items) }
        ensures asked { self.new.asked ≡ self.old.asked }
    {
        let value = value_in(field, &mut self.value)?;
        push_trimmed(self.asked, value, &mut self.reason, out)
    }
}

/// Appends the quote that closes the last field of a record, if it is not closed.
fn push_closing(unclosed: bool, out: &mut OutputBuffer) -> Result<(), AllocError>
    ensures { OnOk result (out.new.bytes.items ≡ out.old.bytes.items ++ (if unclosed then quote ∷ [] else [])) }
{
    if unclosed {
        return out.push(b"\"");
    }
    Ok(())
}

/// Appends the cells of a value in which no vector is found.
fn push_trimmed(
    asked: Asked,
    value: &[u8],
    room: &mut OutputBuffer,
    out: &mut OutputBuffer,
) -> Result<Option<bool>, AllocError>
    ensures { IfOk result (Writes asked (IsTrimmed asked.allow_incomplete value.now)
        out.old.bytes.items out.new.bytes.items) }
{
    let text = value.trim_ascii();
    if text.is_empty() {
        return push_nothing(asked, out);
    }
    push_read(asked, text, room, out)
}
