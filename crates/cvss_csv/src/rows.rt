//! The rows of a record, one for each vector that is found in it.

ghost use Rattle.std.specs.Prelude.{◌≡◌, ◌++◌, OnOk};
ghost use Rattle.cvss_csv.specs.Rows.{between};
ghost use Rattle.cvss_csv.specs.Tallies.{kept_in};
ghost use Rattle.cvss_csv.specs.private.Answering.{WritesFound, WritesLater, WritesRow, WritesRows};

use crate::answer::Answerer;
use crate::asked::{Asked, Cells};
use crate::cells::push_read;
use crate::counting::count;
use crate::different::Kept;
use crate::guarding::push_shown;
use crate::record::CutRecord;
use crate::search::search;
use cvss_lines::{OutputBuffer, Summary};
use std::alloc::AllocError;

/// A record that is written once for each of its vectors, and how they are read.
#[derive(Drop)]
struct Repeated<'a> {
    asked: Asked,
    cut: &'a CutRecord<'a>,
}

impl Answerer {
    /// Appends a row for each vector that is found in a record, and counts them.
    ///
    /// # Errors
    ///
    /// Out of memory. A beginning of the rows may be written then.
    pub(crate) fn push_rows(
        &mut self,
        cells: Cells,
        cut: &CutRecord<'_>,
        summary: &mut Summary,
        out: &mut OutputBuffer,
    ) -> Result<(), AllocError>
        ensures rows { OnOk result (WritesFound self.old.asked cells cut.now.body.now cut.now.line_end.now
            out.old.bytes.items out.new.bytes.items summary.old summary.new) }
        ensures asked { self.new.asked ≡ self.old.asked }
    {
        self.different.clear();
        search(cells, cut.body, &mut self.value, &mut self.different)?;
        let record = Repeated {
            asked: self.asked,
            cut,
        };
        record.push_all(&self.different.kept, &mut self.reason, summary, out)
    }
}

impl Repeated<'_> {
    /// Appends the rows of these texts.
    fn push_all(
        &self,
        kept: &[Kept],
        room: &mut OutputBuffer,
        summary: &mut Summary,
        out: &mut OutputBuffer,
    ) -> Result<(), AllocError>
        ensures { OnOk result (WritesRows self.now.asked self.now.cut.now.body.now self.now.cut.now.line_end.now
            (kept_in kept.now) out.old.bytes.items out.new.bytes.items summary.old summary.new) }
    {
        match kept.split_first() {
            None => Ok(()),
            Some((first, more)) => {
                self.push_row(&first.text, room, summary, out)?;
                self.push_later(more, room, summary, out)
            }
        }
    }

    /// Appends the rows of texts after another row.
    fn push_later(
        &self,
        kept: &[Kept],
        room: &mut OutputBuffer,
        summary: &mut Summary,
        out: &mut OutputBuffer,
    ) -> Result<(), AllocError>
        ensures { OnOk result (WritesLater self.now.asked self.now.cut.now.body.now self.now.cut.now.line_end.now
            (kept_in kept.now) out.old.bytes.items out.new.bytes.items summary.old summary.new) }
    {
        for each in kept {
            self.push_between(out)?;
            self.push_row(&each.text, room, summary, out)?;
        }
        Ok(())
    }

    /// Appends what is between two rows.
    fn push_between(&self, out: &mut OutputBuffer) -> Result<(), AllocError>
        ensures { OnOk result (out.new.bytes.items
            ≡ out.old.bytes.items ++ between self.now.cut.now.line_end.now) }
    {
        match self.cut.line_end {
            [] => out.push(b"\n"),
            _ => Ok(()),
        }
    }

    /// Appends the row of a text. The room is for a reason.
    fn push_row(
        &self,
        text: &[u8],
        room: &mut OutputBuffer,
        summary: &mut Summary,
        out: &mut OutputBuffer,
    ) -> Result<(), AllocError>
        ensures { OnOk result (WritesRow self.now.asked self.now.cut.now.body.now self.now.cut.now.line_end.now
            text.now out.old.bytes.items out.new.bytes.items summary.old summary.new) }
    {
        push_shown(self.asked.guarded, self.cut.body, out)?;
        let accepted = push_read(self.asked, text, room, out)?;
        out.push(self.cut.line_end)?;
        count(summary, accepted);
        Ok(())
    }
}
