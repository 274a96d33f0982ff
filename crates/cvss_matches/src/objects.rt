//! The object for a match.

ghost use Rattle.std.specs.Prelude.{◌≡◌, ◌+◌, ◌++◌, codes, OnOk};
ghost use Rattle.std.specs.Fmt.{decimal};
ghost use Rattle.cvss_json.specs.Sinks.{Adds};
ghost use Rattle.cvss_matches.specs.Answers.{first_members};
ghost use Rattle.cvss_matches.specs.private.Reporting.{asked_of};
ghost use Rattle.cvss_matches.specs.CandidatesLeft.{as_candidate};
ghost use Rattle.cvss_report.specs.Cells.{given_text};
ghost use Rattle.cvss_report.specs.declared.format.Format.TheVariants.{Json};

use crate::line::Line;
use crate::matching::Match;
use cvss_json::{Growing, Sink, put_whole};
use cvss_lines::OutputBuffer;
use cvss_report::{Format, put_given, put_object_start};
use std::alloc::AllocError;

impl Line<'_> {
    /// Writes the members of a match's object before those of its answer.
    pub(crate) fn write_first_members(
        self,
        found: Match<'_>,
        answers: &mut OutputBuffer,
    ) -> Result<(), AllocError>
        ensures { OnOk result (answers.new.bytes.items ≡ answers.old.bytes.items
            ++ first_members (asked_of self.entry) (as_candidate found.entry)) }
    {
        let mut sink = Growing::begin_after(answers);
        self.put_first_members(&mut sink, found);
        sink.end_into(answers)
    }

    #[tactic(auto, using(cvss_json::proofs::AddsLemmas::join2))]
    fn put_first_members<S: Sink>(self, sink: &mut S, found: Match<'_>)
        ensures { Adds S.Holds (first_members (asked_of self.entry) (as_candidate found.entry))
            sink.old sink.new }
    {
        put_object_start(sink, self.prefix);
        sink.push(b"\"line\":");
        put_whole(sink, self.number);
        put_column_and_text(sink, found.offset, self.answered_bytes(found));
    }
}

/// Writes the members for the column of an offset in a line and for the text that is there.
#[tactic(auto, using(cvss_json::proofs::AddsLemmas::join2))]
fn put_column_and_text<S: Sink>(sink: &mut S, offset: usize, text: &[u8])
    ensures { Adds S.Holds (codes ",\"column\":" ++ (decimal (offset + 1)
        ++ (codes ",\"text\":" ++ given_text Json text.now))) sink.old sink.new }
{
    sink.push(b",\"column\":");
    put_next(sink, offset as u64);
    sink.push(b",\"text\":");
    put_given(sink, Format::Json, text);
}

/// Writes the number after this one.
fn put_next<S: Sink>(sink: &mut S, number: u64)
    ensures { Adds S.Holds (decimal (number + 1)) sink.old sink.new }
{
    match number.checked_add(1) {
        Some(next) => put_whole(sink, next),
        None => sink.push(b"18446744073709551616"),
    }
}
