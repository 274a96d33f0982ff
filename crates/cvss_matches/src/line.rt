//! The answer to a line: what is reported of the vectors in it.

ghost use Rattle.std.specs.Prelude.{◌≡◌, ◌++◌, IfOk, None, OnOk, bytes_eq, codes, drop, false, true};
ghost use Rattle.cvss_vector.specs.Complete.{IsPublishedOfComplete};
ghost use Rattle.cvss_matches.specs.Answers.{after_candidate, answered_bytes, answers_as, before_answer, linked_version, version_for, with_version};
ghost use Rattle.cvss_matches.specs.Prefixes.{has_loose_prefix};
ghost use Rattle.cvss_matches.specs.Decoding.{decoded};
ghost use Rattle.cvss_matches.specs.declared.form.Form.TheVariants.{Located};
ghost use Rattle.cvss_matches.specs.private.Reporting.{AnswersLine, WritesReported, WritesShown, asked_of};
ghost use Rattle.cvss_lines.specs.Answers.{WritesAnswer};
ghost use Rattle.cvss_matches.specs.CandidatesLeft.{as_candidate};

use crate::decoding::decoded_with;
use crate::form::Form;
use crate::hint::PrefixHint;
use crate::location::{write_first_location, write_location};
use crate::matches::Matches;
use crate::matching::Match;
use crate::part::has_escape;
use crate::prefix::begins_with_prefix;
use crate::unprefixed::lacks_prefix;
use cvss_lines::OutputBuffer;
use cvss_report::{Format, Gate, Tally, write_cells};
use cvss_vector::{Cvss, Published, Scoring, Version, answer_score, write_canonical};
use std::alloc::{AllocError, Global};
use std::cell::Cell;

/// A line, its number, and how it is answered.
#[derive(Clone, Copy, Drop)]
pub(crate) struct Line<'a> {
    pub(crate) form: Form,
    pub(crate) prefix: &'a [u8],
    pub(crate) allow_incomplete: bool,
    pub(crate) assumed: Option<Version>,
    pub(crate) scoring: Scoring,
    pub(crate) gate: Option<Gate>,
    pub(crate) number: u64,
    pub(crate) bytes: &'a [u8],
    pub(crate) hint: &'a Cell<Option<PrefixHint>>,
    pub(crate) tally: Option<&'a Cell<Tally>>,
}

impl Line<'_> {
    /// The answer to the line.
    pub(crate) fn answer(
        self,
        alloc: Global,
        answers: &mut OutputBuffer,
    ) -> Result<bool, AllocError>
        ensures { IfOk result (AnswersLine (asked_of self.entry)
            answers.old.bytes.items answers.new.bytes.items) }
    {
        match (self.form, self.gate) {
            (Form::Located, None) => {
                match Cvss::published_of_canonical(self.bytes, self.scoring) {
                    Some(published) => self.report_canonical(published, answers),
                    None => self.report_matches(alloc, answers),
                }
            }
            _ => self.report_matches(alloc, answers),
        }
    }

    /// The answer to a line that is a canonical vector with all base metrics, its only match, where
    /// there is no gate.
    fn report_canonical(
        self,
        published: Published,
        answers: &mut OutputBuffer,
    ) -> Result<bool, AllocError>
        requires published { IsPublishedOfComplete self.scoring self.bytes.now published }
        requires form { self.form ≡ Located }
        requires gate { self.gate ≡ None }
        ensures { IfOk result (AnswersLine (asked_of self.entry)
            answers.old.bytes.items answers.new.bytes.items) }
    {
        self.write_prefix(answers)?;
        write_first_location(self.number, answers)?;
        write_canonical(self.bytes, published, answers)?;
        Ok(true)
    }

    /// The answer to a line of any bytes, match by match.
    fn report_matches(self, alloc: Global, answers: &mut OutputBuffer) -> Result<bool, AllocError>
        ensures { IfOk result (AnswersLine (asked_of self.entry)
            answers.old.bytes.items answers.new.bytes.items) }
    {
        self.write_opening(answers)?;
        let accepted = self.write_shown(self.form.shows_all(), alloc, answers)?;
        self.write_closing(answers)?;
        Ok(accepted)
    }

    /// Writes what is kept of all matches, or of the first.
    fn write_shown(
        self,
        all: bool,
        alloc: Global,
        answers: &mut OutputBuffer,
    ) -> Result<bool, AllocError>
        ensures { IfOk result (WritesShown all (asked_of self.entry)
            answers.old.bytes.items answers.new.bytes.items) }
    {
        if all {
            self.write_all(alloc, answers)
        } else {
            self.write_first(alloc, answers)
        }
    }

    /// Writes what is kept of all matches.
    fn write_all(self, alloc: Global, answers: &mut OutputBuffer) -> Result<bool, AllocError>
        ensures { IfOk result (WritesShown true (asked_of self.entry)
            answers.old.bytes.items answers.new.bytes.items) }
    {
        let mut matches = Matches::of(self.bytes);
        let mut accepted = true;
        while let Some(found) = matches.next() {
            accepted &= self.keep(alloc, found, answers)?;
        }
        Ok(accepted)
    }

    /// Writes what is kept of the first match, if there is one.
    fn write_first(self, alloc: Global, answers: &mut OutputBuffer) -> Result<bool, AllocError>
        ensures { IfOk result (WritesShown false (asked_of self.entry)
            answers.old.bytes.items answers.new.bytes.items) }
    {
        match Matches::of(self.bytes).next() {
            Some(found) => self.keep(alloc, found, answers),
            None => Ok(true),
        }
    }

    /// Writes what is reported of a match. Says whether the match is accepted.
    pub(crate) fn report(
        self,
        alloc: Global,
        found: Match<'_>,
        answers: &mut OutputBuffer,
    ) -> Result<bool, AllocError>
        ensures { IfOk result (WritesReported (asked_of self.entry)
            (as_candidate found.entry) answers.old.bytes.items answers.new.bytes.items) }
    {
        self.write_before(found, answers)?;
        let version = self.version_for(found);
        let accepted = self.answer_bytes(alloc, version, self.answered_bytes(found), answers)?;
        self.end_text(answers);
        self.note_hint(alloc, accepted, found.text);
        Ok(accepted)
    }

    /// Writes what is before the answer to a match.
    fn write_before(self, found: Match<'_>, answers: &mut OutputBuffer) -> Result<(), AllocError>
        ensures { OnOk result (answers.new.bytes.items ≡ answers.old.bytes.items
            ++ before_answer self.entry.form (asked_of self.entry) (as_candidate found.entry)) }
    {
        match self.form {
            Form::Located => {
                self.write_prefix(answers)?;
                write_location(self.number, found.offset, answers)
            }
            Form::Object => self.write_first_members(found, answers),
            Form::Annotated { .. } => answers.push(b"\t"),
        }
    }

    /// The answer to bytes, decoded and after the prefix of a version if there is one, as a line by
    /// themselves.
    fn answer_bytes(
        self,
        alloc: Global,
        version: Option<Version>,
        bytes: &[u8],
        answers: &mut OutputBuffer,
    ) -> Result<bool, AllocError>
        ensures { IfOk result (WritesAnswer (answers_as self.entry.form self.entry.scoring
            self.entry.allow_incomplete) self.entry.number (with_version version (decoded bytes.now))
            answers.old.bytes.items answers.new.bytes.items) }
    {
        if is_changed(version, bytes) {
            let text = decoded_with(alloc, version, bytes)?;
            self.answer_text(alloc, &text, answers)
        } else {
            self.answer_text(alloc, bytes, answers)
        }
    }

    /// The answer to a text as a line by itself.
    #[inline(always)]
    fn answer_text(
        self,
        alloc: Global,
        text: &[u8],
        answers: &mut OutputBuffer,
    ) -> Result<bool, AllocError>
        ensures { IfOk result (WritesAnswer (answers_as self.entry.form self.entry.scoring
            self.entry.allow_incomplete) self.entry.number text.now answers.old.bytes.items answers.new.bytes.items) }
    {
        match self.form {
            Form::Object => {
                write_cells(alloc, Format::Json, text, self.allow_incomplete, answers)
            }
            Form::Located | Form::Annotated { .. } => answer_score(
                text,
                self.allow_incomplete,
                self.scoring,
                answers,
            ),
        }
    }

    /// The bytes of a match that are answered.
    pub(crate) fn answered_bytes<'b>(&'b self, found: Match<'b>) -> &'b [u8]
        ensures { result.now ≡ answered_bytes (asked_of self.now) (as_candidate found.entry) }
    {
        match self.bytes.get(found.offset..) {
            Some(rest) if !self.allow_incomplete && is_cut(rest, found.text.len()) => rest,
            _ => found.text,
        }
    }

    /// The version of a vector without its prefix, if that is known.
    pub(crate) fn version_for(&self, found: Match<'_>) -> Option<Version>
        ensures { result ≡ version_for (asked_of self.now) (as_candidate found.entry) }
    {
        if !lacks_prefix(found.text) {
            return None;
        }
        match self.linked_version(found) {
            Some(version) => Some(version),
            None => self.assumed,
        }
    }

    /// The version that a link says after a match.
    fn linked_version(&self, found: Match<'_>) -> Option<Version>
        ensures { result ≡ linked_version (after_candidate self.now.bytes.now (as_candidate found.entry)) }
    {
        let after = self.bytes.get(found.offset..)?.get(found.text.len()..)?;
        if after.starts_with(b"&version=3.0") {
            Some(Version::V30)
        } else if after.starts_with(b"&version=3.1") {
            Some(Version::V31)
        } else {
            None
        }
    }

    /// Writes what the answer begins with. Mostly that is nothing.
    pub(crate) fn write_prefix(self, answers: &mut OutputBuffer) -> Result<(), AllocError>
        ensures { OnOk result (answers.new.bytes.items
            ≡ answers.old.bytes.items ++ self.entry.prefix.now) }
    {
        if self.prefix.is_empty() {
            return Ok(());
        }
        answers.push(self.prefix)
    }
}

/// Whether a match begins with a prefix that is not written as it should be.
pub(crate) fn has_loose_prefix(text: &[u8]) -> bool
    ensures { result ≡ has_loose_prefix text.now }
{
    begins_with_prefix(text) && !(text.starts_with(b"CVSS:") || text.starts_with(b"CVSS%"))
}

/// Whether bytes are answered otherwise than as they are: after a prefix, or decoded.
#[tactic(auto, using(crate::proofs::DecodingLemmas::as_given))]
pub(crate) fn is_changed(version: Option<Version>, bytes: &[u8]) -> bool
    ensures { result ≡ false → with_version version (decoded bytes.now) ≡ bytes.now }
{
    match version {
        Some(_) => true,
        None => has_escape(bytes),
    }
}

/// Whether bytes are so many and then a slash.
fn is_cut(rest: &[u8], length: usize) -> bool
    ensures { result ≡ bytes_eq (drop length rest.now) (codes "/") }
{
    match rest.get(length..) {
        Some(after) => matches!(after, [b'/']),
        None => false,
    }
}
