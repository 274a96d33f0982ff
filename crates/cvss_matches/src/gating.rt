//! Which matches of a line are printed, and which count as rejected, by their scores.

ghost use Rattle.std.specs.Prelude.{◌≡◌, IfOk, Some, false, if◌then◌else◌, length, take};
ghost use Rattle.cvss_matches.specs.Answers.{IsKept, IsKeptIf, IsScored, IsTextScored, with_version};
ghost use Rattle.cvss_matches.specs.CandidatesLeft.{as_candidate};
ghost use Rattle.cvss_matches.specs.Decoding.{decoded};
ghost use Rattle.cvss_matches.specs.private.Reporting.{WritesKept, asked_of};

use crate::decoding::decoded_with;
use crate::line::{Line, is_changed};
use crate::matching::Match;
use cvss_lines::OutputBuffer;
use cvss_report::{Gate, score_of, severity_of};
use cvss_vector::Version;
use std::alloc::{AllocError, Global};

impl Line<'_> {
    /// Writes what is kept of a match, through the gate if there is one. Says whether the match counts as
    /// accepted.
    #[inline(always)]
    pub(crate) fn keep(
        self,
        alloc: Global,
        found: Match<'_>,
        answers: &mut OutputBuffer,
    ) -> Result<bool, AllocError>
        ensures { IfOk result (WritesKept (IsKept self.entry.gate (asked_of self.entry) (as_candidate found.entry))
            self.entry.form answers.old.bytes.items answers.new.bytes.items) }
    {
        match self.gate {
            None => self.report(alloc, found, answers),
            Some(gate) => self.keep_by(gate, alloc, found, answers),
        }
    }

    /// Writes what a gate lets through of a match.
    fn keep_by(
        self,
        gate: Gate,
        alloc: Global,
        found: Match<'_>,
        answers: &mut OutputBuffer,
    ) -> Result<bool, AllocError>
        ensures { IfOk result (WritesKept (IsKept (Some gate) (asked_of self.entry) (as_candidate found.entry))
            self.entry.form answers.old.bytes.items answers.new.bytes.items) }
    {
        let score = self.score_of(alloc, gate, found)?;
        if gate.passes_over(score) {
            return Ok(true);
        }
        self.let_through(gate.quiet, gate.fails_on(score), alloc, found, answers)
    }

    /// Writes what is reported of a match, or nothing where nothing is printed.
    fn let_through(
        self,
        quiet: bool,
        failing: bool,
        alloc: Global,
        found: Match<'_>,
        answers: &mut OutputBuffer,
    ) -> Result<bool, AllocError>
        ensures { IfOk result (WritesKept
            (IsKeptIf false quiet failing (asked_of self.entry) (as_candidate found.entry))
            self.entry.form answers.old.bytes.items answers.new.bytes.items) }
    {
        let waiting = waiting_bytes(answers);
        let accepted = self.report(alloc, found, answers)?;
        take_back(quiet, waiting, answers);
        Ok(accepts(failing, accepted))
    }

    /// The score of a match in tenths, if it has one. The match is counted, unless the gate passes over it.
    fn score_of(self, alloc: Global, gate: Gate, found: Match<'_>) -> Result<Option<u8>, AllocError>
        ensures { IfOk result (IsScored (asked_of self.entry) (as_candidate found.entry)) }
    {
        let version = self.version_for(found);
        self.score_of_bytes(alloc, gate, version, self.answered_bytes(found))
    }

    /// The score of bytes, decoded and after the prefix of a version if there is one.
    fn score_of_bytes(
        self,
        alloc: Global,
        gate: Gate,
        version: Option<Version>,
        bytes: &[u8],
    ) -> Result<Option<u8>, AllocError>
        ensures { IfOk result (IsTextScored (asked_of self.entry)
            (with_version version (decoded bytes.now))) }
    {
        if is_changed(version, bytes) {
            let text = decoded_with(alloc, version, bytes)?;
            Ok(self.score_of_text(gate, &text))
        } else {
            Ok(self.score_of_text(gate, bytes))
        }
    }

    /// The score of a text as a line by itself.
    fn score_of_text(self, gate: Gate, text: &[u8]) -> Option<u8>
        ensures { IsTextScored (asked_of self.entry) text.now result }
    {
        let scoring = self.form.deciding(self.scoring);
        let score = score_of(text, self.allow_incomplete, scoring);
        self.count(gate, score, text);
        score
    }

    /// Counts a text by the severity of its vector, if texts are counted and the gate does not pass over it.
    /// No contract speaks of the numbers.
    fn count(self, gate: Gate, score: Option<u8>, text: &[u8]) {
        if let Some(tally) = self.tally
            && !gate.passes_over(score)
        {
            let scoring = self.form.deciding(self.scoring);
            let severity = severity_of(text, self.allow_incomplete, scoring);
            tally.set(tally.get().with(severity));
        }
    }
}

/// Whether a match counts as accepted.
fn accepts(failing: bool, accepted: bool) -> bool
    ensures { result ≡ (if failing then false else accepted) }
{
    accepted && !failing
}

/// How many bytes wait to be written.
fn waiting_bytes(answers: &OutputBuffer) -> usize
    ensures { result ≡ length answers.now.bytes.items }
{
    answers.bytes.as_slice().len()
}

/// Takes back what is after so many bytes, where nothing is to be printed.
fn take_back(quiet: bool, waiting: usize, answers: &mut OutputBuffer)
    ensures { answers.new.bytes.items
        ≡ (if quiet then take waiting answers.old.bytes.items else answers.old.bytes.items) }
{
    if quiet {
        answers.bytes.truncate(waiting);
    }
}
