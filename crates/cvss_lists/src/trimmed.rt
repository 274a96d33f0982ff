//! Answers to lines that may have blanks around their text.

ghost use Rattle.std.specs.Prelude.{◌≡◌, ◌<◌, IfOk, IsTrue, length};
ghost use Rattle.cvss_lines.specs.Answers.{WritesAnswer};
ghost use Rattle.cvss_lists.specs.Trimmed.{ReportsTrimmed, is_blank, is_one_text_if_trimmed, text_rule, trimmed, trimmed_rule, without_back, without_front};

use crate::scored::Scored;
use cvss_frame::LineAnswer;
use cvss_lines::{Answering, OutputBuffer};
use std::alloc::{AllocError, Global};

/// Answers lines without the spaces and tabs around their text. A line with no text has an empty answer,
/// which accepts it, so that answers stay beside their lines.
#[derive(Drop)]
pub struct Trimmed<A> {
    pub answer: A,
}

impl<A: Answering> Answering for Trimmed<A> {
    ghost rule = { λ trimmed. trimmed_rule (A.rule trimmed.answer) };

    #[inline(always)]
    fn answer_line(
        &self,
        alloc: Global,
        number: u64,
        line: &[u8],
        answers: &mut OutputBuffer,
    ) -> Result<bool, AllocError> {
        if has_bare_ends(line) {
            self.answer.answer_line(alloc, number, line, answers)
        } else {
            self.answer_text(alloc, number, trim(line), answers)
        }
    }
}

impl<A: Answering> Trimmed<A> {
    /// Answers the text of a line. It is apart from the other way, which mostly is taken.
    #[inline(never)]
    fn answer_text(
        &self,
        alloc: Global,
        number: u64,
        text: &[u8],
        answers: &mut OutputBuffer,
    ) -> Result<bool, AllocError>
        ensures { IfOk result (WritesAnswer (text_rule (A.rule self.now.answer)) number text.now
            answers.old.bytes.items answers.new.bytes.items) }
    {
        match text {
            [] => {
                answers.push(b"\n")?;
                Ok(true)
            }
            text => self.answer.answer_line(alloc, number, text, answers),
        }
    }
}

impl<A: LineAnswer> LineAnswer for Trimmed<A> {
    ghost one_text = { λ trimmed. is_one_text_if_trimmed (A.rule trimmed.answer) (A.one_text trimmed.answer) };
}

impl<A: Scored> Scored for Trimmed<A> {
    ghost reports = { λ trimmed. ReportsTrimmed (A.reports trimmed.answer) };

    fn score_of(&self, line: &[u8]) -> Option<u8> {
        let text = trim(line);
        if text.is_empty() {
            return None;
        }
        self.answer.score_of(text)
    }
}

/// Whether a line has several bytes, of which the first and the last are no blanks.
#[inline(always)]
fn has_bare_ends(line: &[u8]) -> bool
    ensures same { IsTrue result → trimmed line.now ≡ line.now }
    ensures some { IsTrue result → 0 < length line.now }
{
    match line {
        [first, .., last] => !is_blank(*first) && !is_blank(*last),
        _ => false,
    }
}

/// The line without the blanks around its text.
#[inline(always)]
fn trim(line: &[u8]) -> &[u8]
    ensures { result.now ≡ trimmed line.now }
{
    without_back(without_front(line))
}

/// A line from its first byte on that is no blank.
#[inline(always)]
fn without_front(line: &[u8]) -> &[u8]
    ensures { result.now ≡ without_front line.now }
{
    let mut left = line;
    while let [byte, rest @ ..] = left {
        if !is_blank(*byte) {
            return left;
        }
        left = rest;
    }
    left
}

/// A line to its last byte that is no blank.
#[inline(always)]
fn without_back(line: &[u8]) -> &[u8]
    ensures { result.now ≡ without_back line.now }
{
    let mut end = line.len();
    while end > 0 && is_blank(line[end - 1]) {
        end -= 1;
    }
    &line[..end]
}

#[inline(always)]
fn is_blank(byte: u8) -> bool
    ensures { result ≡ is_blank byte }
{
    byte == b' ' || byte == b'\t'
}
