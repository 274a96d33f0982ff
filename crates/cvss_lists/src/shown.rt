//! Rejections without what breaks a line or a terminal.

ghost use Rattle.std.specs.Prelude.{◌≡◌, ◌∷◌, ◌++◌, [], ℕ, List, OnOk, length};
ghost use Rattle.cvss_frame.specs.Names.{shown_name};
ghost use Rattle.cvss_lists.specs.Shown.{IsShown, is_one_text_if_shown};

use crate::gated::waiting_bytes;
use crate::scored::Scored;
use cvss_frame::{LineAnswer, is_plain, shown_text};
use cvss_lines::{Answering, OutputBuffer};
use std::alloc::{AllocError, Global};

/// Answers whose rejections have escapes for the control characters, line breaks and marks of direction that
/// they quote. A rejection that has none takes no memory.
#[derive(Drop)]
pub struct Shown<A> {
    pub answer: A,
}

impl<A: LineAnswer> Answering for Shown<A> {
    ghost rule = { λ shown. IsShown (A.rule shown.answer) };

    #[inline(always)]
    fn answer_line(
        &self,
        alloc: Global,
        number: u64,
        line: &[u8],
        answers: &mut OutputBuffer,
    ) -> Result<bool, AllocError> {
        let waiting = waiting_bytes(answers);
        let accepted = self.answer.answer_line(alloc, number, line, answers)?;
        if accepted {
            return Ok(true);
        }
        show_after(alloc, waiting, answers)?;
        Ok(false)
    }
}

impl<A: LineAnswer> LineAnswer for Shown<A> {
    ghost one_text = { λ shown. is_one_text_if_shown (A.rule shown.answer) (A.one_text shown.answer) };
}

impl<A: LineAnswer + Scored> Scored for Shown<A> {
    ghost reports = { λ shown. A.reports shown.answer };

    fn score_of(&self, line: &[u8]) -> Option<u8> {
        self.answer.score_of(line)
    }
}

/// Shows the text after so many bytes, which a byte 10 ends.
///
/// # Errors
///
/// Out of memory. A beginning of the text may be written then.
#[inline(never)]
pub fn show_after(
    alloc: Global,
    waiting: usize,
    answers: &mut OutputBuffer,
) -> Result<(), AllocError>
    ensures { (before text : List ℕ) → length before ≡ waiting
        → answers.old.bytes.items ≡ before ++ (text ++ 10 ∷ [])
        → OnOk result (answers.new.bytes.items ≡ before ++ (shown_name text ++ 10 ∷ [])) }
{
    let text = text_after(waiting, &answers.bytes);
    if is_plain(text) {
        return Ok(());
    }
    let shown = shown_text(alloc, text)?;
    answers.bytes.truncate(waiting);
    answers.push(&shown)?;
    answers.push(b"\n")
}

/// The text after so many bytes, without the byte that ends it.
fn text_after(waiting: usize, bytes: &[u8]) -> &[u8]
    ensures { (before text : List ℕ) → length before ≡ waiting
        → bytes.now ≡ before ++ (text ++ 10 ∷ []) → result.now ≡ text }
{
    match bytes.get(waiting..) {
        Some([text @ .., _]) => text,
        _ => bytes,
    }
}
