//! Answers that reject what a standard does not allow.

ghost use Rattle.cvss_lists.specs.Departures.{MeetsAll, strict_rule};
ghost use Rattle.cvss_lists.specs.Strict.{is_one_text_if_strict};

use crate::departure::{departure_of, write_departure};
use crate::scored::Scored;
use cvss_frame::LineAnswer;
use cvss_lines::{Answering, OutputBuffer};
use std::alloc::{AllocError, Global};

/// Answers that reject a line that the standard of its vector's version does not allow, and say what is
/// not allowed, though the line is read.
#[derive(Drop)]
pub struct Strict<A> {
    pub answer: A,
}

impl<A: Answering> Answering for Strict<A> {
    ghost rule = { λ strict. strict_rule (A.rule strict.answer) };

    fn answer_line(
        &self,
        alloc: Global,
        number: u64,
        line: &[u8],
        answers: &mut OutputBuffer,
    ) -> Result<bool, AllocError> {
        match departure_of(line) {
            Some(departure) => {
                write_departure(departure, answers)?;
                Ok(false)
            }
            None => self.answer.answer_line(alloc, number, line, answers),
        }
    }
}

impl<A: LineAnswer> LineAnswer for Strict<A> {
    ghost one_text = { λ strict. is_one_text_if_strict (A.rule strict.answer) (A.one_text strict.answer) };
}

impl<A: Scored> Scored for Strict<A> {
    ghost reports = { λ strict line tenths. MeetsAll line × A.reports strict.answer line tenths };

    fn score_of(&self, line: &[u8]) -> Option<u8> {
        match departure_of(line) {
            Some(_) => None,
            None => self.answer.score_of(line),
        }
    }
}
