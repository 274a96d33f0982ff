//! Answers to lines that report scores.

ghost use Rattle.std.specs.Prelude.{ℕ, List, MatchOption, true};
ghost use Rattle.cvss_report.specs.LineScores.{IsScoreOfLine};
ghost use Rattle.cvss_vector.specs.declared.scoring.Scoring.TheVariants.{Overall, Published};

use cvss_frame::{LineAnswer, Prefixed};
use cvss_lines::Answering;
use cvss_report::{Rows, score_of};
use cvss_vector::{Scoring, Vectors};

/// A way to answer lines whose answers report scores.
pub trait Scored: Answering {
    /// Which score of so many tenths the answer to a line reports.
    ghost reports: { Self → List ℕ → ℕ → Type 0 };

    /// The tenths of the score that the answer to a line reports, if it reports one.
    fn score_of(&self, line: &[u8]) -> Option<u8>
        ensures { MatchOption result ((tenths : ℕ) → ¬ (reports self.now line.now tenths))
            (reports self.now line.now) };
}

impl Scored for Vectors {
    ghost reports = { λ _. IsScoreOfLine Published true };

    fn score_of(&self, line: &[u8]) -> Option<u8> {
        score_of(line, true, Scoring::Published)
    }
}

impl Scored for Rows<'_> {
    ghost reports = { λ rows. IsScoreOfLine Overall rows.allow_incomplete };

    fn score_of(&self, line: &[u8]) -> Option<u8> {
        score_of(line, self.allow_incomplete, Scoring::Overall)
    }
}

impl<A: LineAnswer + Scored> Scored for Prefixed<'_, A> {
    ghost reports = { λ prefixed. A.reports prefixed.answer.now };

    fn score_of(&self, line: &[u8]) -> Option<u8> {
        self.answer.score_of(line)
    }
}
