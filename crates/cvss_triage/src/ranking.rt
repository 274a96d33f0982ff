//! Lines, ranked.

ghost use Rattle.std.specs.Prelude.{All, IfErr, IfOk, List, OnOk, Some, option_map};
ghost use Rattle.cvss_triage.specs.Ranking.{IsRanking, IsRow};
ghost use Rattle.cvss_triage.specs.Reading.{IsReason};
ghost use Rattle.cvss_triage.specs.declared.overrides.Override.{Override};
ghost use Rattle.cvss_triage.specs.private.Steps.{Adds, AreOwnMetrics, IsReadBy, IsToTen, as_line, rows_of};

use crate::lines::CutLine;
use crate::own_metrics::OwnMetrics;
use crate::preferring::{Preference, chosen};
use crate::reading::Reason;
use crate::row::Row;
use cvss_score::ranking;
use cvss_vector::{ReadError, Rejection, Scoring};
use std::alloc::{AllocError, Global};

/// By what lines are ranked.
#[derive(Drop)]
pub(crate) struct Rules {
    /// The metrics that are set in each vector.
    pub(crate) own: OwnMetrics,
    /// By which score of each vector.
    pub(crate) scoring: Scoring,
    /// Vectors of CVSS v3 may lack base metrics.
    pub(crate) allow_incomplete: bool,
    /// Which vector of a line is ranked, where it has several.
    pub(crate) prefer: Option<Preference>,
}

/// A line that has no row.
#[derive(Drop)]
pub(crate) struct BadLine<'a> {
    /// The line's number among those of all inputs, counted from 1.
    pub(crate) number: usize,
    pub(crate) reason: Reason<'a>,
}

/// The rows of lines, and the lines that have none.
#[derive(Drop)]
pub(crate) struct Ranking<'a> {
    /// One row for each line that has a vector, in falling order of score; rows of one score are in the
    /// order of their lines' bytes.
    pub(crate) rows: Vec<Row<'a>>,
    /// The other lines, in their order.
    pub(crate) bad: Vec<BadLine<'a>>,
}

impl<'a> Ranking<'a> {
    /// Ranks lines, of which some may be left out.
    ///
    /// # Errors
    ///
    /// Out of memory.
    #[tactic(auto, using(crate::proofs::RankLemmas::to_ten_ranked))]
    pub(crate) fn of(
        alloc: Global,
        lines: &'a [Option<CutLine<'a>>],
        rules: &Rules,
    ) -> Result<Ranking<'a>, AllocError>
        ensures ranking { (overrides : List Override) → AreOwnMetrics overrides rules.now.own
            → IfOk result (IsRanking rules.now.prefer overrides rules.now.scoring
            rules.now.allow_incomplete (rows_of lines.now)) }
        ensures to_ten { IfOk result (λ ranking. All IsToTen ranking.rows.items) }
    {
        let mut ranking = Ranking::in_turn(alloc, lines, rules)?;
        ranking::rank(&mut ranking.rows);
        Ok(ranking)
    }

    /// The rows of lines, in the order of the lines, and the lines that have none.
    fn in_turn(
        alloc: Global,
        lines: &'a [Option<CutLine<'a>>],
        rules: &Rules,
    ) -> Result<Ranking<'a>, AllocError>
        ensures { IfOk result (λ ranking. IsReadBy rules.now (rows_of lines.now)
            ranking.rows.items ranking.bad.items) }
    {
        let mut ranking = Ranking {
            rows: Vec::new(alloc),
            bad: Vec::new(alloc),
        };
        for (index, line) in lines.iter().enumerate() {
            ranking.add_if(index + 1, line, rules)?;
        }
        Ok(ranking)
    }

    /// Adds the row of the line of this number, or the line as a bad one, unless it is left out.
    fn add_if(
        &mut self,
        number: usize,
        line: &'a Option<CutLine<'a>>,
        rules: &Rules,
    ) -> Result<(), AllocError>
        ensures { OnOk result (Adds rules.now number (option_map as_line line.now)
            self.old self.new) }
    {
        match line {
            Some(line) => self.add(number, line, rules),
            None => Ok(()),
        }
    }

    /// Adds the row of the line of this number, or the line as a bad one.
    #[tactic(auto, using(crate::proofs::RankLemmas::reads_row, crate::proofs::RankLemmas::reads_bad))]
    fn add(&mut self, number: usize, line: &'a CutLine<'a>, rules: &Rules) -> Result<(), AllocError>
        ensures { OnOk result (Adds rules.now number (Some (as_line line.now)) self.old self.new) }
    {
        match row_of(number, line.bytes, line.searched.as_slice(), rules) {
            Ok(row) => self.rows.push(row)?,
            Err(reason) => self.bad.push(BadLine { number, reason })?,
        }
        Ok(())
    }
}

/// The row of the line of this number, whose vector is looked for in a text, or why it has none.
#[tactic(auto, using(crate::proofs::RankLemmas::row_by))]
fn row_of<'a>(
    number: usize,
    line: &'a [u8],
    searched: &'a [u8],
    rules: &Rules,
) -> Result<Row<'a>, Reason<'a>>
    ensures row { (overrides : List Override) → AreOwnMetrics overrides rules.now.own
        → IfOk result (IsRow rules.now.prefer overrides rules.now.scoring
        rules.now.allow_incomplete number
        (record { bytes = line.now; searched = searched.now })) }
    ensures to_ten { IfOk result IsToTen }
    ensures reason { (overrides : List Override) → AreOwnMetrics overrides rules.now.own
        → IfErr result (IsReason rules.now.prefer overrides rules.now.scoring
        rules.now.allow_incomplete searched.now) }
{
    let vector = rules.own.in_vector(chosen(searched, rules)?);
    match vector.missing_by(rules.allow_incomplete) {
        None => Ok(Row {
            number,
            line,
            vector,
            tenths: vector.tenths_as(rules.scoring),
        }),
        Some(metric) => Err(Reason::Rejected(ReadError::Invalid(Rejection::Missing(metric)))),
    }
}
