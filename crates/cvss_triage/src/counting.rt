//! What `--count` prints.

ghost use Rattle.std.specs.Prelude.{◌≡◌, IfOk};
ghost use Rattle.cvss_report.specs.Tallies.{count_text};
ghost use Rattle.cvss_triage.specs.Counts.{tally_of, tally_of_rows, with_bad};

use crate::ranking::{BadLine, Ranking};
use crate::row::Row;
use cvss_report::{Gate, Tally, count_text};
use std::alloc::{AllocError, Global};

/// The numbers of rows that are shown, by their severities, and of lines without a row.
///
/// # Errors
///
/// Out of memory.
pub(crate) fn numbers_text(
    alloc: Global,
    gate: Gate,
    ranking: &Ranking<'_>,
) -> Result<Vec<u8>, AllocError>
    ensures { IfOk result (λ text. text.items ≡ count_text (tally_of gate ranking.now)) }
{
    let tally = with_bad(&ranking.bad, tally_of_rows(gate, &ranking.rows));
    Ok(count_text(alloc, tally)?.bytes)
}

/// How many of the rows that are shown there are of each severity.
#[tactic(auto, using(crate::proofs::CountLemmas::counted_row, crate::proofs::CountLemmas::passed_row))]
fn tally_of_rows(gate: Gate, rows: &[Row<'_>]) -> Tally
    ensures { result ≡ tally_of_rows gate rows.now }
{
    let mut tally = Tally::new();
    for row in rows {
        if gate.shows(row.tenths) {
            tally = tally.with(Some(row.vector.severity_of_tenths(row.tenths)));
        }
    }
    tally
}

/// The same, with the lines without a row counted as rejected.
#[tactic(auto, using(crate::proofs::CountLemmas::counted_bad))]
fn with_bad(bad: &[BadLine<'_>], counted: Tally) -> Tally
    ensures { result ≡ with_bad bad.now counted }
{
    let mut tally = counted;
    for _it in bad {
        tally = tally.with(None);
    }
    tally
}
