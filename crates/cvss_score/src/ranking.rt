//! The order of rows by their scores.

ghost use Rattle.std.specs.Prelude.{◌≡◌, ℕ, ℤ, List, IsPermutation, IsSorted};
ghost use Rattle.cvss_score.specs.Ranking.{rank_order};

use std::cmp::Ordering;

/// A row that has a score and a text.
pub trait Ranked {
    ghost score: { Self → ℤ };

    ghost text: { Self → List ℕ };

    /// The row's score. All rows of a list count it in one unit.
    fn score(&self) -> i128
        ensures { result ≡ score self.now };

    /// The bytes of the row's text.
    fn text(&self) -> &[u8]
        ensures { result.now ≡ text self.now };
}

/// Sorts rows by falling score, and those of one score by the bytes of their texts.
pub fn rank<R: Ranked>(rows: &mut Vec<R>)
    ensures permutation { IsPermutation rows.old.items rows.new.items }
    ensures sorted { IsSorted (rank_order R.score R.text) rows.new.items }
{
    rows.sort_unstable_by(|row, other| compare(row, other));
}

/// Whether a row is before another, after it, or neither.
fn compare<R: Ranked>(row: &R, other: &R) -> Ordering
    ensures { result ≡ rank_order R.score R.text row.now other.now }
{
    match other.score().cmp(&row.score()) {
        Ordering::Equal => row.text().cmp(other.text()),
        unequal => unequal,
    }
}
