//! What is ranked of a line.

ghost use Rattle.std.specs.Prelude.{pos};

use cvss_score::ranking::Ranked;
use cvss_vector::Cvss;

/// A line, and its vector after the overrides.
#[derive(Drop)]
pub(crate) struct Row<'a> {
    /// The line's number among those of all inputs, counted from 1.
    pub(crate) number: usize,
    pub(crate) line: &'a [u8],
    pub(crate) vector: Cvss,
    /// The tenths of the vector's score, from 0 to 100.
    pub(crate) tenths: u8,
}

impl Ranked for Row<'_> {
    ghost score = { λ row. pos row.tenths };

    ghost text = { λ row. row.line.now };

    fn score(&self) -> i128 {
        i128::from(self.tenths)
    }

    fn text(&self) -> &[u8] {
        self.line
    }
}
