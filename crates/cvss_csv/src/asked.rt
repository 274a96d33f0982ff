//! What is asked of the records of a text.

use cvss_vector::Scoring;

/// Which cell of a record has its vector.
#[derive(Clone, Copy, Drop)]
pub enum Column<'a> {
    /// Any: the first vector that is found in one.
    AnyColumn,
    /// The one with this index, counted from 0, and its number as it is given.
    Index(usize, &'a [u8]),
    /// The one under the cell of the first record that has this value.
    Named(&'a [u8]),
}

/// The cells of a record that are searched.
#[derive(Clone, Copy, Drop)]
pub enum Cells {
    Any,
    /// The one with this index, counted from 0.
    At(usize),
}

/// How vectors are read and scored, and how records are written.
#[derive(Clone, Copy, Drop)]
pub struct Asked {
    pub scoring: Scoring,
    /// Whether vectors of CVSS v3 may lack base metrics.
    pub allow_incomplete: bool,
    /// Whether a cell has an apostrophe before its text where a spreadsheet would take it for a formula,
    /// since it begins with `=`, `+`, `-` or `@`.
    pub guarded: bool,
    /// Whether each vector of a record has a row of its own. A record without a vector is left out then.
    pub each: bool,
}
