//! Numbers of scores: an `i128` counts 10^-24 of a score point.

/// One score point.
pub const ONE: i128 = 1_000_000_000_000_000_000_000_000;

/// A tenth of a score point, the step of published scores.
pub const TENTH: i128 = 100_000_000_000_000_000_000_000;

/// A million score points. Calls that round ask for a count from `-LIMIT` to `LIMIT`.
pub const LIMIT: i128 = 1_000_000_000_000_000_000_000_000_000_000;
