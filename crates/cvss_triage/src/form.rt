//! What inputs have.

/// What an input is cut into.
#[derive(Clone, Copy, Drop)]
pub enum Form {
    Lines,
    /// The records of a table in CSV (RFC 4180). The first record of an input may be its header.
    Records,
}
