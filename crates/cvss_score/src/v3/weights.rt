//! What a score is computed of.

/// The weights of a vector's metrics in hundredths, by their short names (v3.0 specification,
/// section 8.4; v3.1 specification, section 7.4). An absent base metric weighs 0. A modified metric
/// that is absent or not defined weighs as its base metric.
#[derive(Clone, Copy)]
pub struct Weights {
    pub av: u64,
    pub ac: u64,
    /// By the scope.
    pub pr: u64,
    pub ui: u64,
    /// Whether the scope is changed.
    pub changed: bool,
    pub c: u64,
    pub i: u64,
    pub a: u64,
    pub e: u64,
    pub rl: u64,
    pub rc: u64,
    pub cr: u64,
    pub ir: u64,
    pub ar: u64,
    pub mav: u64,
    pub mac: u64,
    /// By the modified scope.
    pub mpr: u64,
    pub mui: u64,
    /// Whether the modified scope is changed.
    pub modified_changed: bool,
    pub mc: u64,
    pub mi: u64,
    pub ma: u64,
}
