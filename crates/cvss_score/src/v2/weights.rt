//! What a score is computed of.

/// The weights of a vector's metrics in thousandths, by their short names (guide, section 3.2). An
/// absent base metric weighs 0, any other absent one as `ND`.
#[derive(Clone, Copy)]
pub struct Weights {
    pub av: u64,
    pub ac: u64,
    pub au: u64,
    pub c: u64,
    pub i: u64,
    pub a: u64,
    pub e: u64,
    pub rl: u64,
    pub rc: u64,
    pub cdp: u64,
    pub td: u64,
    pub cr: u64,
    pub ir: u64,
    pub ar: u64,
}
