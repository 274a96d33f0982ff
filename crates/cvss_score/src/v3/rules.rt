//! What the minor versions score otherwise, of which the definitions of the scores speak too.

ghost use Rattle.std.specs.Prelude.{◌≡◌};
ghost use Rattle.cvss_score.specs.v3.Scores.{rules_of, modified_exponent};

/// By the rounding of which specification a vector is scored.
#[derive(Clone, Copy)]
pub enum Rules {
    V30,
    V31,
}

impl Rules {
    /// Minor version 0 is scored by the v3.0 specification, any other by the v3.1 specification.
    #[inline(always)]
    pub fn of(minor_version: usize) -> Rules
        ensures { result ≡ rules_of minor_version }
    {
        match minor_version {
            0 => Rules::V30,
            _ => Rules::V31,
        }
    }
}

/// The exponent in an impact whose scope is changed: 15 in Impact (v3.1 specification, section 7.1),
/// and in Modified Impact of v3.0 (section 8.3); 13 in that of v3.1 (section 7.3).
#[derive(Clone, Copy)]
pub enum Exponent {
    Fifteen,
    Thirteen,
}

impl Exponent {
    /// The exponent in the Modified Impact of a minor version.
    #[inline(always)]
    pub fn modified(minor_version: usize) -> Exponent
        ensures { result ≡ modified_exponent minor_version }
    {
        match minor_version {
            0 => Exponent::Fifteen,
            _ => Exponent::Thirteen,
        }
    }
}
