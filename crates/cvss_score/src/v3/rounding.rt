//! The roundings of v3.0 (section 8.1) and v3.1 (Appendix A) to tenths, and whether the scores' numbers
//! lie far from where these jump.

ghost use Rattle.std.specs.Prelude.{◌≤◌, ◌^◌, ℕ, pos, neg_ℤ, ◌≤ℤ◌, IsTrue};
ghost use Rattle.cvss_base.specs.Exact.{◌over◌, of_count, whole, ◌⊏◌, IsWithinLimit};
ghost use Rattle.cvss_score.specs.v3.Certainty.{IsCertain};
ghost use Rattle.cvss_score.specs.v3.Scores.{IsRoundedBy, impact, modified_impact, base_number, environmental_number};
ghost use Rattle.cvss_score.specs.declared.v3.weights.Weights.{Weights};
ghost use Rattle.cvss_score.specs.v3.Bounds.{AreOfTables};

use crate::v3::rules::Rules;
use cvss_base::TENTH;

/// No number that weights of the tables give to a rounding lies within 10^-6 of a jump of that
/// rounding.
const FAR_FROM_A_JUMP: bool = true;

/// The rounding of a number of 10^-13 that is at most 10.
#[tactic(auto, using(crate::proofs::v3_lemmas::RoundLemmas::rounded_v31))]
pub fn round_tenths(number: u64, rules: Rules) -> u64
    requires { number ≤ 10 ^ 14 }
    ensures value { IsRoundedBy rules (number over (10 ^ 13)) (pos result) }
    ensures to_ten { result ≤ 100 }
{
    match rules {
        Rules::V30 => (number + 999_999_999_999) / 1_000_000_000_000,
        // The rounding jumps 5 * 10^-6 above each tenth.
        Rules::V31 => (number + 999_950_000_000) / 1_000_000_000_000,
    }
}

/// The rounding of a count of 10^-24, in tenths.
pub fn round_count(count: i128, rules: Rules) -> i128
    requires { IsWithinLimit count }
    ensures value { IsRoundedBy rules (of_count count) result }
    ensures low { neg_ℤ (pos (10 ^ 7)) ≤ℤ result }
    ensures high { result ≤ℤ pos (10 ^ 7) }
{
    match rules {
        Rules::V30 if count <= 0 => count / TENTH,
        Rules::V30 => (count + 99_999_999_999_999_999_999_999) / TENTH,
        Rules::V31 if count <= 0 => 0,
        Rules::V31 => (count + 99_995_000_000_000_000_000_000) / TENTH,
    }
}

/// Whether, with impact, an error of 10^-6 in the number that the base score or, with modified
/// impact, the environmental score is first the rounding of leaves that rounding as it is, as long
/// as the number stays at most 10: it always does (v3.1 specification, Appendix A, on numbers that
/// are computed in floating point).
pub fn is_certain() -> bool
    ensures always { IsTrue result }
    ensures base { IsTrue result → (minor : ℕ) → (w : Weights) → AreOfTables w
        → whole 0 ⊏ impact w → IsCertain minor (base_number w) }
    ensures environmental { IsTrue result → (minor : ℕ) → (w : Weights) → AreOfTables w
        → whole 0 ⊏ modified_impact minor w → IsCertain minor (environmental_number minor w) }
{
    FAR_FROM_A_JUMP
}
