//! The equations of both specifications in whole numbers of small units.

ghost use Rattle.std.specs.Prelude.{◌≡◌, ◌≤◌, ◌*◌, ◌/◌, ◌^◌, ◌≤ℤ◌, pos, neg_ℤ};
ghost use Rattle.cvss_base.specs.Exact.{ratio, ◌over◌, ◌⊗◌, ◌≈◌};
ghost use Rattle.cvss_score.specs.v3.Scores.{hundredths};
ghost use Rattle.cvss_score.specs.v3.private.SubScores.{IsSubScore};
ghost use Rattle.cvss_score.specs.v3.private.Units.{millionths_of, impact_units, total_units, ArePossible, IsImpact, IsNumber};

use crate::v3::power::{changed_impact, changed_modified_impact};
use crate::v3::rules::Exponent;

/// What the number is made of that a score is the rounding of: a sub-score in millionths, an
/// exploitability in 10^-10, and whether the scope is changed.
#[derive(Clone, Copy)]
pub struct Parts {
    pub sub_score: u64,
    pub exploitability: u64,
    pub changed: bool,
}

/// An impact times its requirement, cut to hundredths.
#[inline(always)]
pub fn weighted(requirement: u64, impact: u64) -> u64
    requires requirement { requirement ≤ 150 }
    requires impact { impact ≤ 56 }
    ensures value { result ≡ requirement * impact / 100 }
    ensures bound { result ≤ 84 }
{
    requirement * impact / 100
}

/// 1 - (1 - C) * (1 - I) * (1 - A) in millionths, of three weights in hundredths.
#[inline(always)]
pub fn sub_score(c: u64, i: u64, a: u64) -> u64
    requires c { c ≤ 100 }
    requires i { i ≤ 100 }
    requires a { a ≤ 100 }
    ensures value { result ≡ millionths_of c i a }
    ensures bound { result ≤ 1_000_000 }
{
    1_000_000 - (100 - c) * (100 - i) * (100 - a)
}

/// Exploitability in 10^-10, of four weights in hundredths.
#[inline(always)]
#[tactic(auto, using(crate::proofs::v3_lemmas::CountLemmas::four_bound))]
pub fn exploitability(av: u64, ac: u64, pr: u64, ui: u64) -> u64
    requires av { av ≤ 100 }
    requires ac { ac ≤ 100 }
    requires pr { pr ≤ 100 }
    requires ui { ui ≤ 100 }
    ensures value { result ≡ 822 * av * ac * pr * ui }
    ensures bound { result ≤ 822 * 10 ^ 8 }
{
    822 * av * ac * pr * ui
}

/// So many tenths times three weights in hundredths, in 10^-7.
#[inline(always)]
pub fn temporal(tenths: u64, e: u64, rl: u64, rc: u64) -> u64
    requires tenths { tenths ≤ 100 }
    requires e { e ≤ 100 }
    requires rl { rl ≤ 100 }
    requires rc { rc ≤ 100 }
    ensures value { result over (10 ^ 7)
        ≈ ratio (pos tenths) 10 ⊗ hundredths e ⊗ hundredths rl ⊗ hundredths rc }
    ensures to_ten { result ≤ 10 ^ 8 }
{
    tenths * (e * rl * rc)
}

/// Impact or Modified Impact in 10^-11, of a sub-score in millionths that is not 0.
#[inline(always)]
fn impact(sub_score: u64, changed: bool, exponent: Exponent) -> u64
    requires { IsSubScore sub_score }
    ensures value { result ≡ impact_units exponent changed sub_score }
    ensures bound { result ≤ 10 ^ 12 }
{
    match (changed, exponent) {
        (false, _) => 642_000 * sub_score,
        (true, Exponent::Fifteen) => changed_impact(sub_score),
        (true, Exponent::Thirteen) => changed_modified_impact(sub_score),
    }
}

impl Parts {
    /// Impact or Modified Impact in 10^-11. Without a sub-score it is below 0 where the scope is changed.
    pub fn signed_impact(self, exponent: Exponent) -> i64
        requires { ArePossible self }
        ensures value { IsImpact exponent self result }
        ensures low { neg_ℤ (pos (10 ^ 12)) ≤ℤ result }
        ensures high { result ≤ℤ pos (10 ^ 12) }
    {
        match self.sub_score {
            0 if self.changed => WITHOUT_IMPACT,
            0 => 0,
            sub_score => impact(sub_score, self.changed, exponent) as i64,
        }
    }
}

/// 7.52 * (0 - 0.029) in 10^-11, whose power is nearer to 0 than that.
const WITHOUT_IMPACT: i64 = -21_808_000_000;

/// What a score is the rounding of, in 10^-13.
#[inline(always)]
pub fn first_number(parts: Parts, exponent: Exponent) -> u64
    requires possible { ArePossible parts }
    requires exploitability { parts.exploitability ≤ 822 * 10 ^ 8 }
    ensures value { IsNumber exponent parts result }
    ensures to_ten { result ≤ 10 ^ 14 }
{
    if parts.sub_score == 0 {
        return 0;
    }
    let impact = impact(parts.sub_score, parts.changed, exponent);
    total(impact, parts.exploitability, parts.changed)
}

/// What a score is the rounding of, in 10^-13: of an impact in 10^-11 and an exploitability in
/// 10^-10.
#[inline(always)]
fn total(impact: u64, exploitability: u64, changed: bool) -> u64
    requires impact { impact ≤ 10 ^ 12 }
    requires exploitability { exploitability ≤ 822 * 10 ^ 8 }
    ensures value { result ≡ total_units changed impact exploitability }
    ensures to_ten { result ≤ 10 ^ 14 }
{
    let total = impact + 10 * exploitability;
    if changed {
        (108 * total).min(100_000_000_000_000)
    } else {
        (100 * total).min(100_000_000_000_000)
    }
}
