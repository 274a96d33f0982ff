//! Callers that are proved from the contracts of the score and of the laws alone.

ghost use Rattle.std.specs.Prelude.{◌≡◌, ◌≤◌, pos};
ghost use Rattle.cvss_base.specs.Exact.{◌over◌, ◌⊕◌};
ghost use Rattle.cvss_base.specs.Rounding.{IsRoundedV4};
ghost use Rattle.cvss_score.specs.v4.AsSevere.{IsAsSevere};
ghost use Rattle.cvss_score.specs.v4.Scores.{number};

use super::samples::{HARMLESS, LEAST, WORST};
use cvss_laws::v4::{a_millionth_changes_no_score, scores_are_unique, severe_values_score_no_less};
use cvss_score::v4::scoring::effective::Effective;
use cvss_score::v4::scoring::score_tenths;

/// The score, taken twice.
fn taken_twice(effective: &Effective) -> (u8, u8)
    ensures { result.0 ≡ result.1 }
{
    scores_are_unique();
    (score_tenths(effective), score_tenths(effective))
}

/// The scores of values of one class, the first of which are as severe.
fn scores_in_order(severe: &Effective, mild: &Effective) -> (u8, u8)
    requires { IsAsSevere severe.now mild.now }
    ensures { result.1 ≤ result.0 }
{
    severe_values_score_no_less();
    (score_tenths(severe), score_tenths(mild))
}

/// The score as calculators in binary numbers round it.
fn lifted_score(effective: &Effective) -> u8
    ensures { IsRoundedV4 (number effective.now ⊕ 1 over 1_000_000) (pos result) }
{
    a_millionth_changes_no_score();
    score_tenths(effective)
}

#[test]
fn callers_agree(rt: HostRuntime) {
    let (first, second) = taken_twice(&WORST);
    assert!(rt; first == second);
    let (severe, mild) = scores_in_order(&WORST, &WORST);
    assert!(rt; severe == mild);
    assert!(rt; lifted_score(&LEAST) == 1);
    assert!(rt; lifted_score(&HARMLESS) == 0);
}
