//! The impact with the scope changed, where there is some; its power is cut to nine decimals. The cut
//! never changes a rounded score.

ghost use Rattle.std.specs.Prelude.{◌≡◌, ◌≤◌, ◌*◌, ◌/◌, ◌^◌};
ghost use Rattle.cvss_score.specs.v3.private.SubScores.{IsSubScore};
ghost use Rattle.cvss_score.specs.v3.private.Units.{changed_units, changed_modified_units};

/// 7.52 * (ISS - 0.029) - 3.25 * (ISS - 0.02)^15 in 10^-11, of an ISS in millionths.
#[tactic(auto, unfolding(crate::specs::v3::private::Units::changed_units))]
pub fn changed_impact(iss: u64) -> u64
    requires { IsSubScore iss }
    ensures value { result ≡ changed_units iss }
    ensures bound { result ≤ 10 ^ 12 }
{
    let base = (iss - 20_000) * 1000;
    let cube = product(product(base, base), base);
    let sixth = product(cube, cube);
    let fifteenth = product(product(sixth, sixth), cube);
    752_000 * (iss - 29_000) - 325 * fifteenth
}

/// 7.52 * (MISS - 0.029) - 3.25 * (MISS * 0.9731 - 0.02)^13 in 10^-11, of a MISS in millionths.
#[tactic(auto, unfolding(crate::specs::v3::private::Units::changed_modified_units))]
pub fn changed_modified_impact(miss: u64) -> u64
    requires { IsSubScore miss }
    ensures value { result ≡ changed_modified_units miss }
    ensures bound { result ≤ 10 ^ 12 }
{
    let base = miss * 9731 / 10 - 20_000_000;
    let cube = product(product(base, base), base);
    let sixth = product(cube, cube);
    let thirteenth = product(product(sixth, sixth), base);
    752_000 * (miss - 29_000) - 325 * thirteenth
}

/// The product of two numbers in nine decimals, cut to nine decimals.
fn product(first: u64, second: u64) -> u64
    requires first { first ≤ 10 ^ 9 }
    requires second { second ≤ 10 ^ 9 }
    ensures value { result ≡ first * second / 10 ^ 9 }
    ensures bound { result ≤ second }
{
    first * second / 1_000_000_000
}
