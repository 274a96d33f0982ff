//! Laws of roundings and constants, each the contract of a function that does nothing. A proof that needs a law
//! calls it.

ghost use Rattle.std.specs.Prelude.{◌≡◌, ◌^◌, codes, pos};
ghost use Rattle.cvss_base.specs.Rounding.{IsRoundedV2, IsRoundedV30, IsRoundedV31, IsRoundedV4};
ghost use Rattle.cvss_base.specs.laws.Rounding.{RoundsOneWay, IsNearestEven};

use cvss_base::{LIMIT, ONE, PREFIX, TENTH};

/// Equal numbers have at most one rounding of each kind.
pub fn roundings_are_unique()
    ensures v2 { RoundsOneWay IsRoundedV2 }
    ensures v30 { RoundsOneWay IsRoundedV30 }
    ensures v31 { RoundsOneWay IsRoundedV31 }
    ensures v4 { RoundsOneWay IsRoundedV4 }
    ensures printing { RoundsOneWay IsNearestEven }
{}

/// The constants are what their documentation says.
pub fn constants_are_as_documented()
    ensures prefix { PREFIX.now ≡ codes "CVSS" }
    ensures one { ONE ≡ pos (10 ^ 24) }
    ensures tenth { TENTH ≡ pos (10 ^ 23) }
    ensures limit { LIMIT ≡ pos (10 ^ 30) }
{}
