//! Numbers in ten-millionths.

ghost use Rattle.std.specs.Prelude.{◌≡◌, ◌<◌, pos};
ghost use Rattle.cvss_explain.specs.Decimal.{nearest_to};
ghost use Rattle.cvss_explain.specs.Near.{AreNearest};
ghost use Rattle.cvss_base.specs.Exact.{IsWithinLimit};

use cvss_base::LIMIT;

/// A ten-millionth, in counts of 10^-24.
const TEN_MILLIONTH: i128 = 100_000_000_000_000_000;

/// The highest count of 10^-24 that is printed, in ten-millionths.
const HIGHEST: i64 = 10_000_000_000_000;

/// The ten-millionths that are nearest to so many parts of a point, of two the larger.
pub fn of_parts(count: u32, parts: u32) -> i64
    requires { 0 < parts }
    ensures { result ≡ pos (nearest_to count parts) }
{
    let (count, parts) = (u64::from(count), u64::from(parts));
    ((count * 20_000_000 + parts) / (2 * parts)) as i64
}

/// The ten-millionths that are nearest to a count of 10^-24, of two the larger.
// Some fifty calls would each repeat its division, an eighth of the module of WebAssembly.
#[inline(never)]
pub fn ten_millionths(count: i128) -> i64
    requires { IsWithinLimit count }
    ensures { AreNearest count result }
{
    ((count + LIMIT + TEN_MILLIONTH / 2) / TEN_MILLIONTH) as i64 - HIGHEST
}
