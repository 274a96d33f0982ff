//! How a score is printed.

ghost use Rattle.std.specs.Prelude.{◌≡◌, Some};
ghost use Rattle.cvss_base.specs.Tenths.{even_tenths, sign, score_text};

use crate::number::TENTH;
use std::fmt;

/// A count of 10^-24 that is printed with one decimal.
#[derive(Clone, Copy, Debug, PartialEq, Eq)]
pub struct OneDecimal {
    /// The count.
    pub count: i128,
}

impl fmt::Display for OneDecimal {
    ghost output = { λ number. Some (score_text number.count) };

    fn fmt<W: fmt::Write>(&self, f: &mut fmt::Formatter<W>) -> fmt::Result {
        let tenths = nearest_tenths(self.count.unsigned_abs());
        write!(f, "{}{}.{}", sign_of(self.count), tenths / 10, tenths % 10)
    }
}

/// Half of a tenth in 10^-24.
const HALF_TENTH: u128 = TENTH as u128 / 2;

/// The tenths nearest to so many of 10^-24, of two equally near the even one.
fn nearest_tenths(count: u128) -> u128
    ensures { result ≡ even_tenths count }
{
    let tenths = count / (2 * HALF_TENTH);
    let rest = count % (2 * HALF_TENTH);
    if rest < HALF_TENTH {
        tenths
    } else if rest > HALF_TENTH {
        tenths + 1
    } else {
        tenths + tenths % 2
    }
}

/// The sign before a value.
fn sign_of(value: i128) -> &'static str
    ensures { result.now ≡ sign value }
{
    if value < 0 { "-" } else { "" }
}
