//! Published scores as whole tenths, and how they are written.

ghost use Rattle.std.specs.Prelude.{◌≡◌, ◌*◌, ◌^◌, ◌≤◌, pos, decimal};
ghost use Rattle.cvss_base.specs.Tenths.{IsInTenths, IsFromZeroToTen, tenths_text};

const FIVE_TO_23: u64 = 11_920_928_955_078_125;

/// The tenths of a published score, of which it is the count of 10^-24.
pub fn tenths_of(score: i128) -> u8
    requires { IsInTenths IsFromZeroToTen score }
    ensures count { score ≡ pos (result * 10 ^ 23) }
    ensures bound { result ≤ 100 }
{
    // A tenth is 2^23 * 5^23 counts, so the division is one of 64 bits.
    ((score.unsigned_abs() >> 23) as u64 / FIVE_TO_23) as u8
}

/// Each number from 0 to 10 in decimal.
const DIGITS: [&str; 11] = ["0", "1", "2", "3", "4", "5", "6", "7", "8", "9", "10"];

/// A number from 0 to 10 in decimal.
pub fn digits(number: u8) -> &'static str
    requires { number ≤ 10 }
    ensures { result.now ≡ decimal number }
{
    let text = &DIGITS[number as usize];
    *text
}

/// The text of each number of tenths from 0 to 100, with one decimal.
const TEXTS: [&str; 101] = [
    "0.0", "0.1", "0.2", "0.3", "0.4", "0.5", "0.6", "0.7", "0.8", "0.9", "1.0", "1.1", "1.2",
    "1.3", "1.4", "1.5", "1.6", "1.7", "1.8", "1.9", "2.0", "2.1", "2.2", "2.3", "2.4", "2.5",
    "2.6", "2.7", "2.8", "2.9", "3.0", "3.1", "3.2", "3.3", "3.4", "3.5", "3.6", "3.7", "3.8",
    "3.9", "4.0", "4.1", "4.2", "4.3", "4.4", "4.5", "4.6", "4.7", "4.8", "4.9", "5.0", "5.1",
    "5.2", "5.3", "5.4", "5.5", "5.6", "5.7", "5.8", "5.9", "6.0", "6.1", "6.2", "6.3", "6.4",
    "6.5", "6.6", "6.7", "6.8", "6.9", "7.0", "7.1", "7.2", "7.3", "7.4", "7.5", "7.6", "7.7",
    "7.8", "7.9", "8.0", "8.1", "8.2", "8.3", "8.4", "8.5", "8.6", "8.7", "8.8", "8.9", "9.0",
    "9.1", "9.2", "9.3", "9.4", "9.5", "9.6", "9.7", "9.8", "9.9", "10.0",
];

/// The text of so many tenths, with one decimal.
pub fn text_of(tenths: u8) -> &'static str
    requires { tenths ≤ 100 }
    ensures { result.now ≡ tenths_text tenths }
{
    let text = &TEXTS[tenths as usize];
    *text
}
