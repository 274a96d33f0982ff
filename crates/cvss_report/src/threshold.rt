//! The score from which on vectors count, as a reader writes it.

ghost use Rattle.std.specs.Prelude.{◌≡◌, ◌↔◌, IsTrue, map};
ghost use Rattle.std.specs.Char.{to_ascii_lowercase};
ghost use Rattle.cvss_report.specs.Thresholds.{below_ten, by_digits, lowest_of, number_of, threshold};

/// The tenths, from 0 to 100, that a text says: a number from 0 to 10 with one decimal or none, as `7`,
/// `7.0` and `9.5`, or the name of a severity in any ASCII case, which is its lowest score in CVSS v3 and
/// v4.0, whatever the version of a vector.
pub fn threshold_of(text: &[u8]) -> Option<u8>
    ensures { result ≡ threshold text.now }
{
    match number_of(text) {
        Some(tenths) => Some(tenths),
        None => lowest_of(text),
    }
}

/// The tenths of a number from 0 to 10 with at most one decimal.
fn number_of(text: &[u8]) -> Option<u8>
    ensures { result ≡ number_of text.now }
{
    if text == b"10".as_slice() {
        Some(100)
    } else if text == b"10.0".as_slice() {
        Some(100)
    } else {
        below_ten(text)
    }
}

fn below_ten(text: &[u8]) -> Option<u8>
    ensures { result ≡ below_ten text.now }
{
    match text {
        [whole] => by_digits(*whole, b'0'),
        [whole, point, tenth] => {
            if *point == b'.' {
                by_digits(*whole, *tenth)
            } else {
                None
            }
        }
        _ => None,
    }
}

/// The tenths of a number by its digits before and after the point.
fn by_digits(whole: u8, tenth: u8) -> Option<u8>
    ensures { result ≡ by_digits whole tenth }
{
    if whole.is_ascii_digit() && tenth.is_ascii_digit() {
        Some(10 * (whole - b'0') + (tenth - b'0'))
    } else {
        None
    }
}

/// The lowest tenths of the severity with this name, in any ASCII case.
fn lowest_of(text: &[u8]) -> Option<u8>
    ensures { result ≡ lowest_of (map to_ascii_lowercase text.now) }
{
    if is_named(text, b"none") {
        Some(0)
    } else if is_named(text, b"low") {
        Some(1)
    } else if is_named(text, b"medium") {
        Some(40)
    } else if is_named(text, b"high") {
        Some(70)
    } else if is_named(text, b"critical") {
        Some(90)
    } else {
        None
    }
}

/// Whether a text is a name in lower case, in any ASCII case.
fn is_named(text: &[u8], name: &[u8]) -> bool
    requires { map to_ascii_lowercase name.now ≡ name.now }
    ensures { IsTrue result ↔ (map to_ascii_lowercase text.now ≡ name.now) }
{
    text.eq_ignore_ascii_case(name)
}
