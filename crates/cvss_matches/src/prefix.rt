//! How vectors begin, and labels before them.

ghost use Rattle.std.specs.Prelude.{◌≡◌, Option};
ghost use Rattle.cvss_matches.specs.Parts.{begins_exactly, begins_like, begins_loosely, begins_with_prefix, ends_label, is_like, label_length};

/// Whether the bytes begin with the prefix of a vector, as it should be written or loosely.
pub(crate) fn begins_with_prefix(text: &[u8]) -> bool
    ensures { result ≡ begins_with_prefix text.now }
{
    begins_exactly(text) || begins_loosely(text)
}

/// Whether the bytes begin with `CVSS:`.
#[inline(always)]
pub(crate) fn begins_exactly(text: &[u8]) -> bool
    ensures { result ≡ begins_exactly text.now }
{
    text.starts_with(b"CVSS:")
}

/// Whether the bytes begin as a vector whose prefix is written in another case, without its colon or
/// with a `v`, or that is percent-encoded, or that is written as it should be.
pub(crate) fn begins_loosely(text: &[u8]) -> bool
    ensures { result ≡ begins_loosely text.now }
{
    begins_like(b"CVSS", text)
        && (begins_like(b"CVSS:0.0/AV:", text)
            || begins_like(b"CVSS0.0/AV:", text)
            || begins_like(b"CVSSV0.0/AV:", text)
            || begins_like(b"CVSS:0.0%2FAV:", text)
            || begins_like(b"CVSS:0.0%2FAV%3A", text)
            || begins_like(b"CVSS%3A0.0/AV:", text)
            || begins_like(b"CVSS%3A0.0/AV%3A", text)
            || begins_like(b"CVSS%3A0.0%2FAV:", text)
            || begins_like(b"CVSS%3A0.0%2FAV%3A", text))
}

/// Whether the bytes begin with bytes as those of a pattern.
pub(crate) fn begins_like(pattern: &[u8], text: &[u8]) -> bool
    ensures { result ≡ begins_like pattern.now text.now }
{
    let (mut wanted, mut left) = (pattern, text);
    while let Some((first, more)) = wanted.split_first() {
        let Some((byte, after)) = left.split_first() else {
            return false;
        };
        if !is_like(*first, *byte) {
            return false;
        }
        wanted = more;
        left = after;
    }
    true
}

/// Whether a byte is as a pattern's: any digit for `0`, a letter in either case for a capital, and
/// else the same byte.
fn is_like(pattern: u8, byte: u8) -> bool
    ensures { result ≡ is_like pattern byte }
{
    if pattern == b'0' {
        byte.is_ascii_digit()
    } else {
        byte.to_ascii_uppercase() == pattern
    }
}

/// How long the label is before the first `AV:` that has one, as in `vector:AV:N` and `7.5/AV:N`.
pub(crate) fn label_length(text: &[u8]) -> Option<usize>
    ensures { result ≡ label_length text.now }
{
    let mut left = text;
    while let [byte, next, rest @ ..] = left {
        if ends_label(*byte, *next) && rest.starts_with(b"AV:") {
            return Some(text.len() - rest.len());
        }
        left = &left[1..];
    }
    None
}

/// Whether two bytes end a label before a vector of CVSS v2.
fn ends_label(before: u8, last: u8) -> bool
    ensures { result ≡ ends_label before last }
{
    last == b':' || before.is_ascii_digit() && last == b'/'
}
