//! Vectors in links and in JSON, and the prefix before vectors that lack it.

ghost use Rattle.std.specs.Prelude.{◌≡◌, ◌++◌, [], ◌∷◌, IfOk, MatchOption, OnOk};
ghost use Rattle.cvss_matches.specs.Answers.{with_version};
ghost use Rattle.cvss_matches.specs.Decoding.{decoded};

use cvss_vector::Version;
use std::alloc::{AllocError, Global};

/// The text with `:` for `%3A`, and `/` for `%2F` and for a backslash and a slash, after the prefix of a
/// version if there is one.
#[tactic(auto, using(crate::proofs::DecodingLemmas::after_prefix))]
pub(crate) fn decoded_with(
    alloc: Global,
    version: Option<Version>,
    text: &[u8],
) -> Result<Vec<u8>, AllocError>
    ensures { IfOk result (λ bytes. bytes.items ≡ with_version version (decoded text.now)) }
{
    let mut bytes = Vec::new(alloc);
    bytes.extend_from_slice(prefix_of(version))?;
    push_decoded(text, &mut bytes)?;
    Ok(bytes)
}

/// Appends a text, decoded.
fn push_decoded(text: &[u8], bytes: &mut Vec<u8>) -> Result<(), AllocError>
    ensures { OnOk result (bytes.new.items ≡ bytes.old.items ++ decoded text.now) }
{
    let mut left = text;
    while let Some((byte, rest)) = next_byte(left) {
        bytes.push(byte)?;
        left = rest;
    }
    Ok(())
}

/// How vectors of a version begin.
fn prefix_of(version: Option<Version>) -> &'static [u8]
    ensures { result.now ≡ with_version version [] }
{
    match version {
        Some(Version::V30) => b"CVSS:3.0/",
        Some(Version::V31) => b"CVSS:3.1/",
        Some(Version::V40) => b"CVSS:4.0/",
        Some(Version::V20) | None => b"",
    }
}

/// The first byte of a text, decoded, and what is after it.
fn next_byte(text: &[u8]) -> Option<(u8, &[u8])>
    ensures { MatchOption result (decoded text.now ≡ [])
        (λ step. decoded text.now ≡ step.0 ∷ decoded step.1.now) }
{
    match text {
        [b'%', b'3', b'A' | b'a', rest @ ..] => Some((b':', rest)),
        [b'%', b'2', b'F' | b'f', rest @ ..] => Some((b'/', rest)),
        [b'\\', b'/', rest @ ..] => Some((b'/', rest)),
        [byte, rest @ ..] => Some((*byte, rest)),
        [] => None,
    }
}
