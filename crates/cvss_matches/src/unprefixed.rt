//! Vectors without a prefix: of v3 and v4.0, where it is missing, and encoded ones of v2.

ghost use Rattle.std.specs.Prelude.{◌≡◌};
ghost use Rattle.cvss_matches.specs.Parts.{begins_like_any, begins_metrics, encoded_metrics_of_v2, has_like_any, is_encoded_v2, lacks_prefix, metrics_after_v2, slashes};
ghost use Rattle.cvss_matches.specs.private.Sought.{patterns_of};

use crate::prefix::begins_like;

/// What is sought in a text.
#[derive(Clone, Copy, Drop)]
pub(crate) enum Sought {
    /// A slash, percent-encoded or not.
    Slash,
    /// A metric after a slash that vectors of v3 and v4.0 have and those of v2 have not.
    MetricAfterV2,
    /// The metric Au of v2 after a slash, of which the colon or the slash is percent-encoded or the slash is
    /// after a backslash.
    EncodedMetricOfV2,
}

/// Whether a text begins as a vector of v3 or v4.0 without its prefix.
pub(crate) fn lacks_prefix(text: &[u8]) -> bool
    ensures { result ≡ lacks_prefix text.now }
{
    begins_metrics(text) && has_sought(Sought::MetricAfterV2, text)
}

/// Whether a text begins as an encoded vector of v2.
pub(crate) fn is_encoded_v2(text: &[u8]) -> bool
    ensures { result ≡ is_encoded_v2 text.now }
{
    begins_metrics(text) && has_sought(Sought::EncodedMetricOfV2, text)
}

/// Whether a text begins with the metric AV.
pub(crate) fn begins_metrics(text: &[u8]) -> bool
    ensures { result ≡ begins_metrics text.now }
{
    begins_like(b"AV:", text) || begins_like(b"AV%3A", text)
}

/// Whether what is sought is somewhere in a text.
pub(crate) fn has_sought(sought: Sought, text: &[u8]) -> bool
    ensures { result ≡ has_like_any (patterns_of sought) text.now }
{
    let mut left = text;
    while let Some((_, rest)) = left.split_first() {
        if begins_sought(sought, left) {
            return true;
        }
        left = rest;
    }
    false
}

/// Whether a text begins with what is sought.
fn begins_sought(sought: Sought, text: &[u8]) -> bool
    ensures { result ≡ begins_like_any (patterns_of sought) text.now }
{
    match sought {
        Sought::Slash => begins_slash(text),
        Sought::MetricAfterV2 => begins_metric_after_v2(text),
        Sought::EncodedMetricOfV2 => begins_encoded_metric_of_v2(text),
    }
}

/// Whether a text begins with a slash, percent-encoded or not.
#[inline(always)]
fn begins_slash(text: &[u8]) -> bool
    ensures { result ≡ begins_like_any slashes text.now }
{
    matches!(text, [b'/', ..] | [b'%', b'2', b'F' | b'f', ..])
}

/// Whether a text begins with a slash and a metric that vectors of v2 do not have.
fn begins_metric_after_v2(text: &[u8]) -> bool
    ensures { result ≡ begins_like_any metrics_after_v2 text.now }
{
    match text {
        [b'/', ..] => {
            begins_like(b"/PR:", text)
                || begins_like(b"/UI:", text)
                || begins_like(b"/PR%3A", text)
                || begins_like(b"/UI%3A", text)
        }
        [b'%', ..] => {
            begins_like(b"%2FPR:", text)
                || begins_like(b"%2FUI:", text)
                || begins_like(b"%2FPR%3A", text)
                || begins_like(b"%2FUI%3A", text)
        }
        _ => false,
    }
}

/// Whether a text begins with a slash and the metric Au of v2, of which one is encoded.
fn begins_encoded_metric_of_v2(text: &[u8]) -> bool
    ensures { result ≡ begins_like_any encoded_metrics_of_v2 text.now }
{
    match text {
        [b'/', ..] => begins_like(b"/AU%3A", text),
        [b'%', ..] => begins_like(b"%2FAU:", text) || begins_like(b"%2FAU%3A", text),
        [b'\\', ..] => begins_like(b"\\/AU:", text),
        _ => false,
    }
}
