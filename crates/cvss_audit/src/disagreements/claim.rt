//! What a member is to say, and what is expected of its value.

ghost use Rattle.std.specs.Prelude.{◌≡◌, false, option_map, unwrap_or};
ghost use Rattle.cvss_audit.specs.Differences.{begins_with_digit, claim_view, expected_by, expected_number, is_numeric};
ghost use Rattle.cvss_report.specs.Record.{expected_view};
ghost use Rattle.serde_json.specs.Find.{as_str};
ghost use Rattle.serde_json.specs.View.{view};

use crate::expected::scores::minus_two_tenths;
use cvss_report::Expected;
use serde_json::Value;

/// What a member is to say.
#[derive(Clone, Copy)]
pub(crate) enum Claim {
    /// So many tenths, if it is a number or a string that is written as one.
    Number(u8),
    /// The same of an impact, which may be 0 or -0.2 where it is below 0.
    Impact(u8, bool),
    /// This text.
    Text(&'static str),
    /// This severity, unless it is `unknown`.
    Severity(&'static str),
}

/// What is expected of a value by a claim, if anything is.
pub(crate) fn expected_by(claim: Claim, said: &Value) -> Option<Expected>
    ensures { option_map expected_view result ≡ expected_by (claim_view claim) (view said.now) }
{
    match claim {
        Claim::Number(tenths) => expected_number(tenths, said),
        Claim::Impact(tenths, is_below_zero) => {
            if is_below_zero && said.as_f64() == Some(minus_two_tenths()) {
                None
            } else {
                expected_number(tenths, said)
            }
        }
        Claim::Text(text) => Some(Expected::Text(text)),
        Claim::Severity(text) => {
            if said.as_str() == Some("unknown") {
                None
            } else {
                Some(Expected::Text(text))
            }
        }
    }
}

/// So many tenths, if a value is a number or a string that is written as one.
fn expected_number(tenths: u8, said: &Value) -> Option<Expected>
    ensures { option_map expected_view result ≡ expected_number tenths (view said.now) }
{
    if is_numeric(said) {
        Some(Expected::Score(tenths))
    } else {
        None
    }
}

/// Whether a value is a number, or a string that is written as one.
fn is_numeric(said: &Value) -> bool
    ensures { result ≡ is_numeric (view said.now) }
{
    said.is_number() || is_number_text(said)
}

fn is_number_text(said: &Value) -> bool
    ensures { result ≡ unwrap_or (option_map begins_with_digit (as_str (view said.now))) false }
{
    match said.as_str() {
        Some(text) => begins_with_digit(text.as_bytes()),
        None => false,
    }
}

fn begins_with_digit(text: &[u8]) -> bool
    ensures { result ≡ begins_with_digit text.now }
{
    match text {
        [first, ..] => first.is_ascii_digit(),
        [] => false,
    }
}
