//! The numbers of scores.

ghost use Rattle.std.specs.Prelude.{◌≡◌};
ghost use Rattle.cvss_audit.specs.Scores.{minus_two_tenths, score_number, score_value};
ghost use Rattle.serde_json.specs.View.{view};

use serde_json::Value;

/// The number of a score of so many tenths: the double that is nearest to it.
pub fn score_number(tenths: u8) -> f64
    ensures { result ≡ score_number tenths }
{
    tenths as f64 / 10.0
}

/// The number -0.2.
pub fn minus_two_tenths() -> f64
    ensures { result ≡ minus_two_tenths }
{
    -2_i32 as f64 / 10.0
}

/// The value of a score of so many tenths, as a record has it.
pub fn score_value(tenths: u8) -> Value
    ensures { view result ≡ score_value tenths }
{
    Value::from(score_number(tenths))
}
