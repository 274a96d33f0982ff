//! Converters between JSON values and texts, which lose nothing.

ghost use Rattle.std.specs.Prelude.{◌≡◌, ◌⊎◌, IfOk, IfErr, Ok, Err, string_bytes};
ghost use Rattle.cvss.specs.Answers.{text_of};
ghost use Rattle.cvss.specs.Dispatch.{DenotesCvss};
ghost use Rattle.cvss.specs.Json.{StandsFor};
ghost use Rattle.cvss.specs.laws.GivenBack.{IsGivenBack};
ghost use Rattle.cvss.specs.declared.json.JsonError.TheVariants.{OutOfMemory};
ghost use Rattle.cvss.specs.CvssType.{Cvss};
ghost use Rattle.cvss_examples.specs.Conversions.{IsCanonicalText, IsTextOf, IsValueOf, ReportsNoText, ReportsNoValue};
ghost use Rattle.serde_json.specs.View.{view};

use cvss::json::{JsonError, JsonText};
use cvss::{Cvss, laws};
use serde_json::Value;
use std::alloc::Global;

/// The JSON value of a text's vector.
pub fn value_of(alloc: Global, text: &str) -> Result<Value, JsonError>
    ensures value { IfOk result (λ value. IsValueOf text.now (view value)) }
    // Rejected: for the first reason, and no vector's text for another than out of memory.
    ensures rejected { IfErr result (ReportsNoText text.now) }
    ensures accepts { (cvss : Cvss) → DenotesCvss text.now cvss
        → IfErr result (λ error. error ≡ OutOfMemory) }
{
    Cvss::from_str(alloc, text)?.to_value(alloc)
}

/// The canonical text of a JSON value's vector.
pub fn text_of(alloc: Global, value: &Value) -> Result<String, JsonError>
    ensures text { IfOk result (λ text. IsTextOf (view value.now) (string_bytes text)) }
    // Rejected: for the reason, and no vector's value for another than out of memory.
    ensures rejected { IfErr result (ReportsNoValue (view value.now)) }
    ensures accepts { (cvss : Cvss) → StandsFor DenotesCvss (view value.now) cvss
        → IfErr result (λ error. error ≡ OutOfMemory) }
{
    Ok(Cvss::from_value(alloc, value)?.to_string(alloc)?)
}

/// Converts a text into a JSON value and the value into a text, which is the canonical text of the
/// vector that the text denotes.
pub fn converted_and_back(alloc: Global, text: &str) -> Result<String, JsonError>
    ensures back { IfOk result (λ back. IsCanonicalText text.now (string_bytes back)) }
    ensures rejected { IfErr result (ReportsNoText text.now) }
    ensures accepts { (cvss : Cvss) → DenotesCvss text.now cvss
        → IfErr result (λ error. error ≡ OutOfMemory) }
{
    laws::texts_denote_one_vector();
    let value = value_of(alloc, text)?;
    text_of(alloc, &value)
}

/// Writes a vector as a JSON value and reads the value, which gives the vector back wherever its
/// own text does; else what that text denotes, or the reason why it denotes nothing.
pub fn written_and_read(alloc: Global, cvss: &Cvss) -> Result<Cvss, JsonError>
    ensures given_back { IsGivenBack cvss.now
        → (result ≡ Ok cvss.now) ⊎ (result ≡ Err OutOfMemory) }
    ensures read { IfOk result (λ read. DenotesCvss (text_of cvss.now) read) }
    ensures rejected { IfErr result (ReportsNoText (text_of cvss.now)) }
{
    laws::texts_denote_one_vector();
    let value = cvss.to_value(alloc)?;
    Cvss::from_value(alloc, &value)
}
