//! Vectors, severities and nomenclatures as JSON strings (RFC 8259, section 7).

ghost use Rattle.std.specs.Prelude.{◌≡◌, ◌≢◌, ℕ, List, IfOk, IfErr, Some, Ok, Err, refl};
ghost use Rattle.cvss_base.specs.SeverityText as severity;
ghost use Rattle.cvss_base.specs.Reported.{ReportsFirst, ReportsNoSeverity};
ghost use Rattle.cvss_score.specs.v4.Nomenclature.{ReportsNoNomenclature};
ghost use Rattle.cvss_base.specs.V2Types.{v2_reason};
ghost use Rattle.cvss_base.specs.V3Types.{v3_reason};
ghost use Rattle.cvss_base.specs.V4Types.{v4_reason};
ghost use Rattle.cvss_base.specs.Rejection.{IsFirstRejection, IsFirstRejectionAfter};
ghost use Rattle.cvss_base.specs.Version.{canonical_text, Denotes, IsComplete, IsWellFormed};
ghost use Rattle.cvss_base.specs.declared.error.Error.{Error};
ghost use Rattle.cvss_base.specs.declared.error.Error.TheVariants.{OutOfMemory as LacksMemory};
ghost use Rattle.cvss_vector.specs.v2.Vector.{v2};
ghost use Rattle.cvss_vector.specs.v3.Vector.{v3};
ghost use Rattle.cvss_score.specs.v4.Nomenclature as nomenclature;
ghost use Rattle.cvss_vector.specs.v4.Vector.{v4};
ghost use Rattle.cvss_vector.specs.Answers.{text_of};
ghost use Rattle.cvss_vector.specs.Dispatch.{DenotesCvss, IsFirstRejectionCvss, cvss_reason};
ghost use Rattle.cvss.specs.Json.{IsNoString, StandsFor, ReportsWhy, json_error_text, reported_as};
ghost use Rattle.cvss.specs.declared.json.JsonError.TheVariants.{NotAString, Invalid, OutOfMemory};
ghost use Rattle.serde_json.specs.Data.{string};
ghost use Rattle.serde_json.specs.View.{view};

use crate::{Cvss, Error, Severity, v2, v3, v4};
use serde_json::Value;
use std::alloc::{AllocError, Global};
use std::fmt;

/// Why there is no JSON value, or why a value stands for nothing.
#[derive(Clone, Debug, Drop, PartialEq, Eq)]
pub enum JsonError {
    /// The value is no string.
    NotAString,
    /// The text of the string is rejected. This error is never `OutOfMemory`.
    Invalid(Error),
    /// There was no memory for the value, or for the text of a rejection.
    OutOfMemory,
}

impl fmt::Display for JsonError {
    ghost output = { λ error. Some (json_error_text error) };

    fn fmt<W: fmt::Write>(&self, f: &mut fmt::Formatter<W>) -> fmt::Result {
        match self {
            JsonError::NotAString => f.write_str("not a JSON string"),
            JsonError::Invalid(error) => write!(f, "{error}"),
            JsonError::OutOfMemory => f.write_str("out of memory"),
        }
    }
}

impl std::error::Error for JsonError {}

impl From<Error> for JsonError {
    ghost from_gives = { λ error reported. reported ≡ reported_as error };

    fn from(error: Error) -> JsonError {
        match error {
            Error::OutOfMemory => JsonError::OutOfMemory,
            error => JsonError::Invalid(error),
        }
    }
}

impl From<AllocError> for JsonError {
    ghost from_gives = { λ _ reported. reported ≡ OutOfMemory };

    fn from(_error: AllocError) -> JsonError {
        JsonError::OutOfMemory
    }
}

/// What is written as a JSON string, and read from one.
pub trait JsonText: fmt::Display + Sized {
    // the text that a value is written as
    ghost text: { Self → List ℕ };

    // the text denotes the value
    ghost denotes: { List ℕ → Self → Type 0 };

    // the error says why the text denotes no value
    ghost rejects: { List ℕ → Error → Type 0 };

    /// The JSON string of the text that is printed.
    ///
    /// # Errors
    ///
    /// `OutOfMemory` alone.
    final fn to_value(&self, alloc: Global) -> Result<Value, JsonError>
        ensures written { IfOk result (λ value. view value ≡ string (text self.now)) }
        ensures lacks_memory { IfErr result (λ error. error ≡ OutOfMemory) }
    {
        Ok(Value::String(self.to_string(alloc)?))
    }

    /// What the text of a JSON string denotes. Accepting takes no memory.
    ///
    /// # Errors
    ///
    /// `NotAString` for any other value; `Invalid` with the reason why the text is rejected, and
    /// `OutOfMemory` in place of one that carries text.
    fn from_value(alloc: Global, value: &Value) -> Result<Self, JsonError>
        // Accepted: what is given is what the value stands for, and each such is given.
        ensures stands { IfOk result (StandsFor denotes (view value.now)) }
        ensures accepts { (x : Self) → StandsFor denotes (view value.now) x → result ≡ Ok x }
        // Rejected: as no string, or for the reason that the text is rejected for.
        ensures not_a_string { IsNoString (view value.now) → result ≡ Err NotAString }
        ensures rejected { IfErr result (ReportsWhy rejects (view value.now)) }
        ensures reported { IfErr result (λ error. error ≢ Invalid LacksMemory) };

    ghost printed: { (x : Self) → Self.output x ≡ Some (text x) };
}

/// The text of a JSON string.
fn string_of(value: &Value) -> Result<&str, JsonError>
    ensures is_string { IfOk result (λ text. view value.now ≡ string text.now) }
    ensures is_no_string { IfErr result (λ error.
        (error ≡ NotAString) × IsNoString (view value.now)) }
{
    match value.as_str() {
        Some(text) => Ok(text),
        None => Err(JsonError::NotAString),
    }
}

impl JsonText for Severity {
    ghost text = { severity.text_of };

    ghost denotes = { λ text x. severity.text_of x ≡ severity.lowered text };

    ghost rejects = { ReportsNoSeverity };

    ghost printed = { λ x. refl };

    fn from_value(alloc: Global, value: &Value) -> Result<Severity, JsonError> {
        Ok(Severity::from_str(alloc, string_of(value)?)?)
    }
}

impl JsonText for v4::Nomenclature {
    ghost text = { nomenclature.text_of };

    ghost denotes = { λ text x. nomenclature.text_of x ≡ text };

    ghost rejects = { ReportsNoNomenclature };

    ghost printed = { λ x. refl };

    fn from_value(alloc: Global, value: &Value) -> Result<v4::Nomenclature, JsonError> {
        Ok(v4::Nomenclature::from_str(alloc, string_of(value)?)?)
    }
}

impl JsonText for v2::Vector {
    ghost text = { canonical_text v2 };

    ghost denotes = { λ text x. Denotes v2 text x × IsComplete v2 x };

    ghost rejects = { λ text. ReportsFirst v2_reason (IsFirstRejection v2 text) };

    ghost printed = { λ x. refl };

    fn from_value(alloc: Global, value: &Value) -> Result<v2::Vector, JsonError> {
        Ok(v2::Vector::from_str(alloc, string_of(value)?)?)
    }
}

impl JsonText for v3::Vector {
    ghost text = { canonical_text v3 };

    ghost denotes = { λ text x. Denotes v3 text x × IsWellFormed v3 x };

    ghost rejects = { λ text. ReportsFirst v3_reason (IsFirstRejectionAfter v3 text) };

    ghost printed = { λ x. refl };

    fn from_value(alloc: Global, value: &Value) -> Result<v3::Vector, JsonError> {
        Ok(v3::Vector::from_str(alloc, string_of(value)?)?)
    }
}

impl JsonText for v4::Vector {
    ghost text = { canonical_text v4 };

    ghost denotes = { λ text x. Denotes v4 text x × IsWellFormed v4 x };

    ghost rejects = { λ text. ReportsFirst v4_reason (IsFirstRejectionAfter v4 text) };

    ghost printed = { λ x. refl };

    fn from_value(alloc: Global, value: &Value) -> Result<v4::Vector, JsonError> {
        Ok(v4::Vector::from_str(alloc, string_of(value)?)?)
    }
}

impl JsonText for Cvss {
    ghost text = { text_of };

    ghost denotes = { DenotesCvss };

    ghost rejects = { λ text. ReportsFirst cvss_reason (IsFirstRejectionCvss text) };

    ghost printed = { λ x. refl };

    fn from_value(alloc: Global, value: &Value) -> Result<Cvss, JsonError> {
        Ok(Cvss::from_str(alloc, string_of(value)?)?)
    }
}
