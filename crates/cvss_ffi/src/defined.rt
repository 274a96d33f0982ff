//! A vector's text without the metrics that are not defined.

ghost use Rattle.std.specs.Prelude.{◌≡◌, ◌↔◌, IsTrue};
ghost use Rattle.std.specs.Option.{option_copied};
ghost use Rattle.cvss_ffi.specs.Defined.{HasNoneDefined, IsTextWithout, IsWithout, IsWithoutNotDefined, defined_in};
ghost use Rattle.cvss_ffi.specs.Calls.{IsAnswerTo, Returns};

use crate::error::CvssError;
use crate::reading::read;
use crate::rejection::{NoVector, reject, write_vector};
use cvss_report::spelled;
use cvss_text::print::Printed;
use cvss_text::setting::completed;
use cvss_vector::{Cvss, Versioned};

/// Writes the canonical text of the vector that a text denotes, without the metrics that are not
/// defined, or why there is none.
pub fn without_not_defined(
    text: &[u8],
    flags: u32,
    error: &mut CvssError,
    buffer: &mut [u8],
) -> usize
    ensures { Returns (IsAnswerTo flags text.now IsTextWithout) error.old error.new
        buffer.old buffer.new result }
{
    match read(text, flags) {
        Ok(cvss) => write_vector(&without(&cvss), error, buffer),
        Err(why) => reject(NoVector::Text(why), error, buffer),
    }
}

/// A vector without the metrics that are not defined.
fn without(cvss: &Cvss) -> Cvss
    ensures { IsWithoutNotDefined cvss.now result }
{
    match cvss {
        Cvss::CvssV20(vector) => Cvss::CvssV20(without_values(vector, 0, b"ND")),
        Cvss::CvssV30(vector) => Cvss::CvssV30(without_values(vector, vector.minor_version, b"X")),
        Cvss::CvssV31(vector) => Cvss::CvssV31(without_values(vector, vector.minor_version, b"X")),
        Cvss::CvssV40(vector) => Cvss::CvssV40(without_values(vector, vector.minor_version, b"X")),
    }
}

/// A vector of a minor version without its metrics whose values are spelled so; the vector itself where it has
/// no other.
fn without_values<V: Versioned>(vector: &V, minor_version: usize, undefined: &[u8]) -> V
    requires { V.version.front vector.now ≡ V.front minor_version }
    ensures { IsWithout V.version undefined.now vector.now result }
{
    if has_none_defined(vector, undefined) {
        return *vector;
    }
    completed(V::without_metrics(minor_version), vector, Some(undefined))
}

fn has_none_defined<V: Printed>(vector: &V, undefined: &[u8]) -> bool
    ensures { IsTrue result ↔ HasNoneDefined V.version undefined.now vector.now }
{
    V::printed()
        .iter()
        .all(|kind| defined_in(vector, *kind, undefined).is_none())
}

/// How the vector's value for a metric is spelled, unless this is not defined.
fn defined_in<V: Printed>(vector: &V, kind: V::Kind, undefined: &[u8]) -> Option<&'static [u8]>
    ensures { option_copied result ≡ defined_in V.version undefined.now vector.now kind }
{
    match spelled(vector, kind) {
        Some(spelling) if spelling != undefined => Some(spelling),
        _ => None,
    }
}
