//! What C gets of the vector that a text denotes.

ghost use Rattle.std.specs.Prelude.{◌≡◌, None, length};
ghost use Rattle.cvss_explain.specs.Explanation.{IsExplanationText};
ghost use Rattle.cvss_report.specs.Record.{IsRecordText};
ghost use Rattle.cvss_vector.specs.Answers.{text_of};
ghost use Rattle.cvss_vector.specs.Evaluation.{IsOverallScore};
ghost use Rattle.cvss_vector.specs.declared.vector.Cvss.{Cvss};
ghost use Rattle.cvss_ffi.specs.Accepted.{Answers, IsVectorOf, WritesOf};
ghost use Rattle.cvss_ffi.specs.Buffer.{IsFilled, IsWritten, PutsFilled};
ghost use Rattle.cvss_ffi.specs.Calls.{IsAnswerTo, Returns};
ghost use Rattle.cvss_ffi.specs.Metrics.{metrics_in_order};
ghost use Rattle.cvss_ffi.specs.Scores.{IsScoreInTenths, IsSeverityNumber, IsReportOf, nothing, vector_size};
ghost use Rattle.cvss_ffi.specs.Values.{AreValuesIn, values_size};

use cvss_ffi::{
    CvssError, CvssMetric, CvssValues, CvssVector, metrics, numbers, objects, score, values, vector,
};

/// The canonical text of the vector that a text denotes, which is as long as the text, and in the struct
/// its scores and severities; or why there is none.
#[unsafe(no_mangle)]
pub extern "C" fn cvss_parse(
    text: &[u8],
    flags: u32,
    vector: &mut CvssVector,
    error: &mut CvssError,
    buffer: &mut [u8],
) -> usize
    ensures reported { Returns (IsAnswerTo flags text.now (λ cvss canonical. canonical ≡ text_of cvss))
        error.old error.new buffer.old buffer.new result }
    ensures vector { Answers flags text.now (λ cvss. IsFilled vector_size vector.old.size
        (IsReportOf vector.old.size cvss) vector.old vector.new) (vector.new ≡ vector.old) }
    ensures length { (cvss : Cvss) → IsVectorOf flags text.now cvss → result ≡ length text.now }
{
    vector::parse(text, flags, vector, error, buffer)
}

/// The tenths of the overall score of the vector that a text denotes, which counts all metrics in it; -1
/// where the text is rejected. No other score is computed.
#[unsafe(no_mangle)]
pub extern "C" fn cvss_score(text: &[u8], flags: u32) -> i32
    ensures { Answers flags text.now (λ cvss. IsScoreInTenths (IsOverallScore cvss) result)
        (result ≡ nothing) }
{
    score::score(text, flags)
}

/// How many metrics the vector has that a text denotes; they are written into the array, in the
/// order of the vector's canonical text, where they fit. 0 where the text is rejected.
#[unsafe(no_mangle)]
pub extern "C" fn cvss_metrics(text: &[u8], flags: u32, metrics: &mut [CvssMetric]) -> usize
    ensures { WritesOf flags text.now (λ cvss. IsWritten (metrics_in_order cvss))
        metrics.old metrics.new result }
{
    metrics::metrics(text, flags, metrics)
}

/// Whether a text denotes a vector and the struct is large enough; then the vector's version, its overall
/// score, its nomenclature and the values of its metrics.
#[unsafe(no_mangle)]
pub extern "C" fn cvss_values(text: &[u8], flags: u32, values: &mut CvssValues) -> bool
    ensures { PutsFilled values_size values.old.size (AreValuesIn flags text.now values.old.size)
        values.old values.new result }
{
    values::values(text, flags, values)
}

/// The record of the vector that a text denotes, the JSON object of FIRST's schema of its version; or
/// why there is none.
#[unsafe(no_mangle)]
pub extern "C" fn cvss_record(
    text: &[u8],
    flags: u32,
    error: &mut CvssError,
    buffer: &mut [u8],
) -> usize
    ensures { Returns (IsAnswerTo flags text.now IsRecordText) error.old error.new
        buffer.old buffer.new result }
{
    objects::record(text, flags, error, buffer)
}

/// The explanation of the score of the vector that a text denotes, a JSON object; or why there is none.
#[unsafe(no_mangle)]
pub extern "C" fn cvss_explain(
    text: &[u8],
    flags: u32,
    error: &mut CvssError,
    buffer: &mut [u8],
) -> usize
    ensures { Returns (IsAnswerTo flags text.now (IsExplanationText None)) error.old error.new
        buffer.old buffer.new result }
{
    objects::explain(text, flags, error, buffer)
}

/// The number of the severity of so many tenths by the bounds of a version, 20, 30, 31 or 40; -1 of
/// another version, and of tenths outside 0 to 100.
#[unsafe(no_mangle)]
pub extern "C" fn cvss_severity(version: i32, tenths: i32) -> i32
    ensures { IsSeverityNumber version tenths result }
{
    numbers::severity(version, tenths)
}
